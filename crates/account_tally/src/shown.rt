//! The sums of sectors, while it is not yet known which files' data has checksums.

ghost use Rattle.std.specs.Prelude.{◌≡◌};
ghost use Rattle.records.specs.Part.{part_of};
ghost use Rattle.account_tally.specs.Ranges.{AllFit, inode_in};

use accounts::Ctx;
use records::{Rec, RecAt};
use sector_runs::{SectorRun, SectorUse, Sectors};
use space_rules::run_of;
use std::alloc::Global;
use std::collections::BTreeSet;
use verdict::NoMemory;

// The inodes whose data has no checksums, each with its tree.
#[derive(Debug, Drop)]
pub struct SumFree {
    inodes: BTreeSet<(u64, u64)>,
}

impl SumFree {
    ghost use Rattle.std.specs.Prelude.{◌≡◌, OnOk};
    ghost use Rattle.records.specs.Context.{sum_free_inode};
    ghost use Rattle.records.specs.Part.{located};
    ghost use Rattle.account_tally.specs.Kept.{free_in};
    ghost use Rattle.account_tally.specs.Sums.{none_free, or_free};

    // None yet. They take their memory from this allocator.
    pub fn new(alloc: Global) -> SumFree
        ensures { free_in result ≡ none_free }
    {
        SumFree {
            inodes: BTreeSet::new(alloc),
        }
    }

    // Takes the inode of a record, where that is the item of an inode with NODATASUM.
    pub fn take(&mut self, one: &RecAt<'_>) -> Result<(), NoMemory>
        ensures { OnOk result
            (free_in self.new ≡ or_free (free_in self.old) (sum_free_inode (located one.now))) }
    {
        let Some(inode) = one.sum_free() else {
            return Ok(());
        };
        self.inodes.insert(inode)?;
        Ok(())
    }

    // Whether an inode of a tree is one of them.
    pub fn has(&self, tree: u64, ino: u64) -> bool
        ensures { result ≡ free_in self.now tree ino }
    {
        self.inodes.contains(&(tree, ino))
    }
}

// The sectors that a range of a file shows. They want checksums where the data of its inode has them.
#[derive(Clone, Copy, Debug)]
pub struct Shown {
    // The tree.
    pub tree: u64,
    // The number of the inode.
    pub ino: u64,
    // The logical address in bytes where the first begins.
    pub first: u64,
    // How many they are.
    pub count: u64,
}

impl Shown {
    ghost use Rattle.std.specs.Prelude.{◌≡◌};
    ghost use Rattle.account_tally.specs.Ranges.{range_run};

    // The sectors.
    fn run(&self) -> SectorRun
        ensures { result ≡ range_run self.now }
    {
        SectorRun {
            first: self.first,
            count: self.count,
            sort: SectorUse::Shown,
        }
    }
}

// The sums of all sectors. In a walk the item of an inode comes before its ranges, but no clause here rests on the
// order of records: so what files show is kept aside, and added when all inodes are known.
#[derive(Debug, Drop)]
pub struct SectorTally {
    sectors: Sectors,
    shown: Vec<Shown>,
    free: SumFree,
    ghost fit: { AllFit shown.items },
}

impl SectorTally {
    ghost use Rattle.std.specs.Prelude.{◌≡◌, ◌+◌, ℕ, IfOk, OnOk, if◌then◌else◌};
    ghost use Rattle.sector_runs.specs.Runs.{IsFit, IsLeastBroken, amount_of, no_sectors};
    ghost use Rattle.sector_runs.specs.declared.run.SectorUse.TheVariants.{Shown as IsShown};
    ghost use Rattle.records.specs.Context.{sum_free_inode};
    ghost use Rattle.records.specs.Part.{IsLawful, located};
    ghost use Rattle.account_tally.specs.Kept.{free_in, sectors_in};
    ghost use Rattle.account_tally.specs.Sums.{Frees, context_with, none_free, or_free, with_sectors};

    // The sums of no records. They take their memory from this allocator.
    pub fn new(alloc: Global) -> SectorTally
        ensures sums { sectors_in result ≡ (λ _. no_sectors) }
        ensures free { free_in result.free ≡ none_free }
    {
        SectorTally {
            sectors: Sectors::new(alloc),
            shown: Vec::new(alloc),
            free: SumFree::new(alloc),
        }
    }

    // Takes a record: the sectors that it says something of, and whether it is of an inode whose data has no
    // checksums.
    pub fn take<C: Ctx>(&mut self, context: &C, one: &RecAt<'_>) -> Result<(), NoMemory>
        requires lawful { IsLawful (part_of one.now.part) }
        requires all { let context = C.context context.now in
            context ≡ context_with context.chunks context.nodesize none_free }
        ensures sums { let context = C.context context.now in OnOk result
            (sectors_in self.new ≡ with_sectors context.chunks context.nodesize
            (sectors_in self.old) (located one.now)) }
        ensures free { OnOk result (free_in self.new.free ≡
            or_free (free_in self.old.free) (sum_free_inode (located one.now))) }
    {
        self.free.take(one)?;
        let Some(run) = run_of(context, one.tree, &one.part) else {
            return Ok(());
        };
        match inode_of(&one.part) {
            Some(ino) => self.show(one.tree, ino, run),
            None => self.sectors.add(&run),
        }
    }

    // Keeps what a range of a file shows.
    #[tactic(auto, using(crate::proofs::ShownSums::shown_more))]
    fn show(&mut self, tree: u64, ino: u64, run: SectorRun) -> Result<(), NoMemory>
        requires fit { IsFit run }
        requires sort { run.sort ≡ IsShown }
        ensures free { free_in self.new.free ≡ free_in self.old.free }
        ensures sums { OnOk result ((free : Frees) (address field : ℕ) →
            sectors_in self.new free address field ≡ sectors_in self.old free address field
            + (if free tree ino then 0 else amount_of run address field)) }
    {
        let one = Shown {
            tree,
            ino,
            first: run.first,
            count: run.count,
        };
        Ok(self.shown.push(one)?)
    }

    // The address of the least broken sector. All records are taken: what files show is added to the sums.
    pub fn least_broken(&mut self) -> Result<Option<u64>, NoMemory>
        ensures { IfOk result (IsLeastBroken (sectors_in self.old (free_in self.old.free))) }
    {
        while let Some(one) = self.shown.pop() {
            if !self.free.has(one.tree, one.ino) {
                self.sectors.add(&one.run())?;
            }
        }
        Ok(self.sectors.least_broken())
    }
}

// The number of the inode of a range of a file.
fn inode_of(part: &Rec<'_>) -> Option<u64>
    ensures { result ≡ inode_in (part_of part.now) }
{
    match part {
        Rec::FileExtent(range) => Some(range.key.objectid),
        _ => None,
    }
}
