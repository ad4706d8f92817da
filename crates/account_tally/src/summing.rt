//! The accounts of an image: what its records say and others must say too.

ghost use Rattle.std.specs.Prelude.{ℕ, ◌≡◌, List, IfOk, OnOk, option_map};
ghost use Rattle.std.specs.Option.{option_copied};
ghost use Rattle.verdict.specs.declared.place.Chunk.{Chunk as AChunk};
ghost use Rattle.accounts.specs.Broken.{broken_finding};
ghost use Rattle.std.specs.List.{fold};
ghost use Rattle.records.specs.Context.{has_sum_free};
ghost use Rattle.records.specs.Part.{IsLawful, Located, located, part_of};
ghost use Rattle.records.specs.Postings.{account_fault};
ghost use Rattle.records.specs.Takes.{with_accounted};
ghost use Rattle.account_tally.specs.Kept.{chosen, summed_in};
ghost use Rattle.account_tally.specs.Sums.{Summed, context_with, of_none, with_record};

use crate::apart::{Apart, WithTargets};
use crate::context::ImageContext;
use crate::shown::SectorTally;
use accounts::{Account, Tally, finding_of, kinds};
use chunk_map::ChunkMap;
use records::{RecAt, Record, Taker};
use std::alloc::Global;
use verdict::{Finding, NoMemory};

/// What the records say that were taken, as sums of accounts, in the context of an image.
#[derive(Debug, Drop)]
pub struct Accounts<'a> {
    alloc: Global,
    // The context.
    context: ImageContext<'a>,
    // The sums of extents, of names and of inodes, each in a form of its own, and what is not yet added to the rest.
    apart: Apart,
    // All others, but for those of sectors.
    rest: Tally,
    // The sums of sectors.
    sectors: SectorTally,
}

impl<'a> Accounts<'a> {
    /// Those of no records, of an image with these chunks and this size of a tree block in bytes. They take their
    /// memory from this allocator.
    pub fn new(alloc: Global, map: &'a ChunkMap, nodesize: u32) -> Accounts<'a>
        ensures { summed_in result ≡ of_none map.now nodesize }
    {
        Accounts {
            alloc,
            context: ImageContext { map, nodesize },
            apart: Apart::new(alloc),
            rest: Tally::new(alloc),
            sectors: SectorTally::new(alloc),
        }
    }

    /// The finding of the least account that is broken by the records that were taken. Nothing may be taken behind it.
    pub fn finding(&mut self) -> Result<Option<Finding>, NoMemory>
        ensures { IfOk result (λ found.
            (chunks : List AChunk) (nodesize : ℕ) (records : List Located) →
            fold with_record (of_none chunks nodesize) records ≡ summed_in self.old →
            found ≡ account_fault (context_with chunks nodesize (has_sum_free records)) records) }
    {
        self.rest.add_all(&mut self.apart.waiting)?;
        let sector = self.sectors.least_broken()?;
        self.apart.settle(&mut self.rest)?;
        Ok(least_finding(self.alloc, sector, self.rest.least_broken()))
    }

    // Adds what a record posts.
    fn add(&mut self, one: &RecAt<'_>) -> Result<(), NoMemory>
        requires { IsLawful (part_of one.now.part) }
        ensures { OnOk result (summed_in self.new ≡
            with_record (summed_in self.old) (located one.now)) }
    {
        let (alloc, tree, part) = (self.alloc, one.tree, &one.part);
        let into = &mut self.apart;
        extent_rules::post(alloc, &self.context, tree, part, into)?;
        dir_rules::post_by(alloc, &WithTargets, tree, part, into)?;
        space_rules::post_rest(alloc, &self.context, tree, part, into)?;
        inode_rules::post_own(alloc, tree, part, into)?;
        self.rest.add_all(&mut into.waiting)?;
        self.sectors.take(&self.context, one)
    }
}

/// The finding of the lesser of a sector, by its logical address in bytes, and an account of another kind, `None` exactly where there is
/// neither: sectors stand between the kinds 4 and 6. The account of the sector takes its memory from this allocator.
pub fn least_finding(
    alloc: Global,
    sector: Option<u64>,
    account: Option<&Account>,
) -> Option<Finding>
    ensures { result ≡ option_map broken_finding (chosen sector (option_copied account.entry)) }
{
    let Some(address) = sector else {
        return match account {
            Some(account) => Some(finding_of(account)),
            None => None,
        };
    };
    match account {
        Some(account) if account.kind < kinds::SECTOR => Some(finding_of(account)),
        _ => Some(finding_of(&Account::sector(alloc, address))),
    }
}

impl<'a> Taker for Accounts<'a> {
    ghost Held = { Summed };

    ghost held = { summed_in };

    ghost with = { with_accounted with_record };

    fn take(&mut self, one: &Record<'_>) -> Result<(), NoMemory> {
        match one {
            Record::Block(block) => self.add(&block.record()),
            Record::Item(one) => self.add(one),
            Record::Pointer(_) => Ok(()),
        }
    }
}
