//! What makes the tables of an index of the records of an image.

ghost use Rattle.std.specs.Prelude.{◌≡◌, ◌+◌, ◌≤◌, IfOk, IfSome, OnOk, length, true};
ghost use Rattle.verdict.specs.Trees.{is_node_size};
ghost use Rattle.recon_disk.specs.Keeping.{Kept};
ghost use Rattle.write_cache.specs.Cache.{overlaid};
ghost use Rattle.records.specs.Part.{IsLawful, located, part_of};
ghost use Rattle.records.specs.Takes.{with_accounted};
ghost use Rattle.block_source.specs.Gives.{Gives, is_disk_halt};
ghost use Rattle.block_source.specs.Takes.{handing};
ghost use Rattle.plain_check.specs.Opened.{ReadsOnce, known, named_records};
ghost use Rattle.commit_laws.specs.Steps.{posts_of};
ghost use Rattle.change_records.specs.Spans.{span_of as span_of_record};
ghost use Rattle.ledger_index.specs.Ledger.{entries_of, sums_of};
ghost use Rattle.live_index.specs.Table.{pairs_of};
ghost use Rattle.live_maker.specs.Opened.{finished, held_in};
ghost use Rattle.records.specs.Context.{sum_free_inode};
ghost use Rattle.tree_laws.specs.LivePairs.{table_of};
ghost use Rattle.span_index.specs.Table.{times_of};
ghost use Rattle.ledger_index.specs.Looks.{counted_times};
ghost use Rattle.touched_accounts.specs.Looks.{HaveLooks};
ghost use Rattle.account_tally.specs.Sums.{or_free};
ghost use Rattle.commit_judge.specs.Filling.{AreTablesOf, FewToMake, filled_in, looks_of, named_walk, of_none, with_located, with_option};
ghost use Rattle.commit_judge.specs.Flags.{free_in};

use crate::context::Before;
use crate::filler::Filling;
use crate::posts::post_record;
use crate::spans::span_of;
use block_source::Halt;
use change_records::Inode;
use chunk_map::ChunkMap;
use ledger_index::LedgerIndex;
use live_index::LiveIndex;
use live_maker::Lives;
use plain_check::Volume;
use recon_disk::{Disk, Steps};
use records::{Both, RecAt, Record, Taker};
use span_index::SpanIndex;
use std::alloc::Global;
use std::collections::BTreeSet;
use touched_accounts::Adding;
use verdict::NoMemory;
use write_cache::WriteCache;

/// The tables of an index.
#[derive(Drop)]
pub(crate) struct Tables<L> {
    // The live pairs.
    pub(crate) live: LiveIndex<L>,
    // The sums of all accounts but sectors.
    pub(crate) totals: LedgerIndex<L>,
    // The sectors that extents own, that checksums cover and that files show.
    pub(crate) spans: SpanIndex<L>,
    // The inodes whose data has no checksums.
    pub(crate) free: BTreeSet<Inode>,
}

/// The tables of an open image, or the first finding of the trees that root items name. Each block of these trees is at most two reads,
/// one for each of its copies.
pub(crate) fn tables_of<D: Disk, L>(
    alloc: Global,
    disk: &mut D,
    cache: &WriteCache,
    volume: &Volume,
    steps: &mut Steps<L>,
) -> Result<Tables<L>, Halt>
    requires size { is_node_size volume.now.sup.nodesize ≡ true }
    requires end { volume.now.end ≡ D.len disk.old }
    ensures gives { Gives D.Disk disk.old cache.now (handing (λ _. tt {0}) result)
        (λ image. named_walk (known volume.now) image) }
    ensures tables { IfOk result (λ tables. IfSome (D.bytes disk.old)
        (λ image. AreTablesOf (known volume.now) (overlaid cache.now 0 image) tables)) }
    ensures looks { IfOk result (λ tables. IfSome (D.bytes disk.old)
        (λ image. FewToMake (known volume.now) (overlaid cache.now 0 image) tables steps.old
        steps.new)) }
    ensures reads { ReadsOnce D.Disk disk.old disk.new cache.now result
        (λ image. named_records (known volume.now) image) }
    ensures kept { Kept D.Disk disk.old disk.new (is_disk_halt result) }
{
    let mut all = Both {
        first: Lives::new(alloc),
        second: Filling::new(alloc, &volume.map, volume.sup.nodesize, &mut *steps),
    };
    volume.read_all(alloc, disk, cache, &mut all)?;
    let Both {
        first: lives,
        second: filling,
    } = all;
    let (tables, looks) = filling.finish(lives)?;
    // `filling` owned memory, so no proof here sees that the counter which it was lent ends as it left it. It does, so this never stops.
    if steps.looks() != looks {
        return Err(Halt::NoMemory);
    }
    Ok(tables)
}

impl<'m, 's, L> Filling<'m, 's, L> {
    // What is made of no records, of an image with these chunks and this size of a tree block in bytes.
    fn new(
        alloc: Global,
        map: &'m ChunkMap,
        nodesize: u32,
        steps: &'s mut Steps<L>,
    ) -> Filling<'m, 's, L>
        ensures { filled_in result ≡ of_none map.now nodesize steps.old }
    {
        let began = steps.looks();
        Filling {
            alloc,
            map,
            nodesize,
            adding: Adding {
                ledger: LedgerIndex::new(alloc),
                steps,
            },
            spans: SpanIndex::new(alloc),
            free: BTreeSet::new(alloc),
            began,
        }
    }

    // Adds what a record says.
    fn add(&mut self, one: &RecAt<'_>) -> Result<(), NoMemory>
        requires { IsLawful (part_of one.now.part) }
        ensures { OnOk result
            (filled_in self.new ≡ with_located (filled_in self.old) (located one.now)) }
    {
        let (alloc, map, nodesize) = (self.alloc, self.map, self.nodesize);
        let context = Before {
            map,
            free: &self.free,
            nodesize,
        };
        post_record(alloc, &context, one.tree, &one.part, &mut self.adding)?;
        put_span(&mut self.spans, nodesize, one, &mut self.adding)?;
        put_inode(&mut self.free, one)
    }

    // The tables, with that of the live pairs of the same records, and the looks so far.
    fn finish(self, lives: Lives) -> Result<(Tables<L>, u64), NoMemory>
        ensures live { IfOk result (λ made.
            pairs_of made.0.live ≡ table_of (finished (held_in lives))) }
        ensures sums { IfOk result (λ made. sums_of made.0.totals ≡ (filled_in self.entry).sums) }
        ensures spans { IfOk result (λ made.
            times_of made.0.spans ≡ (filled_in self.entry).spans) }
        ensures free { IfOk result (λ made. free_in made.0.free ≡ (filled_in self.entry).free) }
        ensures few { IfOk result (λ made. HaveLooks (filled_in self.entry).began
            (entries_of made.0.totals) (filled_in self.entry).looks) }
        ensures looks { IfOk result (λ made.
            made.1 ≤ (filled_in self.entry).looks + length (held_in lives)) }
    {
        let Filling {
            alloc,
            map: _,
            nodesize: _,
            adding,
            spans,
            free,
            began: _,
        } = self;
        let Adding {
            ledger: totals,
            steps,
        } = adding;
        let live = lives.finish(alloc, steps)?;
        let looks = steps.looks();
        let tables = Tables {
            live,
            totals,
            spans,
            free,
        };
        Ok((tables, looks))
    }
}

impl<'m, 's, L> Taker for Filling<'m, 's, L> {
    ghost use Rattle.commit_judge.specs.Filling.{Filled};

    ghost Held = { Filled };

    ghost held = { filled_in };

    ghost with = { with_accounted with_located };

    fn take(&mut self, one: &Record<'_>) -> Result<(), NoMemory> {
        match one {
            Record::Block(block) => self.add(&block.record()),
            Record::Item(one) => self.add(one),
            Record::Pointer(_) => Ok(()),
        }
    }
}

// Puts the span of a record into a table, where it has one, by a look that the counter of a ledger counts.
fn put_span<L>(
    spans: &mut SpanIndex<L>,
    nodesize: u32,
    one: &RecAt<'_>,
    adding: &mut Adding<'_, L>,
) -> Result<(), NoMemory>
    requires { IsLawful (part_of one.now.part) }
    ensures spans { OnOk result (times_of spans.new ≡
        with_option (times_of spans.old) (span_of_record nodesize (located one.now))) }
    ensures looks { adding.new.steps.now
        ≡ counted_times (looks_of (span_of_record nodesize (located one.now)))
        adding.old.steps.now }
    ensures ledger { adding.new.ledger ≡ adding.old.ledger }
{
    match span_of(nodesize, one.tree, &one.part) {
        Some(span) => spans.insert(span, adding.steps),
        None => Ok(()),
    }
}

// Puts the inode of a record into a set, where the record is the item of an inode whose data has no checksums.
fn put_inode(free: &mut BTreeSet<Inode>, one: &RecAt<'_>) -> Result<(), NoMemory>
    ensures { OnOk result
        (free_in free.new ≡ or_free (free_in free.old) (sum_free_inode (located one.now))) }
{
    let Some((tree, ino)) = one.sum_free() else {
        return Ok(());
    };
    free.insert(Inode { tree, ino })?;
    Ok(())
}
