//! What is known of an image once its chunk tree and its root tree were walked.

ghost use Rattle.std.specs.Prelude.{◌≡◌, ◌+◌, ◌*◌, ◌≤◌, IfOk, IfSome, OnOk, Ok, true};
ghost use Rattle.verdict.specs.Trees.{is_node_size};
ghost use Rattle.recon_disk.specs.Keeping.{Kept};
ghost use Rattle.write_cache.specs.Cache.{overlaid};
ghost use Rattle.super_reader.specs.Superblock.{IsReadable};
ghost use Rattle.records.specs.Seen.{seen};
ghost use Rattle.records.specs.Seen.Seen.{ItemSeen};
ghost use Rattle.records.specs.Walk.{behind};
ghost use Rattle.records.specs.Contents.{
  chunk_map_in,
  chunk_records,
  root_items_in,
  root_records,
  super_record,
  tree_records,
};
ghost use Rattle.block_source.specs.Gives.{Gives, is_disk_halt};
ghost use Rattle.block_source.specs.Takes.{ReadsInto, handing};
ghost use Rattle.plain_check.specs.Opened.{
  ReadsOnce,
  block_count,
  known,
  named_records,
  opened,
  volume_records,
};

use crate::kept::KeptRecords;
use crate::primary::read_superblock;
use crate::takers::Roots;
use block_source::{BlockSource, Chunks, Halt, chunk_root, system_chunks, top_root, walk_into};
use chunk_map::ChunkMap;
use recon_disk::Disk;
use records::{Both, Rec, RecAt, Record, Taker, named_root, roots_fault};
use std::alloc::Global;
use super_reader::Super;
use verdict::Key;
use volume_items::RootAt;
use write_cache::WriteCache;

/// What is known of an image once its chunk tree and its root tree were walked. The records of these two trees are kept,
/// which are few, so that no block is read twice.
#[derive(Drop)]
pub struct Volume {
    /// The superblock.
    pub sup: Super,
    /// The bytes of the superblock place, from byte 65,536 on.
    pub raw: [u8; 4096],
    /// All chunks.
    pub map: ChunkMap,
    /// Where the trees begin by the root items, in the order of these.
    pub roots: Vec<RootAt>,
    /// The length of the disk in bytes.
    pub end: u64,
    // The records of the chunk tree, and behind them those of the root tree.
    kept: KeptRecords,
}

impl Volume {
    /// Opens the image which the disk's bytes make with the pending writes over them: its superblock, the chunks of the
    /// system array, the chunk tree through these, the rules on the chunk map, the root tree through the whole map, and
    /// the rules on the list of root items. The disk has `end` bytes.
    ///
    /// The superblock is one read of the disk, and each block of the two trees at most two, one for each of its copies.
    #[tactic(auto, unfolding(crate::specs::Opened::opened))]
    pub fn open<D: Disk>(
        alloc: Global,
        disk: &mut D,
        cache: &WriteCache,
        end: u64,
    ) -> Result<Volume, Halt>
        requires end { end ≡ D.len disk.old }
        ensures gives { Gives D.Disk disk.old cache.now (handing known result) opened }
        ensures readable { IfOk result (λ volume. IsReadable volume.sup) }
        ensures end { IfOk result (λ volume. volume.end ≡ end) }
        ensures room { OnOk result (69632 ≤ D.len disk.old) }
        ensures reads { IfOk result (λ volume. IfSome (D.bytes disk.old) (λ _.
            D.reads disk.new ≤ D.reads disk.old + 1 + 2 * block_count (known volume).seen)) }
        ensures kept { Kept D.Disk disk.old disk.new (is_disk_halt result) }
    {
        let top = read_superblock(disk, cache, end)?;
        let array = system_chunks(alloc, &top.sup)?;
        let base = BlockSource {
            cache,
            map: &array,
            sup: &top.sup,
            end,
        };
        let Both {
            first: Chunks { map },
            second: kept,
        } = chunk_tree(alloc, disk, &base)?;
        let volume = BlockSource { map: &map, ..base };
        let Both {
            first: roots,
            second: kept,
        } = root_tree(alloc, disk, &volume, kept)?;
        Ok(Volume {
            sup: top.sup,
            raw: top.raw,
            map,
            roots: roots.items,
            end,
            kept,
        })
    }

    /// Gives all records of the image to a taker: that of the superblock, those of the chunk tree and of the root tree,
    /// which are kept, and those of all trees that root items name, which are walked.
    ///
    /// Each block of the trees that are walked is at most two reads of the disk, one for each of its copies.
    #[tactic(auto, using(block_source::proofs::Walking::steps))]
    pub fn read_all<D: Disk, T: Taker>(
        &self,
        alloc: Global,
        disk: &mut D,
        cache: &WriteCache,
        into: &mut T,
    ) -> Result<(), Halt>
        requires size { is_node_size self.now.sup.nodesize ≡ true }
        requires end { self.now.end ≡ D.len disk.old }
        ensures taken { ReadsInto D.Disk T.Taker disk.old cache.now into.old into.new result
            (λ image. volume_records (known self.now) image) }
        ensures reads { ReadsOnce D.Disk disk.old disk.new cache.now result
            (λ image. named_records (known self.now) image) }
        ensures kept { Kept D.Disk disk.old disk.new (is_disk_halt result) }
    {
        into.take(&record_of_superblock(&self.sup))?;
        self.kept.give(into)?;
        let source = BlockSource {
            cache,
            map: &self.map,
            sup: &self.sup,
            end: self.end,
        };
        walk_trees(alloc, disk, &source, &self.roots, into)
    }
}

// The chunks of the chunk tree, where the rules on the chunk map keep, and its records. It is walked through the chunks
// of the system array.
#[tactic(auto, unfolding(records::specs::Contents::chunk_map_in), using(block_source::proofs::Copies::overlays))]
fn chunk_tree<D: Disk>(
    alloc: Global,
    disk: &mut D,
    volume: &BlockSource<'_>,
) -> Result<Both<Chunks, KeptRecords>, Halt>
    requires size { is_node_size volume.now.sup.now.nodesize ≡ true }
    requires end { volume.now.end ≡ D.len disk.old }
    ensures gives { let sup = volume.now.sup.now in
        Gives D.Disk disk.old volume.now.cache.now (handing (λ both. both.first.map) result)
        (λ image. chunk_map_in sup volume.now.map.now image) }
    ensures seen { IfOk result (λ both. IfSome (D.bytes disk.old) (λ image.
        chunk_records volume.now.sup.now volume.now.map.now (overlaid volume.now.cache.now 0 image)
        ≡ Ok both.second)) }
    ensures reads { IfOk result (λ both. IfSome (D.bytes disk.old) (λ _.
        D.reads disk.new ≤ D.reads disk.old + 2 * block_count both.second)) }
    ensures kept { Kept D.Disk disk.old disk.new (is_disk_halt result) }
{
    let mut both = Both {
        first: Chunks::new(alloc),
        second: KeptRecords::new(alloc),
    };
    walk_into(alloc, disk, volume, &chunk_root(volume.sup), &mut both)?;
    match both
        .first
        .map
        .map_fault(volume.map, volume.sup.devid, volume.end)
    {
        Some(found) => Err(Halt::Found(found)),
        None => Ok(both),
    }
}

// The root items of the root tree, where the rules on their list keep, and its records behind others.
#[tactic(auto, unfolding(records::specs::Contents::root_items_in))]
fn root_tree<D: Disk>(
    alloc: Global,
    disk: &mut D,
    volume: &BlockSource<'_>,
    kept: KeptRecords,
) -> Result<Both<Roots, KeptRecords>, Halt>
    requires size { is_node_size volume.now.sup.now.nodesize ≡ true }
    requires end { volume.now.end ≡ D.len disk.old }
    ensures gives { let sup = volume.now.sup.now in
        Gives D.Disk disk.old volume.now.cache.now (handing (λ both. both.first.items.items) result)
        (λ image. root_items_in sup volume.now.map.now image) }
    ensures seen { IfOk result (λ both. IfSome (D.bytes disk.old) (λ image.
        behind kept (root_records volume.now.sup.now volume.now.map.now
        (overlaid volume.now.cache.now 0 image))
        ≡ Ok both.second)) }
    ensures reads { IfOk result (λ both. IfSome (D.bytes disk.old) (λ _.
        D.reads disk.new + 2 * block_count kept ≤ D.reads disk.old + 2 * block_count both.second)) }
    ensures kept { Kept D.Disk disk.old disk.new (is_disk_halt result) }
{
    let mut both = Both {
        first: Roots::new(alloc),
        second: kept,
    };
    walk_into(alloc, disk, volume, &top_root(volume.sup), &mut both)?;
    match roots_fault(alloc, volume.sup.compat_ro, &both.first.items)? {
        Some(found) => Err(Halt::Found(found)),
        None => Ok(both),
    }
}

// The record of the superblock.
fn record_of_superblock(sup: &Super) -> Record<'static>
    ensures { seen result ≡ ItemSeen (super_record sup.now) }
{
    Record::Item(RecAt {
        tree: 0,
        block: 0,
        key: Key::none(),
        part: Rec::Super {
            bytes_used: sup.bytes_used,
        },
    })
}

// Walks the trees that root items name, one after the other, and gives their records to a taker.
#[tactic(auto, using(block_source::proofs::Walking::then_held))]
fn walk_trees<D: Disk, T: Taker>(
    alloc: Global,
    disk: &mut D,
    volume: &BlockSource<'_>,
    roots: &[RootAt],
    into: &mut T,
) -> Result<(), Halt>
    requires size { is_node_size volume.now.sup.now.nodesize ≡ true }
    requires end { volume.now.end ≡ D.len disk.old }
    ensures taken { let sup = volume.now.sup.now in
        ReadsInto D.Disk T.Taker disk.old volume.now.cache.now into.old into.new result
        (λ image. tree_records sup volume.now.map.now roots.now image) }
    ensures reads { let sup = volume.now.sup.now in
        ReadsOnce D.Disk disk.old disk.new volume.now.cache.now result
        (λ image. tree_records sup volume.now.map.now roots.now image) }
    ensures kept { Kept D.Disk disk.old disk.new (is_disk_halt result) }
{
    for root in roots {
        walk_into(alloc, disk, volume, &named_root(root), into)?;
    }
    Ok(())
}
