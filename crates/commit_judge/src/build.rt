//! The start of an index.

ghost use Rattle.std.specs.Prelude.{◌≡◌, ◌≤◌, IfOk, IfSome, OnOk};
ghost use Rattle.recon_disk.specs.Keeping.{Kept};
ghost use Rattle.block_source.specs.Gives.{is_disk_fault, is_disk_halt};
ghost use Rattle.commit_judge.specs.Filling.{IsIndexed, LooksToIndex};
ghost use Rattle.commit_judge.specs.Start.{HasRoom, IsBuilt, LooksToBuild};

use crate::filling::tables_of;
use crate::finding::finding_of;
use crate::index::Index;
use crate::roots::ascending;
use block_source::{Fault, Halt, told};
use plain_check::Volume;
use recon_disk::{Disk, Steps};
use std::alloc::Global;
use std::collections::BTreeSet;
use verdict::Finding;
use write_cache::WriteCache;

/// What the start of an index gives.
#[derive(Drop)]
pub enum Built<L> {
    /// The image is accepted, and this is its index.
    Ready(Index<L>),
    /// The full check's finding of the image.
    Refused(Finding),
}

impl<L> Index<L> {
    /// The index of the disk's image, where the full check accepts it, or the full check's finding. The superblock is one read of the disk, and
    /// each block of the trees at most two, one for each of its copies. The disk's bytes stay. The tables take their memory from this
    /// allocator. Where the image is accepted there are no more looks into them than 64 for each unit of the work of a start.
    pub fn build<D: Disk>(
        alloc: Global,
        disk: &mut D,
        steps: &mut Steps<L>,
    ) -> Result<Built<L>, Fault>
        ensures told { IfOk result (λ built. IfSome (D.bytes disk.old)
            (λ image. IsBuilt image (D.reads disk.old) (D.reads disk.new) built)) }
        ensures room { IfOk result (HasRoom (D.len disk.old)) }
        ensures looks { IfOk result (λ built. IfSome (D.bytes disk.old)
            (λ image. LooksToBuild image steps.old steps.new built)) }
        ensures kept { Kept D.Disk disk.old disk.new (is_disk_fault result) }
    {
        let end = disk.length()?;
        Index::build_within(alloc, disk, end, steps)
    }

    /// The same over a disk whose length in bytes is known, so that it is not asked for.
    pub fn build_within<D: Disk>(
        alloc: Global,
        disk: &mut D,
        end: u64,
        steps: &mut Steps<L>,
    ) -> Result<Built<L>, Fault>
        requires { end ≡ D.len disk.old }
        ensures told { IfOk result (λ built. IfSome (D.bytes disk.old)
            (λ image. IsBuilt image (D.reads disk.old) (D.reads disk.new) built)) }
        ensures room { IfOk result (HasRoom (D.len disk.old)) }
        ensures looks { IfOk result (λ built. IfSome (D.bytes disk.old)
            (λ image. LooksToBuild image steps.old steps.new built)) }
        ensures kept { Kept D.Disk disk.old disk.new (is_disk_fault result) }
    {
        match told(index_of(alloc, disk, end, steps))? {
            Ok(index) => Ok(Built::Ready(index)),
            Err(finding) => Ok(Built::Refused(finding)),
        }
    }
}

// The index of the disk's image, where the full check accepts it, or the finding.
fn index_of<D: Disk, L>(
    alloc: Global,
    disk: &mut D,
    end: u64,
    steps: &mut Steps<L>,
) -> Result<Index<L>, Halt>
    requires { end ≡ D.len disk.old }
    ensures told { IfSome (D.bytes disk.old)
        (λ image. IsIndexed image (D.reads disk.old) (D.reads disk.new) result) }
    ensures looks { IfSome (D.bytes disk.old)
        (λ image. LooksToIndex image steps.old steps.new result) }
    ensures room { OnOk result (69632 ≤ D.len disk.old) }
    ensures kept { Kept D.Disk disk.old disk.new (is_disk_halt result) }
{
    let cache = WriteCache::new(alloc);
    let volume = Volume::open(alloc, disk, &cache, end)?;
    let tables = tables_of(alloc, disk, &cache, &volume, steps)?;
    if let Some(found) = finding_of(alloc, &tables, &volume.map, volume.sup.nodesize, steps)? {
        return Err(Halt::Found(found));
    }
    let roots = ascending(alloc, &volume.roots)?;
    Ok(Index {
        raw: volume.raw,
        sup: volume.sup,
        map: volume.map,
        roots,
        sum_free: tables.free,
        full: BTreeSet::new(alloc),
        live: tables.live,
        totals: tables.totals,
        spans: tables.spans,
    })
}
