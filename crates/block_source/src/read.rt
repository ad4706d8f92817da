//! The bytes of a tree block: its one or two copies on the disk, with the pending writes over them.

ghost use Rattle.std.specs.Prelude.{◌≡◌, ◌+◌, ◌^◌, ◌<◌, ◌≤◌, length, true, OnOk, IfOk, IfSome};
ghost use Rattle.verdict.specs.Image.{range};
ghost use Rattle.verdict.specs.Trees.{is_node_size};
ghost use Rattle.recon_disk.specs.Keeping.{Kept};
ghost use Rattle.recon_disk.specs.Outside.{counted};
ghost use Rattle.verdict.specs.Chunks.{place};
ghost use Rattle.write_cache.specs.Cache.{overlaid};
ghost use Rattle.node_reader.specs.Stored.{block_in, bytes_at, found_by, least_difference, stored_in};
ghost use Rattle.node_reader.specs.Layout.{level_of};
ghost use Rattle.block_source.specs.Counts.{after_block, after_copies, after_copy, cover};
ghost use Rattle.block_source.specs.Gives.{Gives, is_disk_fault, is_disk_halt};
ghost use Rattle.block_source.specs.Private.{FitsIn, lending};

use crate::Fault;
use crate::halt::Halt;
use chunk_map::ChunkMap;
use node_reader::{Block, Expect, read_block_summed};
use recon_disk::Disk;
use recon_lanes::folded_sum;
use super_reader::Super;
use verdict::{Family, Place, is_multiple};
use write_cache::WriteCache;

/// Where the tree blocks of a file system are read from.
#[derive(Clone, Copy)]
pub struct BlockSource<'a> {
    /// The pending writes, which lie over the disk's bytes.
    pub cache: &'a WriteCache,
    /// The chunks by which logical addresses stand on the disk.
    pub map: &'a ChunkMap,
    /// The superblock.
    pub sup: &'a Super,
    /// The length of the disk in bytes.
    pub end: u64,
}

/// Reads 1 to 65,536 bytes of the disk from the byte `at` on, with the pending writes over them.
#[tactic(auto, using(crate::proofs::Copies::overlays))]
pub fn read_under<D: Disk>(
    disk: &mut D,
    cache: &WriteCache,
    at: u64,
    into: &mut [u8],
) -> Result<(), Fault>
    requires some { 0 < length into.old }
    requires few { length into.old ≤ 65536 }
    requires inside { at + length into.old ≤ D.len disk.old }
    ensures bytes { OnOk result (IfSome (D.bytes disk.old)
        (λ image. into.new ≡ range at (length into.old) (overlaid cache.now 0 image))) }
    ensures reads { D.reads disk.new ≡ counted (D.reads disk.old) }
    ensures kept { Kept D.Disk disk.old disk.new (is_disk_fault result) }
{
    disk.read(at, into)?;
    cache.overlay(at, into);
    Ok(())
}

// Whether the pending writes cover these bytes of the disk.
fn is_covered(cache: &WriteCache, at: u64, len: u64) -> bool
    ensures { result ≡ cover cache.now at len }
{
    cache.covers(at, len)
}

// The bytes of a copy of a block, of a tree block's size: lent where one run of the pending writes has them all, else in the
// buffer. Where the pending writes cover the copy, all its bytes are theirs, and the disk is not read.
#[tactic(auto, using(crate::proofs::Covering::covered_range, crate::proofs::Covering::lent_range))]
fn read_copy<'a, 's: 'a, D: Disk>(
    disk: &mut D,
    source: &BlockSource<'s>,
    at: u64,
    into: &'a mut [u8],
) -> Result<&'a [u8], Halt>
    requires size { is_node_size (length into.old) ≡ true }
    requires inside { at + length into.old ≤ source.now.end }
    requires end { source.now.end ≡ D.len disk.old }
    ensures gives { Gives D.Disk disk.old source.now.cache.now (lending result)
        (λ image. Ok (range at (length into.old) image)) }
    ensures whole { IfOk result (λ bytes. length bytes.now ≡ length into.old) }
    ensures reads { let n = length into.old in
        D.reads disk.new ≡ after_copy source.now.cache.now n at (D.reads disk.old) }
    ensures kept { Kept D.Disk disk.old disk.new (is_disk_halt result) }
{
    let _end = source.end;
    if is_covered(source.cache, at, into.len() as u64) {
        if let Some(lent) = source.cache.lend(at, into.len()) {
            return Ok(lent);
        }
        source.cache.overlay(at, into);
        return Ok(into);
    }
    read_under(disk, source.cache, at, into)?;
    Ok(into)
}

// The least place at which the second of two lists of bytes of one length differs from the first. They are compared in lanes.
#[tactic(auto, using(crate::proofs::SamePlaces::same_difference))]
fn first_difference(first: &[u8], second: &[u8]) -> Option<usize>
    requires { length second.now ≡ length first.now }
    ensures { result ≡ least_difference first.now second.now }
{
    recon_lanes::first_difference(first, second)
}

// The bytes of the first copy of a block, or the finding that it has none, or that a second copy differs from it.
fn read_copies<'a, 's: 'a, D: Disk>(
    disk: &mut D,
    source: &BlockSource<'s>,
    e: &Expect,
    place: Place,
    first: &'a mut [u8],
    second: &mut [u8],
) -> Result<&'a [u8], Halt>
    requires size { is_node_size (length first.old) ≡ true }
    requires same { length second.old ≡ length first.old }
    requires fits { FitsIn (length first.old) source.now.end place }
    requires end { source.now.end ≡ D.len disk.old }
    ensures gives { Gives D.Disk disk.old source.now.cache.now (lending result)
        (λ image. found_by e.now (bytes_at (length first.old) image place)) }
    ensures whole { IfOk result (λ bytes. length bytes.now ≡ length first.old) }
    ensures reads { let n = length first.old in OnOk result (D.reads disk.new ≡
        after_copies source.now.cache.now n place (D.reads disk.old)) }
    ensures kept { Kept D.Disk disk.old disk.new (is_disk_halt result) }
{
    match place {
        Place::Nowhere => Err(Halt::Found(e.finding(Family::N, 1, 0))),
        Place::One(at) => read_copy(disk, source, at, first),
        Place::Two(at, other) => {
            let first = read_copy(disk, source, at, first)?;
            let second = read_copy(disk, source, other, second)?;
            match first_difference(first, second) {
                None => Ok(first),
                Some(place) => Err(Halt::Found(e.finding(Family::N, 2, place as u64))),
            }
        }
    }
}

// The bytes of the block that is expected, or the finding: its address is no multiple of 4096 or has no place (N1), or
// its two copies differ (N2).
#[tactic(auto, using(crate::proofs::Copies::block_steps))]
fn read_bytes<'a, 's: 'a, D: Disk>(
    disk: &mut D,
    source: &BlockSource<'s>,
    e: &Expect,
    first: &'a mut [u8],
    second: &mut [u8],
) -> Result<&'a [u8], Halt>
    requires size { is_node_size (length first.old) ≡ true }
    requires same { length second.old ≡ length first.old }
    requires end { source.now.end ≡ D.len disk.old }
    ensures gives { Gives D.Disk disk.old source.now.cache.now (lending result)
        (λ image. found_by e.now
        (stored_in image source.now.map.now (length first.old) e.now.address)) }
    ensures whole { IfOk result (λ bytes. length bytes.now ≡ length first.old) }
    ensures reads { let n = length first.old in OnOk result (D.reads disk.new ≡
        after_copies source.now.cache.now n
        (place source.now.map.now e.now.address n source.now.end) (D.reads disk.old)) }
    ensures kept { Kept D.Disk disk.old disk.new (is_disk_halt result) }
{
    if !is_multiple(e.address) {
        return Err(Halt::Found(e.finding(Family::N, 1, 0)));
    }
    let place = source.map.place(e.address, first.len() as u64, source.end);
    read_copies(disk, source, e, place, first, second)
}

/// Reads the block that is expected, and lends it: from the pending writes where one run of them has the whole copy, else
/// from the first buffer, of a tree block's size, into which it is read. The second buffer is for its second copy. A
/// finding is that of the copies (N1, N2), else that of the rules of a block. An Ok has read the disk once for each copy
/// that the pending writes do not cover.
#[tactic(auto, unfolding(node_reader::specs::Stored::block_in))]
pub fn read_block<'a, 's: 'a, D: Disk>(
    disk: &mut D,
    source: &BlockSource<'s>,
    e: &Expect,
    first: &'a mut [u8],
    second: &mut [u8],
) -> Result<Block<'a>, Halt>
    requires size { is_node_size source.now.sup.now.nodesize ≡ true }
    requires first { length first.old ≡ source.now.sup.now.nodesize }
    requires second { length second.old ≡ source.now.sup.now.nodesize }
    requires end { source.now.end ≡ D.len disk.old }
    ensures gives { let sup = source.now.sup.now in
        Gives D.Disk disk.old source.now.cache.now result
        (λ image. block_in (stored_in image source.now.map.now sup.nodesize) sup.fsid e.now) }
    ensures level { IfOk result (λ block. level_of block ≡ e.now.level) }
    ensures reads { OnOk result (D.reads disk.new ≡
        after_block source.now e.now.address (D.reads disk.old)) }
    ensures kept { Kept D.Disk disk.old disk.new (is_disk_halt result) }
{
    let bytes = read_bytes(disk, source, e, first, second)?;
    let sum = folded_sum(&bytes[0x20..]);
    let block = read_block_summed(bytes, &source.sup.fsid, e, sum)?;
    Ok(block)
}
