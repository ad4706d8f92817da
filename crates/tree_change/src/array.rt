//! The chunks of a new system array, and the new chunk tree that is read by them alone.

ghost use Rattle.std.specs.Prelude.{◌≡◌, ◌+◌, ◌<◌, ◌≤◌, ◌^◌, true, IsErr};
ghost use Rattle.std.specs.List.{AllByRecursion};
ghost use Rattle.verdict.specs.Trees.{is_node_size};
ghost use Rattle.verdict.specs.declared.place.Chunk.{Chunk as AChunk};
ghost use Rattle.recon_disk.specs.Keeping.{Kept};
ghost use Rattle.records.specs.Contents.{chunk_map_in};
ghost use Rattle.block_source.specs.Gives.{Gives, is_disk_halt};
ghost use Rattle.tree_laws.specs.ArrayMoves.{LieApartOrSame};

use block_source::{BlockSource, Chunks, Halt, chunk_root, walk_into};
use chunk_map::ChunkMap;
use recon_disk::Disk;
use std::alloc::Global;
use verdict::Chunk;

/// Whether any two of these chunks lie apart or are the same, and each has bytes at addresses of 64 bits. Each is compared with each: a
/// system array has two dozen at most.
pub(crate) fn lie_apart(map: &ChunkMap) -> bool
    ensures { result ≡ true →
        AllByRecursion (λ c. AllByRecursion (LieApartOrSame c) map.now) map.now
        × AllByRecursion (λ (c : AChunk). (0 < c.length) × (c.start + c.length < 2 ^ 64)) map.now }
{
    map.chunks()
        .iter()
        .all(|chunk| is_sound(chunk) && lies_apart(chunk, map.chunks()))
}

// Whether a chunk has bytes, all at addresses of 64 bits.
fn is_sound(chunk: &Chunk) -> bool
    ensures { result ≡ true →
        (0 < chunk.now.length) × (chunk.now.start + chunk.now.length < 2 ^ 64) }
{
    chunk.length > 0 && chunk.start.checked_add(chunk.length).is_some()
}

// Whether a chunk lies apart from each of these or is the same.
fn lies_apart(chunk: &Chunk, others: &[Chunk]) -> bool
    ensures { result ≡ true → AllByRecursion (LieApartOrSame chunk.now) others.now }
{
    others.iter().all(|other| is_apart(chunk, other))
}

// Whether two chunks lie apart or are the same.
fn is_apart(one: &Chunk, other: &Chunk) -> bool
    ensures { result ≡ true → LieApartOrSame one.now other.now }
{
    one == other || lies_before(one, other) || lies_before(other, one)
}

// Whether a chunk ends where another begins, or before.
fn lies_before(one: &Chunk, other: &Chunk) -> bool
    ensures { result ≡ true → one.now.start + one.now.length ≤ other.now.start }
{
    match one.start.checked_add(one.length) {
        Some(end) => end <= other.start,
        None => false,
    }
}

/// The chunks of the chunk tree, by a walk of the whole of it, where the rules on the chunk map keep.
#[tactic(auto, unfolding(records::specs::Contents::chunk_map_in), using(block_source::proofs::Copies::overlays))]
pub(crate) fn whole_map<D: Disk>(
    alloc: Global,
    disk: &mut D,
    source: &BlockSource<'_>,
) -> Result<ChunkMap, Halt>
    requires size { is_node_size source.now.sup.now.nodesize ≡ true }
    requires end { source.now.end ≡ D.len disk.old }
    ensures gives { let sup = source.now.sup.now in
        Gives D.Disk disk.old source.now.cache.now result
        (λ image. chunk_map_in sup source.now.map.now image) }
    ensures kept { Kept D.Disk disk.old disk.new (is_disk_halt result) }
{
    let mut chunks = Chunks::new(alloc);
    walk_into(alloc, disk, source, &chunk_root(source.sup), &mut chunks)?;
    let map = chunks.map;
    match map.map_fault(source.map, source.sup.devid, source.end) {
        Some(found) => Err(Halt::Found(found)),
        None => Ok(map),
    }
}

/// The finding of a chunk tree that is read by the chunks of a system array of which two overlap. No list of chunks that keeps the rules on
/// the map has them all, so that a walk of the whole tree, and these rules, come to one.
pub(crate) fn refuse_map<D: Disk>(
    alloc: Global,
    disk: &mut D,
    source: &BlockSource<'_>,
) -> Result<ChunkMap, Halt>
    requires size { is_node_size source.now.sup.now.nodesize ≡ true }
    requires end { source.now.end ≡ D.len disk.old }
    ensures none { IsErr result }
    ensures gives { let sup = source.now.sup.now in
        Gives D.Disk disk.old source.now.cache.now result
        (λ image. chunk_map_in sup source.now.map.now image) }
    ensures kept { Kept D.Disk disk.old disk.new (is_disk_halt result) }
{
    whole_map(alloc, disk, source)?;
    Err(Halt::NoMemory)
}
