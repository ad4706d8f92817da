//! Where the walks of an image begin: the chunks of its system array, the roots of its chunk tree and its root tree.

ghost use Rattle.std.specs.Prelude.{◌≡◌, ◌≤◌, []};
ghost use Rattle.verdict.specs.declared.place.Chunk.{Chunk as AChunk};
ghost use Rattle.super_reader.specs.Superblock.{array_place};
ghost use Rattle.volume_items.specs.SystemArray.{array_chunks};
ghost use Rattle.records.specs.Contents.{chunk_tree_root, root_tree_root};
ghost use Rattle.records.specs.Takes.{with_chunk};
ghost use Rattle.block_source.specs.Gives.{IsOutcome};

use crate::halt::Halt;
use chunk_map::{ChunkMap, Sys};
use node_reader::Expect;
use records::{Rec, RecAt, Record, Taker};
use std::alloc::Global;
use super_reader::Super;
use verdict::NoMemory;
use verdict::trees::{CHUNK_TREE, ROOT_TREE};

/// The chunks of the system array of a superblock, or the finding of its first pair that breaks a rule. They take their memory from this
/// allocator.
pub fn system_chunks(alloc: Global, sup: &Super) -> Result<ChunkMap, Halt>
    requires { sup.now.array_size ≤ 2048 }
    ensures { IsOutcome result
        (array_chunks (array_place sup.now) sup.now.array sup.now.array_size) }
{
    match ChunkMap::from_sys(alloc, sup)? {
        Sys::Map(map) => Ok(map),
        Sys::Found(finding) => Err(Halt::Found(finding)),
    }
}

/// What is expected of the root of the chunk tree.
pub fn chunk_root(sup: &Super) -> Expect
    ensures { result ≡ chunk_tree_root sup.now }
{
    Expect {
        tree: CHUNK_TREE,
        address: sup.chunk_root,
        generation: sup.chunk_root_generation,
        level: sup.chunk_root_level,
        low: None,
        high: None,
        parent: 0,
    }
}

/// What is expected of the root of the root tree.
pub fn top_root(sup: &Super) -> Expect
    ensures { result ≡ root_tree_root sup.now }
{
    Expect {
        tree: ROOT_TREE,
        address: sup.root,
        generation: sup.generation,
        level: sup.root_level,
        low: None,
        high: None,
        parent: 0,
    }
}

/// A taker of the chunks of chunk items, in their order.
#[derive(Debug, Drop)]
pub struct Chunks {
    /// The list of the chunks.
    pub map: ChunkMap,
}

impl Chunks {
    /// None yet. They take their memory from this allocator.
    pub fn new(alloc: Global) -> Chunks
        ensures { result.map ≡ [] }
    {
        Chunks {
            map: ChunkMap::new(alloc),
        }
    }
}

impl Taker for Chunks {
    ghost use Rattle.std.specs.Prelude.{List};

    ghost Held = { List AChunk };

    ghost held = { λ chunks. chunks.map };

    ghost with = { with_chunk };

    fn take(&mut self, one: &Record<'_>) -> Result<(), NoMemory> {
        match one {
            Record::Item(
                RecAt {
                    part: Rec::ChunkItem(item),
                    ..
                },
            ) => self.map.add(&item.chunk()),
            _ => Ok(()),
        }
    }
}
