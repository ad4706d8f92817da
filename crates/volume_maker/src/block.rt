//! A tree block of the metadata chunk, and how it is made.

ghost use Rattle.std.specs.Prelude.{◌≡◌, IfOk, length};

use crate::space::{NODESIZE, block_address};
use image_maker::{ChildPointer, FSID, LeafItem, LeafMaker, node_block};
use std::alloc::Global;
use verdict::{Bytes, Key, NoMemory};

/// How many blocks a node points to.
const FANOUT: usize = 493;

/// Where a block's contents begin, behind its address and its generation.
const CONTENTS: usize = 0x58;

/// A tree block of the metadata chunk, as the extent tree lists it.
#[derive(Clone, Copy, Debug, PartialEq, Eq)]
pub struct BlockAt {
    /// Its place in the chunk, counted in blocks.
    pub number: u16,
    /// Its tree.
    pub tree: u64,
    /// Its level.
    pub level: u8,
    /// The generation that wrote it.
    pub generation: u64,
}

/// A tree block of the metadata chunk, with its bytes.
#[derive(Drop)]
pub struct Block {
    /// Where it stands, and what it is.
    pub at: BlockAt,
    /// The first key, the greatest one in an empty leaf.
    pub first: Key,
    /// The bytes.
    pub bytes: Bytes,
    ghost whole: { length bytes ≡ 16384 },
}

/// A leaf with these items.
pub fn new_leaf(alloc: Global, at: BlockAt, items: &[LeafItem]) -> Result<Block, NoMemory>
    ensures { IfOk result (λ leaf. leaf.at ≡ at) }
{
    let address = block_address(at.number);
    let mut leaf = LeafMaker::new(alloc, NODESIZE, &FSID, address, at.tree, at.generation);
    for item in items {
        if !leaf.push(item.key, item.bytes.as_slice())? {
            return Err(NoMemory);
        }
    }
    let first = match items {
        [] => Key {
            objectid: u64::MAX,
            kind: u8::MAX,
            offset: u64::MAX,
        },
        [item, ..] => item.key,
    };
    let bytes = leaf.finish()?;
    Ok(Block { at, first, bytes })
}

/// A node over these leaves.
pub fn new_node(alloc: Global, at: BlockAt, leaves: &[Block]) -> Result<Block, NoMemory>
    ensures { IfOk result (λ node. node.at ≡ at) }
{
    let mut pointers = Vec::new(alloc);
    for leaf in leaves {
        let pointer = ChildPointer {
            key: leaf.first,
            address: block_address(leaf.at.number),
            generation: leaf.at.generation,
        };
        pointers.push(pointer)?;
    }
    let (Some(leaf), true) = (leaves.first(), pointers.len() <= FANOUT) else {
        return Err(NoMemory);
    };
    let address = block_address(at.number);
    let bytes = node_block(
        alloc,
        NODESIZE,
        &FSID,
        address,
        at.tree,
        at.generation,
        1,
        &pointers,
    )?;
    Ok(Block {
        at,
        first: leaf.first,
        bytes,
    })
}

impl Block {
    /// Whether another block has the same items or pointers.
    pub fn is_like(&self, other: &Block) -> bool {
        self.bytes.as_slice()[CONTENTS..] == other.bytes.as_slice()[CONTENTS..]
    }

    /// A copy.
    pub fn copy(&self, alloc: Global) -> Result<Block, NoMemory>
        ensures { IfOk result (λ copy. copy.at ≡ self.now.at) }
    {
        Ok(Block {
            at: self.at,
            first: self.first,
            bytes: Bytes::of(alloc, self.bytes.as_slice())?,
        })
    }
}
