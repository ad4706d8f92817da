//! Measures `read_block` beside `crc32c`: makes COUNT blocks of 16384 bytes, leaves of 200 items and nodes of 400
//! pointers in turn, and takes all of them ROUNDS times. The words are `read COUNT ROUNDS` or `sum COUNT ROUNDS`.
//! Prints how many blocks stand before the first bad one, or the xor of the sums.

use image_maker::{ChildPointer, FSID, LeafMaker, NODESIZE, node_block};
use node_reader::{Expect, read_block};
use recon_crc::crc32c;
use std::alloc::Global;
use std::io;
use verdict::{Bytes, Key, NoMemory};

/// The generation of all blocks.
const GENERATION: u64 = 7;

/// Reads `count` blocks so many times, or sums them.
pub fn measure(rt: &HostRuntime, reads: bool, count: u64, rounds: u64) -> io::Result<()> {
    let Ok(blocks) = blocks_of(rt.alloc(), count) else {
        return println!(rt; "no memory");
    };
    if reads {
        let good = good_blocks(&blocks, rounds);
        println!(rt; "{good}")
    } else {
        let sums = xor_of_sums(&blocks, rounds);
        println!(rt; "{sums:08x}")
    }
}

/// `count` blocks, leaves and nodes in turn.
fn blocks_of(alloc: Global, count: u64) -> Result<Vec<Bytes>, NoMemory> {
    let leaf = leaf_of_items(alloc)?;
    let node = node_of_pointers(alloc)?;
    let mut blocks = Vec::new(alloc);
    for index in 0..count {
        let block = if index % 2 == 0 {
            Bytes::of(alloc, leaf.as_slice())?
        } else {
            Bytes::of(alloc, node.as_slice())?
        };
        if blocks.push(block).is_err() {
            return Err(NoMemory);
        }
    }
    Ok(blocks)
}

/// The key of the entry at a place.
fn key_at(place: u64) -> Key {
    Key {
        objectid: place,
        kind: 1,
        offset: 0,
    }
}

/// A leaf of 200 items of 40 bytes.
fn leaf_of_items(alloc: Global) -> Result<Bytes, NoMemory> {
    let mut maker = LeafMaker::new(alloc, NODESIZE, &FSID, 0, 5, GENERATION);
    for place in 0..200 {
        maker.push(key_at(place), &[7; 40])?;
    }
    maker.finish()
}

/// A node of 400 pointers.
fn node_of_pointers(alloc: Global) -> Result<Bytes, NoMemory> {
    let mut pointers = [ChildPointer {
        key: key_at(0),
        address: 0,
        generation: GENERATION,
    }; 400];
    for (place, pointer) in pointers.iter_mut().enumerate() {
        pointer.key = key_at(place as u64);
    }
    node_block(alloc, NODESIZE, &FSID, 0, 5, GENERATION, 1, &pointers)
}

/// Whether a block is a good one of its level.
fn is_good(block: &Bytes) -> bool {
    let bytes = block.as_slice();
    if bytes.len() != 16_384 {
        return false;
    }
    let expect = Expect {
        tree: 5,
        address: 0,
        generation: GENERATION,
        level: bytes[0x64],
        low: None,
        high: None,
        parent: 0,
    };
    read_block(bytes, &FSID, &expect).is_ok()
}

/// How many blocks stand before the first bad one, in the worst of the rounds.
fn good_blocks(blocks: &[Bytes], rounds: u64) -> usize {
    for _ in 0..rounds {
        for (place, block) in blocks.iter().enumerate() {
            if !is_good(block) {
                return place;
            }
        }
    }
    blocks.len()
}

/// The xor of the checksums of the blocks behind their checksum field, over all rounds.
fn xor_of_sums(blocks: &[Bytes], rounds: u64) -> u32 {
    let mut sums = 0;
    for _ in 0..rounds {
        for block in blocks {
            if let Some(summed) = block.as_slice().get(32..) {
                sums ^= crc32c(summed);
            }
        }
    }
    sums
}
