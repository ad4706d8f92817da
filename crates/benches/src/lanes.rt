//! Measures blocks side by side: of COUNT blocks of 16384 bytes, ROUNDS times, the sums of eight at a time
//! (`eight COUNT ROUNDS`), of one at a time (`single`), or how many of them equal a copy of the first (`equal`). Prints the xor
//! of the sums, or that number.

use recon_crc::crc32c;
use recon_lanes::{Eight, first_difference};
use std::alloc::Global;
use std::io;
use verdict::{Bytes, NoMemory};

/// The bytes of a block.
const SIZE: usize = 16_384;

/// Sums so many blocks, or compares them.
pub fn measure(rt: &HostRuntime, name: &str, count: u64, rounds: u64) -> io::Result<()> {
    let Ok(blocks) = blocks_of(rt.alloc(), count) else {
        return println!(rt; "no memory");
    };
    match name {
        "eight" => {
            let sums = sums_of_eight(&blocks, rounds);
            println!(rt; "{sums:08x}")
        }
        "equal" => {
            let equal = equal_blocks(&blocks, rounds);
            println!(rt; "{equal}")
        }
        _ => {
            let sums = single_sums(&blocks, rounds);
            println!(rt; "{sums:08x}")
        }
    }
}

/// `count` blocks of one content.
fn blocks_of(alloc: Global, count: u64) -> Result<Vec<Bytes>, NoMemory> {
    let mut content = [7; SIZE];
    for (place, byte) in content.iter_mut().enumerate() {
        *byte = (place % 251) as u8;
    }
    let mut blocks = Vec::new(alloc);
    for _ in 0..count {
        if blocks.push(Bytes::of(alloc, &content)?).is_err() {
            return Err(NoMemory);
        }
    }
    Ok(blocks)
}

/// The xor of the sums of all blocks in all rounds, eight at a time and a last part of fewer.
fn sums_of_eight(blocks: &[Bytes], rounds: u64) -> u32 {
    let mut all = 0;
    for _ in 0..rounds {
        for part in blocks.chunks(8) {
            all ^= xor_of_part(part);
        }
    }
    all
}

/// The xor of the sums of up to eight blocks.
fn xor_of_part(part: &[Bytes]) -> u32 {
    let mut eight = Eight::new(SIZE);
    for block in part {
        let bytes = block.as_slice();
        if bytes.len() == SIZE {
            let _ = eight.push(bytes);
        }
    }
    xor_of(&eight)
}

/// The xor of the sums of the blocks that stand.
fn xor_of(eight: &Eight<'_>) -> u32 {
    let mut all = 0;
    for sum in eight.sums().sums {
        all ^= sum;
    }
    all
}

/// The xor of the sums of all blocks in all rounds, one at a time.
fn single_sums(blocks: &[Bytes], rounds: u64) -> u32 {
    let mut all = 0;
    for _ in 0..rounds {
        for block in blocks {
            all ^= crc32c(block.as_slice());
        }
    }
    all
}

/// How many blocks equal the first, in all rounds together.
fn equal_blocks(blocks: &[Bytes], rounds: u64) -> u64 {
    let mut equal = 0_u64;
    let Some(first) = blocks.first() else {
        return 0;
    };
    for _ in 0..rounds {
        for block in blocks {
            let (one, other) = (first.as_slice(), block.as_slice());
            if one.len() == other.len() && first_difference(one, other).is_none() {
                equal = equal.wrapping_add(1);
            }
        }
    }
    equal
}
