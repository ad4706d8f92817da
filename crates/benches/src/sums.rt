//! Measures `crc32c`: sums BYTES bytes ROUNDS times, with the first byte changed each time, and prints
//! the xor of the sums.

use recon_crc::crc32c;
use std::alloc::{AllocError, Global};
use std::io;

/// Sums `bytes` bytes so many times.
pub fn measure(rt: &HostRuntime, bytes: u64, rounds: u64) -> io::Result<()> {
    let mut data = pattern(rt.alloc(), bytes)?;
    let sums = xor_of_sums(&mut data, rounds);
    println!(rt; "{sums:08x}")
}

/// `count` bytes that repeat after 251.
fn pattern(alloc: Global, count: u64) -> Result<Vec<u8>, AllocError> {
    let mut bytes = Vec::new(alloc);
    for index in 0..count {
        bytes.push((index % 251) as u8)?;
    }
    Ok(bytes)
}

/// The xor of the checksums of `data` over `rounds` rounds, in each of which its first byte is the
/// round's number modulo 256.
fn xor_of_sums(data: &mut [u8], rounds: u64) -> u32 {
    let mut sums = 0;
    for round in 0..rounds {
        if let Some(first) = data.first_mut() {
            *first = (round % 256) as u8;
        }
        sums ^= crc32c(data);
    }
    sums
}
