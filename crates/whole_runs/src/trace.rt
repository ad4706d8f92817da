//! Traces over the base image, and what they leave of it.

use crate::bytes::put;
use image_maker::{base_superblock, create_writes, with_checksum};
use std::alloc::{AllocError, Global};
use std::test::Fail;
use verdict::Event;

/// The header of a trace.
pub fn header(alloc: Global) -> Result<Vec<u8>, AllocError> {
    Vec::from_slice(alloc, b"RECONTRC\x01\0\0\0\0\0\0\0")
}

/// The trace with no record but its end.
pub fn empty_trace(alloc: Global) -> Result<Vec<u8>, AllocError> {
    let mut trace = header(alloc)?;
    trace.push(255)?;
    Ok(trace)
}

/// The trace of a commit of generation 2 that makes the empty file `hello`, by copies.
pub fn new_file_trace(alloc: Global) -> Result<Vec<u8>, Fail> {
    let mut trace = header(alloc)?;
    put_new_file(alloc, &mut trace)?;
    trace.push(255)?;
    Ok(trace)
}

/// An image with the writes of that commit over it.
pub fn with_new_file(alloc: Global, image: &[u8]) -> Result<Vec<u8>, Fail> {
    let mut new = Vec::from_slice(alloc, image)?;
    for event in &create_writes(alloc)? {
        if let Event::Write { at, bytes, .. } = event {
            put(&mut new, *at as usize, bytes.as_slice());
        }
    }
    Ok(new)
}

/// Appends the record of a write.
pub fn put_write(trace: &mut Vec<u8>, at: u64, bytes: &[u8]) -> Result<(), AllocError> {
    trace.extend_from_slice(&[1, 0, 0])?;
    trace.extend_from_slice(&at.to_le_bytes())?;
    trace.extend_from_slice(&(bytes.len() as u64).to_le_bytes()[..4])?;
    trace.extend_from_slice(bytes)
}

/// Appends the record of a fetch.
pub fn put_fetch(trace: &mut Vec<u8>, at: u64, len: u32) -> Result<(), AllocError> {
    trace.push(3)?;
    trace.extend_from_slice(&at.to_le_bytes())?;
    trace.extend_from_slice(&len.to_le_bytes())
}

/// Appends the records of the commit that makes the file: the blocks, the superblock last.
pub fn put_new_file(alloc: Global, trace: &mut Vec<u8>) -> Result<(), Fail> {
    for event in &create_writes(alloc)? {
        if let Event::Write { at, bytes, .. } = event {
            put_write(trace, *at, bytes.as_slice())?;
        }
    }
    Ok(())
}

/// Appends the record of the superblock of the base image, which says fewer used bytes than there are.
pub fn put_less_used(trace: &mut Vec<u8>) -> Result<(), AllocError> {
    let mut superblock = base_superblock();
    put(&mut superblock, 0x78, &94_208u64.to_le_bytes());
    with_checksum(&mut superblock);
    put_write(trace, 65_536, &superblock)
}
