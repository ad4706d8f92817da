//! Prints what changes from one image of a file system to another, as the difference of images finds it.
#![tactic(auto)]

mod known;
mod lines;
mod seen;
mod why;

use known::{Known, known_of, superblock_of};
use live_index::LiveIndex;
use recon_disk::{Disk, MemDisk, Steps};
use std::alloc::Global;
use std::io::{self, BufWriter};
use std::process::ExitCode;
use std::rt::Env;
use std::{env, fs};
use super_reader::Super;
use tree_change::{Diff, difference};
use why::Why;
use write_cache::WriteCache;

/// The bytes of a sector. Writes take whole sectors.
const SECTOR: usize = 512;

// The arguments behind the program's name.
fn arguments<R: Env + AllocGlobal>(rt: &R) -> io::Result<Vec<String>> {
    let mut arguments = Vec::new(rt.alloc());
    for argument in env::args(rt)?.skip(1) {
        arguments.push(argument)?;
    }
    Ok(arguments)
}

// The sectors of a new image that an old one of the same length has otherwise, as pending writes.
fn writes_between(alloc: Global, old: &[u8], new: &[u8]) -> Result<WriteCache, Why> {
    let mut cache = WriteCache::new(alloc);
    if old.len() != new.len() {
        return Err(Why::Lengths);
    }
    let mut from = 0;
    while from < new.len() {
        let to = from + SECTOR.min(new.len() - from);
        if old[from..to] != new[from..to] {
            cache.put(from as u64, &new[from..to])?;
        }
        from = to;
    }
    Ok(cache)
}

// What changes, as it is found once.
fn found(
    alloc: Global,
    disk: &mut MemDisk,
    cache: &WriteCache,
    known: &Known,
    fresh: &Super,
    steps: &mut Steps<()>,
) -> Result<Diff, Why> {
    let Ok(end) = disk.length() else {
        return Err(Why::Disk);
    };
    Ok(difference::<MemDisk, (), Known>(alloc, disk, cache, end, known, fresh, steps)?)
}

// What changes from the image in one file to that in another, with the number of reads. It is found so many times over, for who wants to
// know how long that takes.
fn compared(rt: &HostRuntime, old: &str, new: &str, times: u32) -> Result<(Diff, u64), Why> {
    let alloc = rt.alloc();
    let old = fs::read(rt, old)?;
    let new = fs::read(rt, new)?;
    let cache = writes_between(alloc, &old, &new)?;
    let fresh = superblock_of(&new)?;
    let sup = superblock_of(&old)?;
    let mut disk = MemDisk::new(old, Vec::new(alloc));
    let mut steps = Steps::new(());
    let known = known_of(alloc, &mut disk, sup, &mut steps)?;
    let before = disk.reads();
    let diff = found(alloc, &mut disk, &cache, &known, &fresh, &mut steps)?;
    let reads = disk.reads().saturating_sub(before);
    for _ in 1..times {
        found(alloc, &mut disk, &cache, &known, &fresh, &mut steps)?;
    }
    Ok((diff, reads))
}

// Prints what changes.
fn print(rt: &HostRuntime, old: &str, new: &str, times: u32) -> Result<(), Why> {
    let (diff, reads) = compared(rt, old, new, times)?;
    let mut out = BufWriter::new(rt.alloc(), io::writer(rt))?;
    lines::put(&mut out, &diff, reads)?;
    Ok(())
}

fn main(rt: HostRuntime) -> ExitCode {
    let Ok(given) = arguments(&rt) else {
        return ExitCode::from(1);
    };
    let done = match given.as_slice() {
        [] => {
            let _ = println!(&rt; "usage: changes OLD NEW [TIMES]");
            Ok(())
        }
        [old, new] => print(&rt, old.as_str(), new.as_str(), 1),
        [old, new, times] => match times.as_str().parse::<u32>() {
            Ok(times) => print(&rt, old.as_str(), new.as_str(), times),
            Err(_) => Err(Why::Arguments),
        },
        _ => Err(Why::Arguments),
    };
    match done {
        Ok(()) => ExitCode::from(0),
        Err(why) => {
            let _ = eprintln!(&rt; "changes: {why}");
            ExitCode::from(1)
        }
    }
}
