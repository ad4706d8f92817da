//! Recon for Btrfs: a runtime consistency checker between a Btrfs file system and its disk.
#![tactic(auto)]

mod why;

use recon_cli::recon_run;
use recon_disk::Steps;
use recon_host::{FileDisk, HeldStreams, Sharing, StdSink, StdSource};
use std::env;
use std::io::{self, ErrorKind};
use std::process::ExitCode;
use std::random::RandomSource;
use std::rt::Env;
use why::{Opened, Why};

// The arguments behind the program's name.
fn arguments<R: Env + AllocGlobal>(rt: &R) -> io::Result<Vec<String>> {
    let mut arguments = Vec::new(rt.alloc());
    for argument in env::args(rt)?.skip(1) {
        arguments.push(argument)?;
    }
    Ok(arguments)
}

// Says on standard error why a run ended, and answers its status. Where the line cannot be written, nothing
// else changes.
fn stop(rt: &impl Eprint, why: Why) -> u8 {
    let _ = eprintln!(rt; "recon: {why}");
    why.status()
}

// How IMAGE is shared while this command line is carried out: what writes to it has it alone.
fn sharing(arguments: &[String]) -> Sharing {
    match arguments.first() {
        Some(command) if command.as_str() == "replay" || command.as_str() == "make" =>
            Sharing::Exclusive,
        _ => Sharing::Shared,
    }
}

// What the hashes of an index begin with: 16 bytes that the system draws, or zeros where it gives none.
fn seed(rt: &HostRuntime) -> [u8; 16] {
    let mut seed = [0; 16];
    match rt.fill_bytes(&mut seed) {
        Ok(()) => seed,
        Err(_) => [0; 16],
    }
}

// The length in bytes of one request for memory, so that the system's allocator keeps twice as much of what is freed.
const KEPT: usize = 1 << 20;

// Has the system's allocator keep memory that is freed for the next request. The one of glibc gives the free end of its heap back as
// soon as it is longer than twice the longest request that was mapped apart and freed before, at first 128 KiB: so a commit would take its
// memory from the system anew, page by page. No page of this request is touched, and where it is refused nothing changes.
fn keep_freed<R: AllocGlobal>(rt: &R) {
    let _ = Vec::<u8>::with_capacity(rt.alloc(), KEPT);
}

// Does what the command line asks for, over its last argument as IMAGE and the standard streams, and answers the
// status.
fn run(rt: &HostRuntime, arguments: &[String]) -> u8 {
    let image = match arguments.last() {
        Some(argument) => argument.as_str(),
        None => "",
    };
    keep_freed(rt);
    let mut disk = FileDisk::at_path(rt, image, sharing(arguments));
    let mut trace = StdSource::new(rt.stdin());
    let mut out = StdSink::new(rt.stdout());
    let status = recon_run(
        rt.alloc(),
        arguments,
        &mut disk,
        &mut trace,
        &mut out,
        &mut Steps::seeded((), seed(rt)),
    );
    let opened = if disk.is_open() {
        Opened::Yes
    } else if disk.is_in_use() {
        Opened::InUse
    } else {
        Opened::No
    };
    if let Some(why) = Why::of(status, arguments, image, opened) {
        stop(rt, why);
    }
    status
}

fn main(rt: HostRuntime) -> ExitCode {
    // Held to the end, so that IMAGE takes the place of no standard stream.
    let Ok(_streams) = HeldStreams::take(&rt) else {
        return ExitCode::from(stop(&rt, Why::NoFull));
    };
    let status = match arguments(&rt) {
        Ok(given) => run(&rt, &given),
        Err(error) if error.kind() == ErrorKind::OutOfMemory => stop(&rt, Why::Memory),
        Err(_) => stop(&rt, Why::NoArguments),
    };
    ExitCode::from(status)
}
