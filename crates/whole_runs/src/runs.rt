//! Whole runs over a disk, a trace and a sink in memory, of which calls fail.

use recon_cli::recon_run;
use recon_disk::{Fail as DiskFail, MemDisk, MemSink, MemSource, Op, Steps};
use std::alloc::Global;
use std::test::Fail;

/// The command lines of a check, of a replay, and of a replay whose lines are JSON.
pub const CHECK: &[&str] = &["check", "image"];

pub const REPLAY: &[&str] = &["replay", "image"];

pub const REPLAY_JSON: &[&str] = &["replay", "--json", "image"];

/// The line of an image of generation 1.
pub const ACCEPTED: &str = "image accepted generation 1\n";

/// The lines of the commit of a new file.
pub const CREATED: &str =
    "image accepted generation 1\ncommit 1 passed generation 2 blocks 6 hot 0\nend passed 1 rejected 0\n";

// The room for the lines of a run, or for the trace of a workload.
const ROOM: usize = 67_108_864;

/// What has a call that fails: a call of the disk, of which a write keeps so many bytes; the source; or the sink, which
/// keeps so many bytes.
#[derive(Clone, Copy, Debug, PartialEq, Eq)]
pub enum Object {
    Disk(Op, u32),
    Source,
    Sink(usize),
}

/// The call of an object with a number from 1 on is to fail.
#[derive(Clone, Copy)]
pub struct Fault {
    pub object: Object,
    pub nth: u64,
}

/// What a run leaves: its status, the disk, and the sink.
#[derive(Drop)]
pub struct Run {
    pub status: u8,
    pub disk: MemDisk,
    pub out: MemSink,
}

// The calls of the disk, of the source and of the sink that are to fail.
fn lists_of(
    alloc: Global,
    faults: &[Fault],
) -> Result<(Vec<DiskFail>, Vec<u64>, Vec<(u64, usize)>), Fail> {
    let (mut disk, mut source, mut sink) = (Vec::new(alloc), Vec::new(alloc), Vec::new(alloc));
    for Fault { object, nth } in faults {
        let nth = *nth;
        match object {
            Object::Disk(op, keep) => disk.push(DiskFail {
                op: *op,
                nth,
                keep: *keep,
            })?,
            Object::Source => source.push(nth)?,
            Object::Sink(keep) => sink.push((nth, *keep))?,
        }
    }
    Ok((disk, source, sink))
}

/// A run of these words over an image and a trace, in which these calls fail.
pub fn run_over(
    alloc: Global,
    words: &[&str],
    image: &[u8],
    trace: &[u8],
    faults: &[Fault],
) -> Result<Run, Fail> {
    let mut owned = Vec::new(alloc);
    for word in words {
        owned.push(String::from_str(alloc, word)?)?;
    }
    let (disk_fails, source_fails, sink_fails) = lists_of(alloc, faults)?;
    let mut disk = MemDisk::new(Vec::from_slice(alloc, image)?, disk_fails);
    let mut source = MemSource::new(Vec::from_slice(alloc, trace)?, 1_048_576, source_fails);
    let mut out = MemSink::new(alloc, ROOM, sink_fails)?;
    let status = recon_run(
        alloc,
        owned.as_slice(),
        &mut disk,
        &mut source,
        &mut out,
        &mut Steps::new(()),
    );
    Ok(Run { status, disk, out })
}

/// Whether a check of an image ends with this status and this line, and leaves the device as it is.
pub fn checks_so(alloc: Global, image: &[u8], status: u8, line: &str) -> Result<bool, Fail> {
    let run = run_over(alloc, CHECK, image, b"", &[])?;
    Ok(run.status == status && run.out.bytes() == line.as_bytes() && run.disk.bytes() == image)
}
