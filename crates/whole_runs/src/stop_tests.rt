//! What a replay leaves on a disk that tells what a stop leaves: each call fails in its turn, and the full check accepts what is left.

use crate::runs::checks_so;
use crate::trace::new_file_trace;
use image_maker::base_image;
use recon_cli::recon_run;
use recon_disk::{Disk, Fail as DiskFail, MemSink, MemSource, Op, Steps, StopDisk};
use std::alloc::Global;
use std::test::Fail;
use trace_maker::make_trace;

// Records of calls, bytes that writes replace, and bytes of lines for which there is room.
const CALLS: usize = 1000;

const REPLACED: usize = 67_108_864;

const LINES: usize = 65_536;

// What a replay leaves: its status, the disk, and the sink.
#[derive(Drop)]
struct Run {
    status: u8,
    disk: StopDisk,
    out: MemSink,
}

// A replay over an image, in which this call of the disk fails.
fn replay_over(alloc: Global, image: &[u8], trace: &[u8], fail: DiskFail) -> Result<Run, Fail> {
    let mut words = Vec::new(alloc);
    for word in ["replay", "image"] {
        words.push(String::from_str(alloc, word)?)?;
    }
    let mut fails = Vec::new(alloc);
    fails.push(fail)?;
    let bytes = Vec::from_slice(alloc, image)?;
    let mut disk = StopDisk::new(alloc, bytes, fails, CALLS, REPLACED)?;
    let mut source = MemSource::new(Vec::from_slice(alloc, trace)?, 1_048_576, Vec::new(alloc));
    let mut out = MemSink::new(alloc, LINES, Vec::new(alloc))?;
    let status = recon_run(
        alloc,
        words.as_slice(),
        &mut disk,
        &mut source,
        &mut out,
        &mut Steps::new(()),
    );
    Ok(Run { status, disk, out })
}

// Whether a check accepts an image of this generation.
fn is_accepted(alloc: Global, image: &[u8], generation: usize) -> Result<bool, Fail> {
    let line = format!(in alloc; "image accepted generation {generation}\n")?;
    checks_so(alloc, image, 0, &line)
}

// How many lines a run's output has, and how many of them are passed commits with no hot block.
fn lines_of(out: &[u8]) -> (usize, usize) {
    let mut lines = 0usize;
    let mut cold = 0usize;
    for line in out.split(|byte| *byte == 10) {
        lines = lines.saturating_add(usize::from(!line.is_empty()));
        cold = cold.saturating_add(usize::from(line.ends_with(b" hot 0".as_slice())));
    }
    (lines, cold)
}

// Whether each run of so many commits with a call of this kind failing, in turn, ends with 4 and leaves an accepted image: that
// of the last commit with a line, or the next one where the call was its last flush. At the end none fails. The answer has how many
// calls failed.
fn all_leave_accepted(
    alloc: Global,
    (image, trace, commits): (&[u8], &[u8], usize),
    op: Op,
    keep: u32,
) -> Result<Option<u64>, Fail> {
    for nth in 1..1000 {
        let run = replay_over(alloc, image, trace, DiskFail { op, nth, keep })?;
        let (lines, cold) = lines_of(run.out.bytes());
        if run.status == 0 {
            return Ok(if cold == commits {
                Some(nth.saturating_sub(1))
            } else {
                None
            });
        }
        let last = usize::from(op == Op::Flush && nth % 2 == 0);
        // A start that fails has no line, and leaves the image as it was.
        let is_one = run.status == 4 && (lines == 0 || lines == cold.saturating_add(1));
        let generation = lines.max(1).saturating_add(last);
        let is_left = is_accepted(alloc, run.disk.bytes(), generation)?;
        if !is_one || run.disk.faults() != 1 || !is_left {
            return Ok(None);
        }
    }
    Ok(None)
}

// A new file is three writes, the third of which is the superblock's, and a flush before it and behind it.
#[test]
fn a_failed_call_in_a_commit_leaves_an_accepted_image(rt: HostRuntime) -> Result<(), Fail> {
    let alloc = rt.alloc();
    let base = base_image(alloc)?;
    let trace = new_file_trace(alloc)?;
    let over = (base.as_slice(), trace.as_slice(), 1);
    assert_eq!(rt; all_leave_accepted(alloc, over, Op::Write, 0)?, Some(3));
    assert_eq!(rt; all_leave_accepted(alloc, over, Op::Write, 2048)?, Some(3));
    assert_eq!(rt; all_leave_accepted(alloc, over, Op::Flush, 0)?, Some(2));
    assert!(rt; all_leave_accepted(alloc, over, Op::Length, 0)? > Some(0));
    assert!(rt; all_leave_accepted(alloc, over, Op::Read, 0)? > Some(6));
    Ok(())
}

#[test]
fn a_failed_call_in_a_workload_leaves_an_accepted_image(rt: HostRuntime) -> Result<(), Fail> {
    let alloc = rt.alloc();
    let base = base_image(alloc)?;
    let mut trace = MemSink::new(alloc, REPLACED, Vec::new(alloc))?;
    make_trace(alloc, 7, 20, &mut trace)?;
    let over = (base.as_slice(), trace.bytes(), 20);
    assert_eq!(rt; all_leave_accepted(alloc, over, Op::Flush, 0)?, Some(40));
    let none = all_leave_accepted(alloc, over, Op::Write, 0)?;
    assert!(rt; none > Some(60));
    assert_eq!(rt; all_leave_accepted(alloc, over, Op::Write, 2048)?, none);
    Ok(())
}

#[test]
fn a_disk_without_room_for_records_fails(rt: HostRuntime) -> Result<(), Fail> {
    let alloc = rt.alloc();
    let bytes = vec![in alloc; 7u8; 16]?;
    let mut disk = StopDisk::new(alloc, bytes, Vec::new(alloc), 2, 6)?;
    assert!(rt; disk.write(3, b"abcd").is_ok());
    assert!(rt; disk.write(9, b"efg").is_err());
    assert!(rt; disk.write(9, b"ef").is_ok());
    assert!(rt; disk.flush().is_err() && disk.faults() == 2);
    assert!(rt; disk.bytes() == b"\x07\x07\x07abcd\x07\x07ef\x07\x07\x07\x07\x07".as_slice());
    Ok(())
}
