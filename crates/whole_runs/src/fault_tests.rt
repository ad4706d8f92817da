//! What stands after a failed call: each call of the disk, of the trace and of the sink fails in its turn.

use crate::bytes::{is_in_part, part, superblock_in};
use crate::runs::{
    ACCEPTED, CHECK, CREATED, Fault, Object, REPLAY, REPLAY_JSON, Run, checks_so, run_over,
};
use crate::trace::{
    empty_trace, header, new_file_trace, put_fetch, put_less_used, put_new_file, put_write,
    with_new_file,
};
use image_maker::{BASE_LENGTH, base_image};
use recon_disk::{MemSink, Op};
use std::alloc::Global;
use std::test::Fail;
use trace_maker::make_trace;

// A run in which no call fails: its words, its image, its trace, its status, what goes out and the image that it
// leaves; how many bytes are out at least once that image is left; and whether it is a make.
#[derive(Clone, Copy)]
struct Whole<'a> {
    words: &'a [&'a str],
    old: &'a [u8],
    trace: &'a [u8],
    status: u8,
    out: &'a [u8],
    new: &'a [u8],
    after: usize,
    makes: bool,
}

// Whether what is out is what the failed call of this object may leave: a front of all, of whole lines where the sink
// did not fail; and nothing where a make's disk failed.
fn may_be_out(whole: &Whole, object: Object, out: &[u8]) -> bool {
    let are_lines = out.is_empty() || out.ends_with(b"\n".as_slice());
    let may_end_so = match object {
        Object::Disk(..) if whole.makes => out.is_empty(),
        Object::Disk(..) | Object::Source => are_lines,
        Object::Sink(_) => true,
    };
    may_end_so && whole.out.starts_with(out)
}

// Whether a device may be left so: as it was, or as the whole run leaves it, which it is once the line of that is out.
// Where a call of the disk failed, its bytes may be new in part; those of the superblock place may be only in a make.
fn may_be_left(whole: &Whole, object: Object, run: &Run) -> bool {
    let left = run.disk.bytes();
    let is_new = left == whole.new;
    let is_out = run.out.bytes().len() >= whole.after;
    match object {
        Object::Source => is_new == is_out && (is_new || left == whole.old),
        Object::Sink(_) => is_new || !is_out && left == whole.old,
        Object::Disk(..) => {
            let is_whole = superblock_in(left) == superblock_in(whole.old);
            is_new || !is_out && (is_whole || whole.makes) && is_in_part(left, whole.old, whole.new)
        }
    }
}

// The status of a run in which a call of this object failed.
fn status_of(object: Object) -> u8 {
    match object {
        Object::Disk(..) => 4,
        Object::Source => 5,
        Object::Sink(_) => 6,
    }
}

// Whether each run with a call of this object failing, in turn, ends as it may, until none fails.
fn end_as_they_may(alloc: Global, whole: &Whole, object: Object) -> Result<bool, Fail> {
    for nth in 1..1000 {
        let fault = Fault { object, nth };
        let run = run_over(alloc, whole.words, whole.old, whole.trace, &[fault])?;
        let out = run.out.bytes();
        if run.status == whole.status {
            return Ok(nth > 1 && out == whole.out && run.disk.bytes() == whole.new);
        }
        let may_end_so = run.status == status_of(object) && may_be_out(whole, object, out);
        if !may_end_so || !may_be_left(whole, object, &run) {
            return Ok(false);
        }
    }
    Ok(false)
}

// The first of these objects of which a run with a failed call does not end as it may.
fn wrong_object(alloc: Global, whole: &Whole, rows: &[Object]) -> Result<Option<Object>, Fail> {
    for object in rows {
        if !end_as_they_may(alloc, whole, *object)? {
            return Ok(Some(*object));
        }
    }
    Ok(None)
}

// A pending write, a superblock that says less, and a new file, with a fetch on each side of the first superblock: what
// is rejected takes the pending write with it. The run without a failed call has all these lines, as text and as JSON.
fn steps(alloc: Global) -> Result<Vec<u8>, Fail> {
    let mut trace = header(alloc)?;
    put_write(&mut trace, 30_408_704, b"ABCD")?;
    put_fetch(&mut trace, 30_408_704, 4)?;
    put_less_used(&mut trace)?;
    put_fetch(&mut trace, 30_408_704, 4)?;
    put_new_file(alloc, &mut trace)?;
    trace.push(255)?;
    Ok(trace)
}

const LINES: &str = "image accepted generation 1
fetch 30408704 4 41424344
commit 1 rejected A16 tree 0 block 0 key 0 0 0 detail 0
fetch 30408704 4 00000000
commit 2 passed generation 2 blocks 6 hot 0
end passed 1 rejected 1
";

const LAST_LINE: &str = "end passed 1 rejected 1\n";

const JSON: &str = r#"{"event":"image","generation":1,"result":"accepted"}
{"at":30408704,"bytes":"41424344","event":"fetch","len":4}
{"event":"commit","finding":{"block":0,"detail":0,"key":[0,0,0],"rule":"A16","tree":0},"number":1,"result":"rejected"}
{"at":30408704,"bytes":"00000000","event":"fetch","len":4}
{"blocks":6,"event":"commit","generation":2,"hot":0,"number":2,"result":"passed"}
{"event":"end","passed":1,"rejected":1}
"#;

const LAST_JSON: &str = "{\"event\":\"end\",\"passed\":1,\"rejected\":1}\n";

const IN_A_REPLAY: &[Object] = &[
    Object::Disk(Op::Length, 0),
    Object::Disk(Op::Write, 0),
    Object::Disk(Op::Write, 20_000),
    Object::Disk(Op::Flush, 0),
    Object::Source,
    Object::Sink(0),
    Object::Sink(9),
];

const READS: &[Object] = &[Object::Disk(Op::Read, 0)];

// Whether the replays with a failed call of these objects end as they may, with text or with JSON.
fn wrong_in_a_replay(
    alloc: Global,
    (words, lines, last): (&[&str], &str, &str),
    rows: &[Object],
) -> Result<Option<Object>, Fail> {
    let base = base_image(alloc)?;
    let new = with_new_file(alloc, base.as_slice())?;
    let trace = steps(alloc)?;
    let whole = Whole {
        words,
        old: base.as_slice(),
        trace: &trace,
        status: 1,
        out: lines.as_bytes(),
        new: &new,
        after: lines.len().saturating_sub(last.len()),
        makes: false,
    };
    wrong_object(alloc, &whole, rows)
}

#[test]
fn a_failed_write_or_line_leaves_what_was_through(rt: HostRuntime) -> Result<(), Fail> {
    let alloc = rt.alloc();
    let text = (REPLAY, LINES, LAST_LINE);
    assert_eq!(rt; wrong_in_a_replay(alloc, text, IN_A_REPLAY)?, None);
    let json = (REPLAY_JSON, JSON, LAST_JSON);
    assert_eq!(rt; wrong_in_a_replay(alloc, json, &[Object::Sink(3)])?, None);
    Ok(())
}

#[test]
fn a_failed_read_leaves_what_was_through(rt: HostRuntime) -> Result<(), Fail> {
    let text = (REPLAY, LINES, LAST_LINE);
    assert_eq!(rt; wrong_in_a_replay(rt.alloc(), text, READS)?, None);
    Ok(())
}

#[test]
fn a_failed_call_ends_a_check(rt: HostRuntime) -> Result<(), Fail> {
    let alloc = rt.alloc();
    let base = base_image(alloc)?;
    let whole = Whole {
        words: CHECK,
        old: base.as_slice(),
        trace: b"",
        status: 0,
        out: ACCEPTED.as_bytes(),
        new: base.as_slice(),
        after: 0,
        makes: false,
    };
    let rows = [
        Object::Disk(Op::Length, 0),
        Object::Disk(Op::Read, 0),
        Object::Sink(3),
    ];
    assert_eq!(rt; wrong_object(alloc, &whole, &rows)?, None);
    Ok(())
}

// Whether makes with a failed call of these objects end as they may, over a device that is longer than the base image.
// The device holds the base image once this many bytes of the trace are out.
fn wrong_in_a_make(alloc: Global, after: usize, rows: &[Object]) -> Result<Option<Object>, Fail> {
    let behind = [0x3cu8; 700];
    let mut old = vec![in alloc; 0xa5u8; BASE_LENGTH]?;
    old.extend_from_slice(&behind)?;
    let mut new = Vec::from_slice(alloc, base_image(alloc)?.as_slice())?;
    new.extend_from_slice(&behind)?;
    let mut trace = MemSink::new(alloc, 1_048_576, Vec::new(alloc))?;
    make_trace(alloc, 7, 3, &mut trace)?;
    let whole = Whole {
        words: &["make", "7", "3", "image"],
        old: &old,
        trace: b"",
        status: 0,
        out: trace.bytes(),
        new: &new,
        after,
        makes: true,
    };
    wrong_object(alloc, &whole, rows)
}

#[test]
fn a_make_leaves_a_front_of_its_trace_or_none(rt: HostRuntime) -> Result<(), Fail> {
    let alloc = rt.alloc();
    let sinks = [Object::Sink(0), Object::Sink(3)];
    assert_eq!(rt; wrong_in_a_make(alloc, 0, &sinks)?, None);
    let disks = [
        Object::Disk(Op::Length, 0),
        Object::Disk(Op::Write, 0),
        Object::Disk(Op::Write, 3),
        Object::Disk(Op::Flush, 0),
    ];
    assert_eq!(rt; wrong_in_a_make(alloc, 1, &disks)?, None);
    Ok(())
}

// The three writes of a new file: where each begins, and how many bytes it has.
const PIECES: [(u64, usize); 3] = [(5_324_800, 49_152), (13_713_408, 49_152), (65_536, 4096)];

// How many of the three writes stand on the device, one after the other, where none stands in part.
fn pieces_on(device: &[u8], old: &[u8], new: &[u8]) -> Option<u8> {
    let mut all = true;
    let mut count = 0u8;
    for (at, len) in PIECES {
        let piece = part(device, at, len);
        let stands = piece == part(new, at, len);
        if !stands && piece != part(old, at, len) || stands && !all {
            return None;
        }
        all = stands;
        count = count.saturating_add(u8::from(stands));
    }
    Some(count)
}

const NEXT: &str = "image accepted generation 2\n";

// A new file's blocks are two pieces, and the third write is the superblock's. Each row has the write that fails,
// how much of it is kept, the status, how many writes stand on the device then, and what a check says of it.
const WRITES: &[(u64, u32, u8, u8, &str)] = &[
    (1, 0, 4, 0, ACCEPTED),
    (1, 49_152, 4, 1, ACCEPTED),
    (2, 0, 4, 1, ACCEPTED),
    (2, 49_152, 4, 2, ACCEPTED),
    (3, 0, 4, 2, ACCEPTED),
    (3, 4096, 4, 3, NEXT),
    (4, 0, 0, 3, NEXT),
];

// Whether a run ends as one of these rows says.
fn ends_so(
    alloc: Global,
    run: &Run,
    (old, new): (&[u8], &[u8]),
    (_, _, status, pieces, line): (u64, u32, u8, u8, &str),
) -> Result<bool, Fail> {
    let lines = if status == 0 { CREATED } else { ACCEPTED };
    let left = run.disk.bytes();
    Ok(
        run.status == status
            && run.out.bytes() == lines.as_bytes()
            && pieces_on(left, old, new) == Some(pieces)
            && checks_so(alloc, left, 0, line)?,
    )
}

#[test]
fn a_new_file_is_three_writes(rt: HostRuntime) -> Result<(), Fail> {
    let alloc = rt.alloc();
    let base = base_image(alloc)?;
    let base = base.as_slice();
    let new = with_new_file(alloc, base)?;
    let trace = new_file_trace(alloc)?;
    for row in WRITES.iter().copied() {
        let (nth, keep, ..) = row;
        let object = Object::Disk(Op::Write, keep);
        let run = run_over(alloc, REPLAY, base, &trace, &[Fault { object, nth }])?;
        assert!(rt; ends_so(alloc, &run, (base, &new), row)?, "{nth} {keep}");
    }
    Ok(())
}

// The image's line is there before a record is read, and what a failed write of it kept stays. The second line has a
// write of its own.
const EARLY: &[(Object, u64, u8, &str)] = &[
    (Object::Source, 2, 5, ACCEPTED),
    (Object::Sink(5), 1, 6, "image"),
    (Object::Sink(3), 2, 6, "image accepted generation 1\nend"),
];

#[test]
fn a_run_that_ends_early_keeps_its_lines(rt: HostRuntime) -> Result<(), Fail> {
    let alloc = rt.alloc();
    let base = base_image(alloc)?;
    let trace = empty_trace(alloc)?;
    for (object, nth, status, lines) in EARLY.iter().copied() {
        let fault = Fault { object, nth };
        let run = run_over(alloc, REPLAY, base.as_slice(), &trace, &[fault])?;
        assert!(rt; run.status == status && run.out.bytes() == lines.as_bytes());
    }
    Ok(())
}
