//! The checker over a disk in memory that holds the base image: what it answers at a failed call of the disk, and what
//! stands on the disk then.

ghost use Rattle.std.specs.Prelude.{◌≡◌, IfSome};
ghost use Rattle.std.specs.FinMap as map;
ghost use Rattle.verdict.specs.Events.{IsSized};
ghost use Rattle.recon_core.specs.Standing.{IsBelow};

use crate::bytes::{is_in_part, put, superblock_in};
use image_maker::{base_image, base_superblock, with_checksum};
use recon_core::{Checker, Started};
use recon_disk::{Disk, Fail as DiskFail, MemDisk, Op, Steps};
use std::alloc::Global;
use std::test::Fail;
use verdict::{Answer, Bytes, Event, Stop};

/// 4,096 sevens and the superblock with a label: a write that begins that far before the superblock place.
pub fn early() -> [u8; 8192] {
    let mut superblock = base_superblock();
    put(&mut superblock, 0x12b, b"label");
    with_checksum(&mut superblock);
    let mut bytes = [7u8; 8192];
    put(&mut bytes, 4096, &superblock);
    bytes
}

/// What the checker says to an event.
#[derive(Clone, Copy, Debug, PartialEq, Eq)]
pub enum Said {
    Held,
    Passed,
    Other,
    Stopped(Stop),
}

// A write, where it has a size that a write may have; else a settle.
fn event_of(alloc: Global, at: u64, bytes: &[u8]) -> Option<Event>
    ensures { IfSome result IsSized }
{
    if bytes.is_empty() || bytes.len() > 1_048_576 {
        return Some(Event::Settle);
    }
    let Ok(bytes) = Bytes::of(alloc, bytes) else {
        return None;
    };
    Some(Event::Write {
        submitter: 3,
        at,
        bytes,
    })
}

/// What the checker says to a write, or to a settle where there are no bytes.
pub fn take<D: Disk>(
    alloc: Global,
    checker: &mut Checker<u8>,
    disk: &mut D,
    at: u64,
    bytes: &[u8],
) -> Said
    requires length { checker.old.length ≡ D.len disk.old }
    requires below { IsBelow checker.old.length checker.old.cache }
    ensures length { checker.new.length ≡ D.len disk.new }
    ensures below { IsBelow checker.new.length checker.new.cache }
{
    let Some(event) = event_of(alloc, at, bytes) else {
        return Said::Other;
    };
    match checker.event(alloc, disk, event, &mut Steps::new(0u8)) {
        Ok(Answer::Held) => Said::Held,
        Ok(Answer::Passed { .. }) => Said::Passed,
        Ok(_) => Said::Other,
        Err(stop) => Said::Stopped(stop),
    }
}

// What a checker in which nothing is pending says to a write, to a write that meets the superblock, and to a settle.
fn follow<D: Disk>(alloc: Global, checker: &mut Checker<u8>, disk: &mut D) -> [Said; 3]
    requires length { checker.old.length ≡ D.len disk.old }
    requires empty { checker.old.cache ≡ map.empty }
{
    let first = take(alloc, checker, disk, 8192, b"held");
    let second = take(alloc, checker, disk, 61_440, &early());
    let third = take(alloc, checker, disk, 0, b"");
    [first, second, third]
}

// What a checker that starts over the disk says to them, or the stop of the start.
fn play<D: Disk>(alloc: Global, disk: &mut D) -> [Said; 3] {
    match Checker::start(alloc, disk, &mut Steps::new(0u8)) {
        Ok(Started::Ready(checker)) => {
            let mut checker = checker;
            follow(alloc, &mut checker, disk)
        }
        Ok(Started::Refused(_)) => [Said::Other; 3],
        Err(stop) => [Said::Stopped(stop), Said::Other, Said::Other],
    }
}

const FAULT: Said = Said::Stopped(Stop::DiskFault);

const CLOSED: Said = Said::Stopped(Stop::Closed);

// Whether a checker may say so at a failed call and leave this: the call fails in the start or in the commit, which
// closes the checker and leaves the old superblock or the whole commit; or in the settle behind the commit.
fn may_end_so(said: [Said; 3], left: &[u8], old: &[u8], new: &[u8]) -> bool {
    match said {
        [FAULT, Said::Other, Said::Other] => left == old,
        [Said::Held, FAULT, CLOSED] => {
            left == new || superblock_in(left) == superblock_in(old) && is_in_part(left, old, new)
        }
        [Said::Held, Said::Passed, FAULT] => left == new,
        _ => false,
    }
}

// Whether the checker ends as it may with each call of a kind failing in turn, until none fails.
fn end_as_they_may(alloc: Global, old: &[u8], new: &[u8], op: Op, keep: u32) -> Result<bool, Fail> {
    for nth in 1..100 {
        let fails = vec![in alloc; DiskFail { op, nth, keep }]?;
        let mut disk = MemDisk::new(Vec::from_slice(alloc, old)?, fails);
        let said = play(alloc, &mut disk);
        if disk.faults() == 0 {
            let all = [Said::Held, Said::Passed, Said::Passed];
            return Ok(nth > 1 && said == all && disk.bytes() == new);
        }
        if !may_end_so(said, disk.bytes(), old, new) {
            return Ok(false);
        }
    }
    Ok(false)
}

#[test]
fn a_failed_call_closes_the_checker(rt: HostRuntime) -> Result<(), Fail> {
    let alloc = rt.alloc();
    let base = base_image(alloc)?;
    let mut new = Vec::from_slice(alloc, base.as_slice())?;
    put(&mut new, 8192, b"held");
    put(&mut new, 61_440, &early());
    for (op, keep) in [
        (Op::Length, 0),
        (Op::Read, 0),
        (Op::Write, 0),
        (Op::Write, 2),
        (Op::Write, 5000),
        (Op::Flush, 0),
    ] {
        assert!(rt;
            end_as_they_may(alloc, base.as_slice(), &new, op, keep)?,
            "{op:?} {keep}"
        );
    }
    Ok(())
}

// How often a checker in which nothing is pending looks into its index at a settle.
fn looks_of_settle<D: Disk>(
    alloc: Global,
    checker: &mut Checker<u8>,
    disk: &mut D,
    steps: &mut Steps<u8>,
) -> Option<u64>
    requires length { checker.old.length ≡ D.len disk.old }
    requires empty { checker.old.cache ≡ map.empty }
{
    let before = steps.looks();
    match checker.event(alloc, disk, Event::Settle, steps) {
        Ok(Answer::Passed { .. }) => steps.looks().checked_sub(before),
        _ => None,
    }
}

// The same of a checker that starts over the disk.
fn settle_looks<D: Disk>(alloc: Global, disk: &mut D) -> Option<u64> {
    let mut steps = Steps::new(0u8);
    match Checker::start(alloc, disk, &mut steps) {
        Ok(Started::Ready(checker)) => {
            let mut checker = checker;
            looks_of_settle(alloc, &mut checker, disk, &mut steps)
        }
        _ => None,
    }
}

// The bound is 64 for each chunk of both lists and one more: of the image's trees it does not speak.
#[test]
fn a_settle_with_nothing_pending_looks_seldom(rt: HostRuntime) -> Result<(), Fail> {
    let alloc = rt.alloc();
    let base = base_image(alloc)?;
    let mut disk = MemDisk::new(Vec::from_slice(alloc, base.as_slice())?, Vec::new(alloc));
    match settle_looks(alloc, &mut disk) {
        Some(looks) => assert!(rt; looks <= 64 * (2 * 3 + 1), "{looks} looks"),
        None => panic!(rt; "the settle passes"),
    }
    Ok(())
}
