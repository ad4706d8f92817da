ghost use Rattle.std.specs.Prelude.{◌≡◌, ◌+◌, ◌≤◌, length};
ghost use Rattle.std.specs.FinMap as map;
ghost use Rattle.verdict.specs.Image.{written};

use crate::bytes::{part, put};
use crate::machine_tests::{Said, early, take};
use image_maker::base_image;
use recon_core::{Checker, Started};
use recon_disk::{Disk, Failed, Steps};
use std::alloc::Global;
use std::test::Fail;
use verdict::{Bytes, HeldWrite};

// A disk in memory that keeps the calls that it answers with Ok: each write, and no write for a flush.
#[derive(Drop)]
struct Recorder {
    alloc: Global,
    bytes: Vec<u8>,
    calls: Vec<Option<HeldWrite>>,
    reads: u64,
    faults: u64,
}

impl Disk for Recorder {
    ghost use Rattle.std.specs.Prelude.{Some, None, false, map, refl};
    ghost use Rattle.std.specs.Option.{option_map_or};
    ghost use Rattle.recon_disk.specs.Calls.{Wrote, Flushed};

    ghost len = { λ d. length d.bytes.items };

    ghost bytes = { λ d. Some d.bytes.items };

    ghost sent = { λ d. Some (map (λ call. option_map_or (λ w. Wrote w.at w.bytes) call Flushed) d.calls.items) };

    ghost moments = { λ d. None };

    ghost queue = { λ d. None };

    ghost reads = { λ d. d.reads };

    ghost faults = { λ d. d.faults };

    ghost hides_length = { λ d. false };

    ghost told_length = { λ d. refl };

    ghost told_moments = { λ d. tt };

    fn length(&mut self) -> Result<u64, Failed> {
        Ok(self.bytes.len() as u64)
    }

    fn read(&mut self, at: u64, into: &mut [u8]) -> Result<(), Failed> {
        self.reads = self.reads.saturating_add(1);
        let from = at as usize;
        into.copy_from_slice(&self.bytes[from..from + into.len()]);
        Ok(())
    }

    fn write(&mut self, at: u64, from: &[u8]) -> Result<(), Failed> {
        let Ok(bytes) = Bytes::of(self.alloc, from) else {
            self.faults = self.faults.saturating_add(1);
            return Err(Failed);
        };
        if self.calls.push(Some(HeldWrite { at, bytes })).is_err() {
            self.faults = self.faults.saturating_add(1);
            return Err(Failed);
        }
        overwrite(&mut self.bytes, at as usize, from);
        Ok(())
    }

    fn flush(&mut self) -> Result<(), Failed> {
        if self.calls.push(None).is_err() {
            self.faults = self.faults.saturating_add(1);
            return Err(Failed);
        }
        Ok(())
    }
}

// Puts these bytes over the range that begins at a place.
#[tactic(auto, unfolding(verdict::specs::Image::written))]
fn overwrite(bytes: &mut Vec<u8>, at: usize, from: &[u8])
    requires { at + length from.now ≤ length bytes.old.items }
    ensures bytes { bytes.new.items ≡ written bytes.old.items at from.now }
    ensures len { length bytes.new.items ≡ length bytes.old.items }
{
    bytes[at..at + from.len()].copy_from_slice(from);
}

// What a checker in which nothing waits says to two short writes, to a long one and the byte behind it, and to one that
// meets the superblock and ends where the long one begins.
fn follow<D: Disk>(
    alloc: Global,
    checker: &mut Checker<u8>,
    disk: &mut D,
    long: &[u8],
    behind: &[u8],
) -> [Said; 5]
    requires length { checker.old.length ≡ D.len disk.old }
    requires empty { checker.old.cache ≡ map.empty }
{
    let first = take(alloc, checker, disk, 33_554_431, &[5]);
    let second = take(alloc, checker, disk, 69_632 + 1_048_576, behind);
    let third = take(alloc, checker, disk, 69_632, long);
    let fourth = take(alloc, checker, disk, 10, &[1, 2]);
    let fifth = take(alloc, checker, disk, 65_530, &early()[4090..]);
    [first, second, third, fourth, fifth]
}

// Whether a checker that starts over the disk holds four of them and passes the commit of the fifth.
fn passes<D: Disk>(alloc: Global, disk: &mut D, long: &[u8], behind: &[u8]) -> bool {
    match Checker::start(alloc, disk, &mut Steps::new(0u8)) {
        Ok(Started::Ready(checker)) => {
            let mut checker = checker;
            let said = follow(alloc, &mut checker, disk, long, behind);
            said == [Said::Held, Said::Held, Said::Held, Said::Held, Said::Passed]
        }
        _ => false,
    }
}

// Where a call writes, its first byte and how many bytes; none of a flush.
fn seen(call: &Option<HeldWrite>) -> Option<(u64, u8, usize)> {
    let write = call.as_ref()?;
    let bytes = write.bytes.as_slice();
    Some((write.at, *bytes.first()?, bytes.len()))
}

// A run that spans the superblock place, and two short ones. Of the long one all that lies in a chunk is as it was.
#[test]
fn a_commit_goes_out_in_rising_runs_and_the_place_last(rt: HostRuntime) -> Result<(), Fail> {
    let alloc = rt.alloc();
    let base = base_image(alloc)?;
    let image = base.as_slice();
    let mut long = Vec::from_slice(alloc, part(image, 69_632, 1_048_576))?;
    put(&mut long, 0, &[4]);
    let behind = part(image, 69_632 + 1_048_576, 1);
    let mut disk = Recorder {
        alloc,
        bytes: Vec::from_slice(alloc, image)?,
        calls: Vec::new(alloc),
        reads: 0,
        faults: 0,
    };
    assert!(rt; passes(alloc, &mut disk, &long, behind));
    let wanted = [
        Some((10, 1, 2)),
        Some((65_530, 7, 6)),
        Some((69_632, 4, 1_048_576)),
        Some((69_632 + 1_048_576, 0, 1)),
        Some((33_554_431, 5, 1)),
        None,
        Some((65_536, early()[4096], 4096)),
        None,
    ];
    assert_eq!(rt; disk.calls.len(), wanted.len());
    for (call, want) in disk.calls.iter().zip(wanted) {
        assert_eq!(rt; seen(call), want);
    }
    Ok(())
}
