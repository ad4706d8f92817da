ghost use Rattle.std.specs.Prelude.{◌≡◌, IfOk, length};
ghost use Rattle.recon_disk.specs.Memory.{bytes_in};

use recon_disk::*;
use std::alloc::{AllocError, Global};

// A device that holds the superblock place and 4096 bytes before and behind it, all of one value.
fn image(alloc: Global) -> Result<Vec<u8>, AllocError>
    ensures { IfOk result (λ v. length v.items ≡ 73728) }
{
    vec![in alloc; 0x11u8; 73728]
}

// Whether each of the four calls goes well.
fn calls(disk: &mut MemDisk) -> [bool; 4]
    requires { length (bytes_in disk.old) ≡ 73728 }
    ensures { length (bytes_in disk.new) ≡ 73728 }
{
    let mut into = [0u8; 4];
    let length = disk.length() == Ok(73728);
    let read = disk.read(73724, into.as_mut_slice()).is_ok();
    let write = disk.write(0, [9u8].as_slice()).is_ok();
    let flush = disk.flush().is_ok();
    [length, read && into == [0x11; 4], write, flush]
}

#[test]
fn a_listed_call_of_a_disk_fails_and_no_other(rt: HostRuntime) -> Result<(), AllocError> {
    for (op, want) in [
        (Op::Length, [false, true, true, true]),
        (Op::Read, [true, false, true, true]),
        (Op::Write, [true, true, false, true]),
        (Op::Flush, [true, true, true, false]),
    ] {
        let fail = Fail {
            op,
            nth: 2,
            keep: 0,
        };
        let mut disk = MemDisk::new(image(rt.alloc())?, vec![in rt.alloc(); fail]?);
        assert_eq!(rt; calls(&mut disk), [true; 4]);
        assert_eq!(rt; calls(&mut disk), want, "the second call of {op:?}");
        assert_eq!(rt; calls(&mut disk), [true; 4]);
        assert_eq!(rt; (disk.reads(), disk.faults()), (3, 1));
        assert_eq!(rt; disk.bytes()[0], 9);
    }
    Ok(())
}

#[test]
fn a_failing_write_keeps_a_front_and_a_superblock_all_or_none(
    rt: HostRuntime,
) -> Result<(), AllocError> {
    for (at, len, keep, kept) in [
        (65536u64, 4096usize, 0u32, 0usize),
        (65536, 4096, 2048, 0),
        (65536, 4096, 4096, 4096),
        (65536, 4096, 9999, 4096),
        (65536, 4000, 2048, 2048),
        (65537, 4096, 2048, 2048),
        (0, 8, 0, 0),
        (0, 8, 3, 3),
    ] {
        let fail = Fail {
            op: Op::Write,
            nth: 1,
            keep,
        };
        let mut disk = MemDisk::new(image(rt.alloc())?, vec![in rt.alloc(); fail]?);
        let from = [0x77u8; 4096];
        assert!(rt;
            disk.write(at, &from[..len]).is_err(),
            "a failing write at {at}"
        );
        let new = disk.bytes().iter().filter(|b| **b == 0x77).count();
        assert_eq!(rt; new, kept, "{keep} of {len} bytes at {at}");
        let at = at as usize;
        let front = disk.bytes()[at..at + kept].iter().all(|b| *b == 0x77);
        assert!(rt; front, "{keep} of {len} bytes at {at}");
    }
    Ok(())
}

#[test]
fn a_source_gives_steps_and_fails_where_it_is_told_to(rt: HostRuntime) -> Result<(), AllocError> {
    let bytes = Vec::from_slice(rt.alloc(), [1u8, 2, 3, 4, 5].as_slice())?;
    let mut source = MemSource::new(bytes, 2, Vec::from_slice(rt.alloc(), [2u64, 5].as_slice())?);
    for (call, want, first) in [
        (1u8, Some(2usize), 1u8),
        (2, None, 0),
        (3, Some(2), 3),
        (4, Some(1), 5),
        (5, None, 0),
        (6, Some(0), 0),
    ] {
        let mut into = [0u8; 3];
        assert_eq!(rt; source.read(into.as_mut_slice()).ok(), want, "call {call}");
        assert_eq!(rt; into[0], first, "call {call}");
    }
    Ok(())
}

#[test]
fn a_sink_keeps_what_fits_and_what_its_list_says(rt: HostRuntime) -> Result<(), AllocError> {
    let fails = Vec::from_slice(rt.alloc(), [(2u64, 1usize), (3, 9), (4, 1)].as_slice())?;
    let sink = MemSink::new(rt.alloc(), 8, fails);
    assert!(rt; sink.is_ok());
    if let Ok(mut sink) = sink {
        for (piece, fine, kept) in [
            (3usize, true, 3usize),
            (2, false, 4),
            (2, false, 6),
            (3, false, 6),
            (3, false, 6),
            (2, true, 8),
            (0, true, 8),
            (1, false, 8),
        ] {
            let from = [7u8; 3];
            assert_eq!(rt; sink.write(&from[..piece]).is_ok(), fine, "{piece} bytes");
            assert_eq!(rt; sink.bytes().len(), kept, "{piece} bytes");
        }
    }
    Ok(())
}

#[test]
fn looks_are_counted(rt: HostRuntime) {
    let mut steps = Steps::new(());
    assert_eq!(rt; steps.looks(), 0);
    steps.look();
    steps.look();
    assert_eq!(rt; steps.looks(), 2);
    assert!(rt; steps.seed() == [0; 16]);
}

#[test]
fn a_seed_stays(rt: HostRuntime) {
    let mut steps = Steps::seeded((), [7; 16]);
    steps.look();
    assert!(rt; steps.seed() == [7; 16]);
    assert_eq!(rt; steps.looks(), 1);
}
