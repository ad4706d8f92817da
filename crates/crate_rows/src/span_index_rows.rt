use recon_disk::Steps;
use span_index::{SortName, Span, SpanIndex, SpanSort};
use verdict::NoMemory;

fn owned(first: u64, sectors: u64) -> Span {
    Span {
        first,
        sectors,
        sort: SpanSort::Owned { of_data: true },
    }
}

fn summed(first: u64, sectors: u64) -> Span {
    Span {
        first,
        sectors,
        sort: SpanSort::Summed,
    }
}

// What an inode of tree 5 shows at an offset of its file.
fn shown(first: u64, sectors: u64, ino: u64, file_offset: u64) -> Span {
    Span {
        first,
        sectors,
        sort: SpanSort::Shown {
            tree: 5,
            ino,
            file_offset,
            extent: first,
            length: 0x10000,
        },
    }
}

// Spans that overlap, repeat, touch and reach the end of 64 bits.
fn filled(alloc: std::alloc::Global, steps: &mut Steps<()>) -> Result<SpanIndex<()>, NoMemory> {
    let mut index = SpanIndex::new(alloc);
    for span in [
        owned(0x1000, 1),
        owned(0x2000, 100),
        owned(0x3000, 2),
        owned(0x3000, 2),
        owned(0xffff_ffff_ffff_f000, 1),
        summed(0x3000, 1),
        shown(0x3000, 2, 257, 0x8000),
        shown(0x5000, 0, 257, 0),
        shown(0x2000, 4, 257, 0x8000),
        shown(0x9000, 1, 258, 0x1000),
    ] {
        index.insert(span, steps)?;
    }
    Ok(index)
}

#[test]
fn the_next_span_that_meets_an_address(rt: HostRuntime) -> Result<(), NoMemory> {
    let mut steps = Steps::new(());
    let index = filled(rt.alloc(), &mut steps)?;
    assert_eq!(rt; steps.looks(), 10);
    for (sort, address, after, found) in [
        (SortName::Owned, 0, None, Some(owned(0x1000, 1))),
        (SortName::Owned, 0x1fff, None, Some(owned(0x1000, 1))),
        (SortName::Owned, 0x2000, None, Some(owned(0x2000, 100))),
        (
            SortName::Owned,
            0x2000,
            Some(owned(0x2000, 100)),
            Some(owned(0x3000, 2)),
        ),
        (
            SortName::Owned,
            0x4fff,
            Some(owned(0x2000, 100)),
            Some(owned(0x3000, 2)),
        ),
        (
            SortName::Owned,
            0x2000,
            Some(owned(0x3000, 2)),
            Some(owned(0xffff_ffff_ffff_f000, 1)),
        ),
        (
            SortName::Owned,
            u64::MAX,
            None,
            Some(owned(0xffff_ffff_ffff_f000, 1)),
        ),
        (
            SortName::Owned,
            0,
            Some(owned(0xffff_ffff_ffff_f000, 1)),
            None,
        ),
        (SortName::Summed, 0x3fff, None, Some(summed(0x3000, 1))),
        (SortName::Summed, 0x4000, None, None),
        (
            SortName::Shown,
            0x4000,
            None,
            Some(shown(0x2000, 4, 257, 0x8000)),
        ),
        (
            SortName::Shown,
            0x4fff,
            Some(shown(0x2000, 4, 257, 0x8000)),
            Some(shown(0x3000, 2, 257, 0x8000)),
        ),
        (
            SortName::Shown,
            0x5000,
            Some(shown(0x2000, 4, 257, 0x8000)),
            Some(shown(0x9000, 1, 258, 0x1000)),
        ),
    ] {
        let span = index.meeting(sort, address, after.as_ref(), &mut steps);
        assert_eq!(rt; span, found, "{sort:?} from {address}");
    }
    assert_eq!(rt; steps.looks(), 10 + 13);
    Ok(())
}

#[test]
fn what_an_inode_shows(rt: HostRuntime) -> Result<(), NoMemory> {
    let mut steps = Steps::new(());
    let index = filled(rt.alloc(), &mut steps)?;
    for (tree, ino, after, found) in [
        (5, 257, None, Some(shown(0x5000, 0, 257, 0))),
        (5, 257, Some(0), Some(shown(0x2000, 4, 257, 0x8000))),
        (5, 257, Some(0x7fff), Some(shown(0x2000, 4, 257, 0x8000))),
        (5, 257, Some(0x8000), None),
        (5, 258, None, Some(shown(0x9000, 1, 258, 0x1000))),
        (5, 258, Some(u64::MAX), None),
        (5, 256, None, None),
        (6, 257, None, None),
    ] {
        let span = index.shown_of(tree, ino, after, &mut steps);
        assert_eq!(rt; span, found, "inode {ino} after {after:?}");
    }
    assert_eq!(rt; steps.looks(), 10 + 8);
    Ok(())
}

#[test]
fn a_repeat_stands_twice(rt: HostRuntime) -> Result<(), NoMemory> {
    let mut steps = Steps::new(());
    let mut index = filled(rt.alloc(), &mut steps)?;
    let twice = owned(0x3000, 2);
    for stands in [true, true, false] {
        assert_eq!(rt; index.remove(&twice, &mut steps), stands);
    }
    let once = shown(0x2000, 4, 257, 0x8000);
    assert!(rt; index.remove(&once, &mut steps));
    assert!(rt; !index.remove(&once, &mut steps));
    assert_eq!(rt;
        index.shown_of(5, 257, Some(0), &mut steps),
        Some(shown(0x3000, 2, 257, 0x8000))
    );
    assert!(rt; !index.remove(&owned(0x2000, 99), &mut steps));
    assert_eq!(rt; steps.looks(), 17);
    Ok(())
}
