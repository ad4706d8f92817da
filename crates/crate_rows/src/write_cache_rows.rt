use std::alloc::Global;
use std::process::Abort;
use verdict::{Bytes, HeldWrite, NoMemory};
use write_cache::*;

// Where bytes begin, and the bytes.
type Part = (u64, &'static [u8]);

// Writes in their order, and the pieces that they make.
const PUTS: [(&[Part], &[Part]); 19] = [
    (&[], &[]),
    (&[(10, &[])], &[]),
    (&[(10, &[1, 2]), (11, &[])], &[(10, &[1, 2])]),
    // Apart, and touching from behind and from before.
    (&[(10, &[1]), (12, &[2])], &[(10, &[1]), (12, &[2])]),
    (&[(12, &[2]), (10, &[1])], &[(10, &[1]), (12, &[2])]),
    (&[(10, &[1, 2]), (12, &[3])], &[(10, &[1, 2, 3])]),
    (&[(12, &[3]), (10, &[1, 2])], &[(10, &[1, 2, 3])]),
    // A bridge between two pieces.
    (&[(10, &[1]), (12, &[2]), (11, &[9])], &[(10, &[1, 9, 2])]),
    // Inside a piece, at its start and at its end.
    (
        &[(10, &[1, 2, 3, 4, 5]), (12, &[9])],
        &[(10, &[1, 2, 9, 4, 5])],
    ),
    (&[(10, &[1, 2, 3]), (10, &[9])], &[(10, &[9, 2, 3])]),
    (&[(10, &[1, 2, 3]), (12, &[9])], &[(10, &[1, 2, 9])]),
    // Over the end of a piece, over its start, and over the whole.
    (&[(10, &[1, 2, 3]), (12, &[8, 9])], &[(10, &[1, 2, 8, 9])]),
    (
        &[(12, &[1, 2, 3]), (10, &[7, 8, 9])],
        &[(10, &[7, 8, 9, 2, 3])],
    ),
    (&[(10, &[1, 2]), (10, &[3, 4])], &[(10, &[3, 4])]),
    (&[(11, &[1]), (10, &[7, 8, 9])], &[(10, &[7, 8, 9])]),
    (&[(10, &[1]), (10, &[2, 3])], &[(10, &[2, 3])]),
    // Over several pieces, the last of which goes on behind it.
    (
        &[(10, &[1]), (12, &[2]), (14, &[3, 4, 5]), (9, &[6; 6])],
        &[(9, &[6, 6, 6, 6, 6, 6, 4, 5])],
    ),
    (
        &[(10, &[1, 2, 3]), (15, &[5, 6, 7]), (11, &[8; 5])],
        &[(10, &[1, 8, 8, 8, 8, 8, 6, 7])],
    ),
    // Pieces away from a write stay.
    (
        &[(5, &[1]), (20, &[2]), (10, &[3, 4]), (11, &[5, 6])],
        &[(5, &[1]), (10, &[3, 5, 6]), (20, &[2])],
    ),
];

// Puts a write, by a copy of its bytes or by bytes of its own.
fn put(
    rt: &impl Abort,
    alloc: Global,
    cache: &mut WriteCache,
    part: Part,
    own: bool,
) -> Result<(), NoMemory> {
    let (at, bytes) = part;
    assert!(rt; at < 1000 && bytes.len() < 1000);
    if own {
        let bytes = Bytes::of(alloc, bytes)?;
        cache.hold(HeldWrite { at, bytes })
    } else {
        cache.put(at, bytes)
    }
}

fn put_all(
    rt: &impl Abort,
    alloc: Global,
    puts: &[Part],
    own: bool,
) -> Result<WriteCache, NoMemory> {
    let mut cache = WriteCache::new(alloc);
    for part in puts {
        put(rt, alloc, &mut cache, *part, own)?;
    }
    Ok(cache)
}

// Whether the cache has exactly these pieces, once its runs are joined, and lends the same bytes in parts before.
fn has_pieces(cache: &mut WriteCache, wanted: &[Part]) -> Result<bool, NoMemory> {
    let in_parts = sum_of(cache.parts());
    let joined = cache.join()?;
    Ok(sum_of(joined.cache.parts()) == in_parts && are_pieces(joined.pieces(), wanted))
}

// Whether what is left is these pieces.
fn are_pieces(mut left: Pieces<'_>, wanted: &[Part]) -> bool {
    for (at, bytes) in wanted {
        match left.next() {
            Some((begin, held)) if begin == *at && held == *bytes => {}
            _ => return false,
        }
    }
    left.next().is_none()
}

// How many bytes are lent, and the sum of them with their places.
fn sum_of(parts: Pieces<'_>) -> (u64, u64) {
    let (mut count, mut sum) = (0u64, 0u64);
    for (at, bytes) in parts {
        for (i, byte) in bytes.iter().enumerate() {
            let place = at.wrapping_add(i as u64);
            count = count.wrapping_add(1);
            sum = sum.wrapping_add(place.wrapping_mul(u64::from(*byte).wrapping_add(1)));
        }
    }
    (count, sum)
}

#[test]
fn the_pieces_are_the_maximal_runs(rt: HostRuntime) -> Result<(), NoMemory> {
    for (row, (puts, wanted)) in PUTS.iter().enumerate() {
        for own in [false, true] {
            let mut cache = put_all(&rt, rt.alloc(), puts, own)?;
            assert!(rt;
                has_pieces(&mut cache, wanted)?,
                "row {row}, own bytes: {own}"
            );
        }
    }
    Ok(())
}

#[test]
fn what_waits_is_read_by_ranges(rt: HostRuntime) -> Result<(), NoMemory> {
    let puts: &[Part] = &[(10, &[1, 2, 3, 4]), (12, &[8, 9, 9, 9]), (20, &[7])];
    let mut cache = put_all(&rt, rt.alloc(), puts, true)?;
    // Whether one byte of the range waits, and whether each does.
    for (at, len, touched, covered) in [
        (0, 10, false, false),
        (0, 11, true, false),
        (10, 6, true, true),
        (10, 7, true, false),
        (9, 2, true, false),
        (15, 1, true, true),
        (16, 4, false, false),
        (16, 5, true, false),
        (20, 1, true, true),
        (12, 0, false, true),
        (50, 0, false, true),
        (21, 1, false, false),
        (u64::MAX, u64::MAX, false, false),
        (5, u64::MAX, true, false),
    ] {
        assert_eq!(rt; cache.touches(at, len), touched, "{len} bytes at {at}");
        assert_eq!(rt; cache.covers(at, len), covered, "{len} bytes at {at}");
    }
    let mut short = [0; 3];
    cache.overlay(11, &mut short);
    assert_eq!(rt; short, [2, 8, 9]);
    let mut wide = [0; 14];
    cache.overlay(8, &mut wide);
    assert_eq!(rt; wide, [0, 0, 1, 2, 8, 9, 9, 9, 0, 0, 0, 0, 7, 0]);
    cache.put(u64::MAX - 2, &[5, 6])?;
    let mut last = [0; 4];
    cache.overlay(u64::MAX - 3, &mut last);
    assert_eq!(rt; last, [0, 5, 6, 0]);
    cache.clear();
    assert!(rt; !cache.touches(0, u64::MAX));
    assert!(rt; has_pieces(&mut cache, &[])?);
    cache.overlay(11, &mut short);
    assert_eq!(rt; short, [2, 8, 9]);
    Ok(())
}

#[test]
fn a_range_in_one_run_is_lent(rt: HostRuntime) -> Result<(), NoMemory> {
    // The last of these writes ends the first run, and goes on over the start of the second: the two touch.
    let puts: &[Part] = &[
        (10, &[1, 2]),
        (14, &[5, 6, 7]),
        (12, &[3, 4, 9]),
        (20, &[8]),
    ];
    let mut cache = put_all(&rt, rt.alloc(), puts, true)?;
    cache.put(u64::MAX - 2, &[5, 6])?;
    let rows: [(u64, usize, Option<&[u8]>); 19] = [
        (10, 4, Some(&[1, 2, 3, 4])),
        (10, 1, Some(&[1])),
        (11, 2, Some(&[2, 3])),
        (14, 3, Some(&[9, 6, 7])),
        (16, 1, Some(&[7])),
        (20, 1, Some(&[8])),
        (u64::MAX - 2, 2, Some(&[5, 6])),
        // No bytes, in a run and away from all.
        (12, 0, Some(&[])),
        (5, 0, None),
        (50, 0, None),
        // Begun outside, ended outside, and both.
        (9, 2, None),
        (16, 2, None),
        (0, 30, None),
        (18, 1, None),
        (u64::MAX - 1, 2, None),
        (u64::MAX, usize::MAX, None),
        // In no gap, but over the two runs that touch.
        (10, 7, None),
        (13, 2, None),
        (10, 5, None),
    ];
    for (at, len, wanted) in rows {
        assert_eq!(rt; cache.lend(at, len), wanted, "{len} bytes at {at}");
    }
    let joined = cache.join()?.cache;
    assert_eq!(rt; joined.lend(10, 7), Some([1, 2, 3, 4, 9, 6, 7].as_slice()));
    assert_eq!(rt; joined.lend(13, 2), Some([4, 9].as_slice()));
    assert_eq!(rt; joined.lend(13, 5), None);
    Ok(())
}
