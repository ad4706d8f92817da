//! Where ranges of any length stand in a chunk map, and chunks in any order. What is found of chunk maps and of system arrays is in
//! `tests/images.py`.

use chunk_map::{Chunk, ChunkMap, Place};
use std::alloc::Global;
use verdict::NoMemory;

/// The length of the device in bytes.
const END: u64 = 33554432;

fn chunk(start: u64, length: u64, class: u64, first: u64, second: Option<u64>) -> Chunk {
    Chunk {
        start,
        length,
        class,
        first,
        second,
    }
}

// The system chunk, the metadata chunk, which stands twice, and the data chunk.
fn chunks() -> [Chunk; 3] {
    [
        chunk(1048576, 4194304, 2, 1048576, None),
        chunk(5242880, 8388608, 36, 5242880, Some(13631488)),
        chunk(13631488, 8388608, 1, 22020096, None),
    ]
}

fn map_of(alloc: Global, chunks: &[Chunk]) -> Result<ChunkMap, NoMemory> {
    let mut map = ChunkMap::new(alloc);
    for chunk in chunks {
        if chunk.length <= u64::MAX - chunk.start {
            map.add(chunk)?;
        }
    }
    Ok(map)
}

#[test]
fn a_range_stands_in_the_chunk_that_holds_it_whole(rt: HostRuntime) -> Result<(), NoMemory> {
    let map = map_of(rt.alloc(), &chunks())?;
    for (addr, len, end, place) in [
        (1048575, 1, END, Place::Nowhere),
        (1048576, 1, END, Place::One(1048576)),
        (5242879, 1, END, Place::One(5242879)),
        (5242879, 2, END, Place::Nowhere),
        (5242880, 16384, END, Place::Two(5242880, 13631488)),
        (13631487, 1, END, Place::Two(13631487, 22020095)),
        (13631487, 1, 22020096, Place::Two(13631487, 22020095)),
        (13631487, 1, 22020095, Place::Nowhere),
        (13631488, 8388608, END, Place::One(22020096)),
        (13631488, 8388609, END, Place::Nowhere),
        (13631488, u64::MAX, END, Place::Nowhere),
        (22020096, 1, END, Place::Nowhere),
    ] {
        assert_eq!(rt; map.place(addr, len, end), place, "{len} bytes at {addr}");
    }
    for (physical, logical) in [
        (0, None),
        (1048576, Some(1048576)),
        (13631488, Some(5242880)),
        (22020095, Some(13631487)),
        (22020096, Some(13631488)),
        (30408704, None),
    ] {
        assert_eq!(rt; map.logical_at(physical), logical, "at {physical}");
    }
    assert_eq!(rt; map.chunks(), chunks().as_slice());
    Ok(())
}

#[test]
fn chunks_are_judged_in_the_order_of_their_addresses(rt: HostRuntime) -> Result<(), NoMemory> {
    let [system, metadata, data] = chunks();
    let over = chunk(13631488, 8388608, 1, 13631488, None);
    let sys = map_of(rt.alloc(), &[system])?;
    for (first, wanted) in [(data, None), (over, Some(13631488))] {
        let map = map_of(rt.alloc(), &[first, system, metadata])?;
        let found = map.map_fault(&sys, 1, END);
        assert_eq!(rt; found.map(|finding| finding.detail), wanted);
    }
    Ok(())
}
