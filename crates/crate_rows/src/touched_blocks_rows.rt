use chunk_map::ChunkMap;
use live_index::{Live, LiveIndex};
use recon_disk::Steps;
use std::alloc::Global;
use std::process::Abort;
use touched_blocks::{Marks, moved_pairs, moved_pairs_of, touched_blocks};
use verdict::{Chunk, Key, NoMemory};
use write_cache::WriteCache;

// The device's length, and the size of a tree block, in bytes.
const END: u64 = 33_554_432;

const NODESIZE: u32 = 16_384;

// Where chunks of blocks begin by logical address, and where their two copies do on the device.
const START: u64 = 5_242_880;

const SECOND: u64 = 13_631_488;

// The addresses of a root with two leaves, of tree 5, and of a leaf that is the root of tree 7.
const ROOT: u64 = START;

const LEAF: u64 = START + 16_384;

const OTHER: u64 = START + 32_768;

const ALONE: u64 = START + 49_152;

fn pair(tree: u64, address: u64, level: u8, parent: u64) -> Live {
    let key = Key {
        objectid: address,
        kind: 1,
        offset: 0,
    };
    Live {
        tree,
        address,
        level,
        generation: 7,
        first: key,
        last: key,
        parent,
        owner: tree,
    }
}

fn table(alloc: Global, steps: &mut Steps<()>) -> Result<LiveIndex<()>, NoMemory> {
    let mut table = LiveIndex::new(alloc);
    table.insert(pair(5, ROOT, 1, 0), steps)?;
    table.insert(pair(5, LEAF, 0, ROOT), steps)?;
    table.insert(pair(5, OTHER, 0, ROOT), steps)?;
    table.insert(pair(7, ALONE, 0, 0), steps)?;
    Ok(table)
}

fn chunk(length: u64, class: u64, second: Option<u64>) -> Chunk {
    Chunk {
        start: START,
        length,
        class,
        first: START,
        second,
    }
}

fn map_of(rt: &impl Abort, alloc: Global, chunks: &[Chunk]) -> Result<ChunkMap, NoMemory> {
    let mut map = ChunkMap::new(alloc);
    for chunk in chunks {
        assert!(rt; chunk.start <= END && chunk.length <= END);
        map.add(chunk)?;
    }
    Ok(map)
}

// Which of the four pairs are marked.
fn marked(marks: &Marks) -> [bool; 4] {
    [
        marks.has(5, ROOT),
        marks.has(5, LEAF),
        marks.has(5, OTHER),
        marks.has(7, ALONE),
    ]
}

#[test]
fn a_write_marks_the_block_of_which_it_meets_a_copy_and_all_above(
    rt: HostRuntime,
) -> Result<(), NoMemory> {
    let mut steps = Steps::new(());
    let table = table(rt.alloc(), &mut steps)?;
    let map = map_of(&rt, rt.alloc(), &[chunk(8_388_608, 36, Some(SECOND))])?;
    // Where the bytes are written, which pairs are marked, and how often the table is looked into.
    let rows: [(&[u64], &[u8], [bool; 4], u64); 7] = [
        // The last byte of the leaf's second copy, and the first of its first.
        (&[SECOND + 32_767], &[1], [true, true, false, false], 4),
        (&[LEAF], &[1], [true, true, false, false], 4),
        // Two bytes, the last of the one leaf and the first of the other.
        (&[OTHER - 1], &[1, 2], [true, true, true, false], 6),
        (&[ALONE + 5], &[1], [false, false, false, true], 3),
        // Before the first copy, and behind the last block's.
        (&[START - 1], &[1], [false; 4], 0),
        (&[ALONE + 16_384], &[1], [false; 4], 1),
        // Three bytes of one leaf, in both copies: it is found once.
        (
            &[LEAF, SECOND + 16_384, SECOND + 20_000],
            &[1],
            [true, true, false, false],
            6,
        ),
    ];
    for (offsets, bytes, wanted, looks) in rows {
        let mut cache = WriteCache::new(rt.alloc());
        for at in offsets {
            assert!(rt; *at < END && bytes.len() < 10);
            cache.put(*at, bytes)?;
        }
        let mut steps = Steps::new(());
        let marks = touched_blocks(rt.alloc(), &table, &cache, &map, NODESIZE, END, &mut steps)?;
        assert_eq!(rt; marked(&marks), wanted, "writes at {offsets:?}");
        assert_eq!(rt; steps.looks(), looks, "writes at {offsets:?}");
    }
    Ok(())
}

#[test]
fn a_chunk_that_changed_marks_the_blocks_that_moved(rt: HostRuntime) -> Result<(), NoMemory> {
    let mut steps = Steps::new(());
    let table = table(rt.alloc(), &mut steps)?;
    let old = map_of(&rt, rt.alloc(), &[chunk(8_388_608, 36, Some(SECOND))])?;
    // The new chunks, which pairs are marked, and how often the table is looked into.
    let rows: [(&[Chunk], [bool; 4], u64); 5] = [
        // The same chunk, and one of another class at the same places.
        (&[chunk(8_388_608, 36, Some(SECOND))], [false; 4], 0),
        (&[chunk(8_388_608, 4, Some(SECOND))], [false; 4], 0),
        // A copy elsewhere, one copy less, and none.
        (&[chunk(8_388_608, 36, Some(SECOND + 4096))], [true; 4], 9),
        (&[], [true; 4], 9),
        // A chunk that ends before the last two blocks: what is left of it stays in place, and is not asked for.
        (
            &[chunk(32_768, 36, Some(SECOND))],
            [true, false, true, true],
            6,
        ),
    ];
    for (chunks, wanted, looks) in rows {
        let new = map_of(&rt, rt.alloc(), chunks)?;
        let mut steps = Steps::new(());
        let marks = moved_pairs(rt.alloc(), &table, &old, &new, NODESIZE, END, &mut steps)?;
        assert_eq!(rt; marked(&marks), wanted);
        assert_eq!(rt; steps.looks(), looks);
    }
    Ok(())
}

#[test]
fn of_one_tree_alone_no_other_is_marked_or_asked_for(rt: HostRuntime) -> Result<(), NoMemory> {
    let mut steps = Steps::new(());
    let table = table(rt.alloc(), &mut steps)?;
    let old = map_of(&rt, rt.alloc(), &[chunk(8_388_608, 36, Some(SECOND))])?;
    let shorter: &[Chunk] = &[chunk(32_768, 36, Some(SECOND))];
    // The tree, the new chunks, which pairs are marked, and how often the table is looked into.
    let rows: [(u64, &[Chunk], [bool; 4], u64); 5] = [
        (5, &[], [true, true, true, false], 7),
        (7, &[], [false, false, false, true], 3),
        // A tree with no pair.
        (3, &[], [false; 4], 1),
        (5, shorter, [true, false, true, false], 4),
        (7, &[chunk(8_388_608, 36, Some(SECOND))], [false; 4], 0),
    ];
    for (tree, chunks, wanted, looks) in rows {
        let new = map_of(&rt, rt.alloc(), chunks)?;
        let mut steps = Steps::new(());
        let marks = moved_pairs_of(
            rt.alloc(),
            &table,
            tree,
            &old,
            &new,
            NODESIZE,
            END,
            &mut steps,
        )?;
        assert_eq!(rt; marked(&marks), wanted, "tree {tree}");
        assert_eq!(rt; steps.looks(), looks, "tree {tree}");
    }
    Ok(())
}
