use crate::tree_tests::known_by;
use chunk_map::ChunkMap;
use live_index::{Live, LiveIndex};
use node_reader::{Expect, Pointer};
use recon_disk::Steps;
use shared_trees::{Keeps, OldTree, Start, Starts, Stops};
use std::alloc::Global;
use touched_blocks::{Marks, Move};
use tree_change::{Path, PathStep};
use verdict::{Key, NoMemory};

// The step at a block of this level, from which the way goes on at this child.
fn step(level: u8, next: u32) -> PathStep {
    PathStep {
        address: 0x4000 * (u64::from(level) + 1),
        level,
        next,
    }
}

#[test]
fn a_path_goes_down_eight_levels_and_back(rt: HostRuntime) {
    let mut path = Path::new(rt.alloc());
    assert_eq!(rt; path.pop(), None);
    let steps = [
        step(7, 1),
        step(6, 0),
        step(5, 492),
        step(4, 3),
        step(3, 0),
        step(2, 9),
        step(1, 2),
        step(0, 0),
    ];
    for step in steps {
        assert!(rt; path.steps().len() < 8);
        path.push(step);
    }
    assert_eq!(rt; path.steps(), steps.as_slice());
    assert_eq!(rt; path.pop(), Some(step(0, 0)));
    assert_eq!(rt; path.steps(), &steps[..7]);
}

fn inode(number: u64) -> Key {
    Key {
        objectid: number,
        kind: 1,
        offset: 0,
    }
}

// A pair with its tree, address and level, the inodes of its first and its last key, and the address of the node above.
fn pair(tree: u64, address: u64, level: u8, first: u64, last: u64, parent: u64) -> Live {
    Live {
        tree,
        address,
        level,
        generation: 7,
        first: inode(first),
        last: inode(last),
        parent,
        owner: tree,
    }
}

// Tree 5 has two nodes below its root, the one with three leaves, whose addresses fall as their keys ascend. Tree 7 has its
// root at address 0, with two leaves.
fn table(alloc: Global, steps: &mut Steps<()>) -> Result<LiveIndex<()>, NoMemory> {
    let mut table = LiveIndex::new(alloc);
    for live in [
        pair(5, 0x10_0000, 2, 256, 300, 0),
        pair(5, 0x20_0000, 1, 256, 259, 0x10_0000),
        pair(5, 0x30_0000, 1, 300, 300, 0x10_0000),
        pair(5, 0x3_c000, 0, 256, 256, 0x20_0000),
        pair(5, 0x3_8000, 0, 257, 257, 0x20_0000),
        pair(5, 0x3_4000, 0, 258, 259, 0x20_0000),
        pair(5, 0x30_4000, 0, 300, 300, 0x30_0000),
        pair(7, 0, 1, 256, 280, 0),
        pair(7, 0x4000, 0, 256, 256, 0),
        pair(7, 0x8000, 0, 270, 280, 0),
    ] {
        table.insert(live, steps)?;
    }
    Ok(table)
}

fn start(address: u64, first: u64, next: Option<u64>) -> Start {
    Start {
        pointer: Pointer {
            key: inode(first),
            address,
            generation: 7,
        },
        next: next.map(inode),
    }
}

#[test]
fn marked_children_stand_below_their_nodes(rt: HostRuntime) -> Result<(), NoMemory> {
    let mut steps = Steps::new(());
    let table = table(rt.alloc(), &mut steps)?;
    let mut marks = Marks::new(rt.alloc());
    for (tree, address) in [
        (5, 0x3_4000),
        (5, 0x3_c000),
        (5, 0x20_0000),
        (5, 0x10_0000),
        (7, 0),
        (7, 0x4000),
        (7, 0x8000),
        (7, 0x3_8000),
    ] {
        marks.put(tree, address)?;
    }
    let starts = Starts::listed(rt.alloc(), &table, &marks, &mut steps)?;
    let leaves = [start(0x3_c000, 256, Some(257)), start(0x3_4000, 258, None)];
    assert_eq!(rt; starts.of(5, 0x20_0000), leaves.as_slice());
    let nodes = [start(0x20_0000, 256, Some(300))];
    assert_eq!(rt; starts.of(5, 0x10_0000), nodes.as_slice());
    let at_zero = [start(0x4000, 256, Some(270)), start(0x8000, 270, None)];
    assert_eq!(rt; starts.of(7, 0), at_zero.as_slice());
    for (tree, address) in [(5, 0), (5, 0x30_0000), (7, 0x10_0000), (7, 0x20_0000)] {
        assert!(rt; starts.of(tree, address).is_empty());
    }
    Ok(())
}

// What is expected of the second leaf below the node at 0x20_0000, or of another block in its place.
fn expected(tree: u64, address: u64, generation: u64) -> Expect {
    Expect {
        tree,
        address,
        generation,
        level: 0,
        low: Some(inode(257)),
        high: Some(inode(258)),
        parent: 0x20_0000,
    }
}

#[test]
fn a_walk_of_the_tree_as_it_was_keeps_the_blocks_at_stops(rt: HostRuntime) -> Result<(), NoMemory> {
    let mut steps = Steps::new(());
    let table = table(rt.alloc(), &mut steps)?;
    let starts = Starts::new(rt.alloc());
    let marks = Marks::new(rt.alloc());
    let map = ChunkMap::new(rt.alloc());
    let moves = Move::new(&map, &map, 16_384, 1 << 20);
    let mut looks = Steps::new(());
    let mut known = known_by(rt.alloc(), &table, &marks, &moves, &starts, &mut looks);
    known.meet(&expected(5, 0x3_8000, 9))?;
    known.meet(&expected(5, 0x5_0000, 7))?;
    let stops = Stops::new(rt.alloc(), known.met.as_slice())?;
    let mut old = OldTree {
        table: &table,
        stops: &stops,
        starts: &starts,
        steps: &mut steps,
        next: 0,
    };
    let rows = [
        // In the order in which the stops were met, and again.
        (expected(5, 0x3_8000, 7), Some(inode(257))),
        (expected(5, 0x3_8000, 7), Some(inode(257))),
        // Another generation, a block that the table has not, and one that is at no stop.
        (expected(5, 0x3_8000, 9), None),
        (expected(5, 0x5_0000, 7), None),
        (expected(5, 0x3_c000, 7), None),
    ];
    for (e, last) in rows {
        assert_eq!(rt; old.kept(&e), last);
        assert_eq!(rt; old.count(&e), 0);
    }
    Ok(())
}
