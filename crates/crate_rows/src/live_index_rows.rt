use live_index::{Live, LiveIndex};
use recon_disk::Steps;
use verdict::{Key, NoMemory};

// A key of an inode with this number.
fn inode(number: u64) -> Key {
    Key {
        objectid: number,
        kind: 1,
        offset: 0,
    }
}

const GREATEST: Key = Key {
    objectid: u64::MAX,
    kind: 255,
    offset: u64::MAX,
};

// A pair of a tree at an address with a level and a first key.
fn pair(tree: u64, address: u64, level: u8, first: Key) -> Live {
    Live {
        tree,
        address,
        level,
        generation: 7,
        first,
        last: first,
        parent: 0,
        owner: tree,
    }
}

// Tree 5 has three leaves under a node, the last of them empty, and tree 256 shares a leaf with it.
fn pairs() -> [Live; 5] {
    [
        pair(5, 0x8000, 1, inode(256)),
        pair(5, 0x4000, 0, inode(300)),
        pair(5, 0x10000, 0, inode(256)),
        pair(5, 0xc000, 0, GREATEST),
        pair(256, 0x4000, 0, inode(300)),
    ]
}

fn filled(alloc: std::alloc::Global, steps: &mut Steps<()>) -> Result<LiveIndex<()>, NoMemory> {
    let mut index = LiveIndex::new(alloc);
    for live in pairs() {
        index.insert(live, steps)?;
    }
    Ok(index)
}

// Where the tree of a pair and its address are, where there is one.
fn place(live: Option<Live>) -> Option<(u64, u64)> {
    live.map(|live| (live.tree, live.address))
}

#[test]
fn the_table_is_read_in_three_orders(rt: HostRuntime) -> Result<(), NoMemory> {
    let mut steps = Steps::new(());
    let index = filled(rt.alloc(), &mut steps)?;
    assert_eq!(rt; steps.looks(), 5);
    assert_eq!(rt;
        index.get(5, 0x4000, &mut steps),
        Some(pair(5, 0x4000, 0, inode(300)))
    );
    assert_eq!(rt; index.get(7, 0x4000, &mut steps), None);
    for (address, tree, found) in [
        (0, 0, Some((5, 0x4000))),
        (0x4000, 5, Some((5, 0x4000))),
        (0x4000, 6, Some((256, 0x4000))),
        (0x4000, 257, Some((5, 0x8000))),
        (0x9000, 0, Some((5, 0xc000))),
        (0x10000, 6, None),
        (u64::MAX, u64::MAX, None),
    ] {
        let live = index.at_or_after(address, tree, &mut steps);
        assert_eq!(rt; place(live), found, "address {address}, tree {tree}");
    }
    for (tree, after, found) in [
        (5, None, Some((5, 0x4000))),
        (5, Some(0x4000), Some((5, 0x8000))),
        (5, Some(0x9000), Some((5, 0xc000))),
        (5, Some(0x10000), None),
        (256, Some(0x3fff), Some((256, 0x4000))),
        (6, None, None),
        (257, None, None),
    ] {
        let live = index.next_of(tree, after, &mut steps);
        assert_eq!(rt; place(live), found, "tree {tree}");
    }
    for (tree, level, first, found) in [
        (5, 0, Key::none(), Some(inode(256))),
        (5, 0, inode(256), Some(inode(300))),
        (5, 0, inode(300), Some(GREATEST)),
        (5, 0, GREATEST, None),
        (5, 1, inode(255), Some(inode(256))),
        (5, 1, inode(256), None),
        (5, 2, Key::none(), None),
        (6, 0, Key::none(), None),
    ] {
        let next = index.next_first(tree, level, first, &mut steps);
        assert_eq!(rt; next, found, "tree {tree}, level {level}");
    }
    // One look of each call.
    assert_eq!(rt; steps.looks(), 5 + 2 + 7 + 7 + 8);
    Ok(())
}

#[test]
fn pairs_are_walked_in_the_order_of_their_keys(rt: HostRuntime) -> Result<(), NoMemory> {
    let mut steps = Steps::new(());
    let index = filled(rt.alloc(), &mut steps)?;
    let mut walk = index.behind(&pair(5, 0x10000, 0, inode(256)), &mut steps);
    for found in [
        Some((5, 0x4000)),
        Some((5, 0xc000)),
        Some((5, 0x8000)),
        Some((256, 0x4000)),
        None,
    ] {
        assert_eq!(rt; place(walk.next(&mut steps)), found);
    }
    // One look for the walk, and one for each step.
    assert_eq!(rt; steps.looks(), 5 + 1 + 5);
    Ok(())
}

#[test]
fn a_pair_takes_the_place_of_another(rt: HostRuntime) -> Result<(), NoMemory> {
    let mut steps = Steps::new(());
    let mut index = filled(rt.alloc(), &mut steps)?;
    let newer = pair(5, 0x10000, 0, inode(280));
    index.insert(newer, &mut steps)?;
    assert_eq!(rt; steps.looks(), 6);
    assert_eq!(rt; index.get(5, 0x10000, &mut steps), Some(newer));
    // The old first key is gone.
    assert_eq!(rt;
        index.next_first(5, 0, inode(0), &mut steps),
        Some(inode(280))
    );
    assert_eq!(rt;
        index.remove(5, 0x4000, &mut steps),
        Some(pair(5, 0x4000, 0, inode(300)))
    );
    assert_eq!(rt; index.remove(5, 0x4000, &mut steps), None);
    assert_eq!(rt;
        index.next_first(5, 0, inode(280), &mut steps),
        Some(GREATEST)
    );
    assert_eq!(rt;
        place(index.at_or_after(0, 0, &mut steps)),
        Some((256, 0x4000))
    );
    assert_eq!(rt;
        place(index.next_of(5, None, &mut steps)),
        Some((5, 0x8000))
    );
    assert_eq!(rt; steps.looks(), 13);
    Ok(())
}
