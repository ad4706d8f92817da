//! A tree's blocks, and how they are made of its items.

ghost use Rattle.std.specs.Prelude.{◌≡◌, ◌+◌, ◌<◌, ◌≤◌, ◌⊎◌, ◌++◌, length, map, IfOk, OnOk};
ghost use Rattle.std.specs.List.{All, Contains};
ghost use Rattle.std.specs.Option.{option_copied};
ghost use Rattle.volume_maker.specs.Live.{blocks_of};
ghost use Rattle.volume_maker.specs.Remade.{IsRemade, NoneFreed, old_blocks};

use crate::block::{Block, BlockAt, new_leaf, new_node};
use crate::space::Space;
use image_maker::LeafItem;
use std::alloc::Global;
use verdict::{Key, NoMemory};

/// The room that a leaf has for items, in bytes.
const LEAF_ROOM: usize = 16283;

/// A tree of at most two levels.
#[derive(Drop)]
pub struct Tree {
    /// The root block: a leaf, or a node.
    pub root: Block,
    /// The leaves below a node.
    pub leaves: Vec<Block>,
}

// The block of the old tree that has the contents of this new one, or the new one, for which its place is
// then taken.
fn kept_or_new(
    alloc: Global,
    old: Option<&Tree>,
    space: &mut Space,
    new: Block,
) -> Result<Block, NoMemory>
    ensures made { IfOk result (λ b.
        (b.at ≡ new.at) ⊎ Contains (old_blocks (option_copied old.entry)) b.at) }
    ensures taken { NoneFreed space.old space.new }
{
    if let Some(old) = old {
        if old.root.is_like(&new) {
            return old.root.copy(alloc);
        }
        for leaf in &old.leaves {
            if leaf.is_like(&new) {
                return leaf.copy(alloc);
            }
        }
    }
    space.take(new.at.number);
    Ok(new)
}

// Whether one of these keys lies above the one, and at most at the other.
fn is_start(starts: &[Key], before: Key, key: Key) -> bool {
    starts.iter().any(|start| before < *start && *start <= key)
}

// How many of the items stand before the next of the keys at which old leaves start.
fn before_start(items: &[LeafItem], starts: &[Key]) -> usize
    requires { 0 < length items.now }
    ensures some { 0 < result }
    ensures within { result ≤ length items.now }
{
    for i in 1..items.len() {
        if is_start(starts, items[i - 1].key, items[i].key) {
            return i;
        }
    }
    items.len()
}

// The room that an item takes.
fn room_of(item: &LeafItem) -> usize {
    item.bytes.as_slice().len().saturating_add(25)
}

// How many items in front fit so much room, but at least one.
fn front_within(items: &[LeafItem], room: usize) -> usize
    requires { 0 < length items.now }
    ensures some { 0 < result }
    ensures within { result ≤ length items.now }
{
    let mut used = 0usize;
    for (i, item) in items.iter().enumerate() {
        used = used.saturating_add(room_of(item));
        if used > room && i > 0 {
            return i;
        }
    }
    items.len()
}

// How many of the items the next leaf has: those before the next old start, or a half of them where they
// are too many for a leaf.
fn leaf_count(items: &[LeafItem], starts: &[Key]) -> usize
    requires { 0 < length items.now }
    ensures some { 0 < result }
    ensures within { result ≤ length items.now }
{
    let count = before_start(items, starts);
    let items = &items[..count];
    let mut room = 0usize;
    for item in items {
        room = room.saturating_add(room_of(item));
    }
    if room <= LEAF_ROOM {
        return count;
    }
    front_within(items, LEAF_ROOM.min(room / 2))
}

/// How many blocks a new tree of these items has.
pub fn block_count(items: &[LeafItem]) -> usize {
    let mut leaves = 0usize;
    let mut from = 0;
    while from < items.len() {
        from += leaf_count(&items[from..], &[]);
        leaves = leaves.saturating_add(1);
    }
    if leaves > 1 {
        leaves.saturating_add(1)
    } else {
        1
    }
}

impl Tree {
    // The keys at which the leaves start.
    fn starts(&self, alloc: Global) -> Result<Vec<Key>, NoMemory> {
        let mut starts = Vec::new(alloc);
        for leaf in &self.leaves {
            starts.push(leaf.first)?;
        }
        Ok(starts)
    }

    /// Adds the places of the blocks.
    pub fn list(&self, into: &mut Vec<BlockAt>) -> Result<(), NoMemory>
        ensures { OnOk result (into.new.items ≡ into.old.items ++ blocks_of self.now) }
    {
        for leaf in &self.leaves {
            into.push(leaf.at)?;
        }
        Ok(into.push(self.root.at)?)
    }
}

// The leaves of a tree of these items.
fn leaves_of(
    alloc: Global,
    old: Option<&Tree>,
    space: &mut Space,
    tree: u64,
    generation: u64,
    items: &[LeafItem],
) -> Result<Vec<Block>, NoMemory>
    ensures { IfOk result (λ leaves.
        IsRemade generation (old_blocks (option_copied old.entry)) space.old
        (map (λ b. b.at) leaves.items) space.new) }
{
    let starts = match old {
        Some(old) => old.starts(alloc)?,
        None => Vec::new(alloc),
    };
    let mut leaves = Vec::new(alloc);
    let mut from = 0;
    while from < items.len() {
        let count = leaf_count(&items[from..], &starts);
        let number = space.next()?;
        let at = BlockAt {
            number,
            tree,
            level: 0,
            generation,
        };
        let new = new_leaf(alloc, at, &items[from..from + count])?;
        leaves.push(kept_or_new(alloc, old, space, new)?)?;
        from += count;
    }
    Ok(leaves)
}

// The root block over these leaves: a node, or a leaf with no item where there are none.
fn root_over(
    alloc: Global,
    number: u16,
    tree: u64,
    generation: u64,
    leaves: &[Block],
) -> Result<Block, NoMemory>
    ensures number { IfOk result (λ root. root.at.number ≡ number) }
    ensures generation { IfOk result (λ root. root.at.generation ≡ generation) }
{
    let mut at = BlockAt {
        number,
        tree,
        level: 0,
        generation,
    };
    if leaves.is_empty() {
        return new_leaf(alloc, at, &[]);
    }
    at.level = 1;
    new_node(alloc, at, leaves)
}

/// The tree of these items. Blocks of the old tree whose contents are the same stay; all others are new
/// blocks of this generation.
pub fn tree_of(
    alloc: Global,
    old: Option<&Tree>,
    space: &mut Space,
    tree: u64,
    generation: u64,
    items: &[LeafItem],
) -> Result<Tree, NoMemory>
    ensures { IfOk result (λ made.
        IsRemade generation (old_blocks (option_copied old.entry)) space.old
        (blocks_of made) space.new) }
{
    let mut leaves = leaves_of(alloc, old, space, tree, generation, items)?;
    let number = space.next()?;
    if leaves.len() == 1 {
        let root = leaves.remove(0);
        return Ok(Tree { root, leaves });
    }
    let root = root_over(alloc, number, tree, generation, &leaves)?;
    let root = kept_or_new(alloc, old, space, root)?;
    Ok(Tree { root, leaves })
}
