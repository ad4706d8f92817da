//! Lists that are merged of what was, without what is gone, and of what came, and lists that are put in order.

ghost use Rattle.std.specs.Prelude.{◌≡◌, ℕ, ◌+◌, ◌<◌, ◌^◌, ◌++◌, ◌||◌, not, map, IfOk, OnOk, option_to_list};
ghost use Rattle.std.specs.List.{AllByRecursion, filter};
ghost use Rattle.std.specs.BTreeSet.{contains};
ghost use Rattle.std.specs.Ordering.{nat_cmp};
ghost use Rattle.verdict.specs.declared.key.Key.{Key as AKey};
ghost use Rattle.verdict.specs.declared.place.Chunk.{Chunk as AChunk};
ghost use Rattle.volume_items.specs.declared.root_at.RootAt.{RootAt as ARoot};
ghost use Rattle.live_index.specs.Orders.{by_key};
ghost use Rattle.tree_laws.specs.MergedLaw.{begins_before, chunk_in, root_before, root_in};
ghost use Rattle.records.specs.Part.{owned_part};
ghost use Rattle.tree_change.specs.Gathered.{located_item};
ghost use Rattle.tree_change.specs.Merging.{IsSortedOf, chunks_among, chunks_left, roots_among, roots_left};
ghost use Rattle.tree_change.specs.Change.{is_before, item_before};
ghost use Rattle.tree_change.specs.Merges.{fits, has_key, has_start};

use crate::lives::push_some;
use chunk_map::{Chunk, ChunkMap};
use live_index::Live;
use records::{ItemAt, OwnedRec, Rec};
use std::alloc::Global;
use std::collections::BTreeSet;
use verdict::{Key, NoMemory};
use volume_items::RootAt;

/// The chunks of a chunk tree by their starts: those that it had, without those that begin where one is gone, and those that came. The
/// list and the starts meanwhile take their memory from this allocator.
pub(crate) fn merge_chunks(
    alloc: Global,
    old: &ChunkMap,
    gone: &[ItemAt],
    came: &[ItemAt],
) -> Result<ChunkMap, NoMemory>
    ensures { IfOk result (λ merged.
        let left = chunks_left old.now (map located_item gone.now) (map located_item came.now) in
        AllByRecursion (λ (c : AChunk). c.start + c.length < 2 ^ 64) left
        → IsSortedOf begins_before left merged) }
{
    let starts = starts_of(alloc, gone)?;
    let mut chunks = Vec::new(alloc);
    keep_chunks(old.chunks(), &starts, &mut chunks)?;
    add_chunks(came, &mut chunks)?;
    sort_chunks(&mut chunks);
    map_of(alloc, &chunks)
}

// Where the chunks among items begin.
fn starts_of(alloc: Global, items: &[ItemAt]) -> Result<BTreeSet<u64>, NoMemory>
    ensures { IfOk result (λ starts. (start : ℕ) →
        contains nat_cmp starts start
        ≡ has_start (chunks_among (map located_item items.now)) start) }
{
    let mut starts = BTreeSet::new(alloc);
    for item in items {
        put_start(&mut starts, chunk_in(item))?;
    }
    Ok(starts)
}

// Puts where a chunk begins among starts, where there is one.
fn put_start(starts: &mut BTreeSet<u64>, chunk: Option<Chunk>) -> Result<(), NoMemory>
    ensures { OnOk result ((start : ℕ) →
        contains nat_cmp starts.new start
        ≡ (contains nat_cmp starts.old start || has_start (option_to_list chunk) start)) }
{
    if let Some(chunk) = chunk
        && starts.insert(chunk.start).is_err()
    {
        return Err(NoMemory);
    }
    Ok(())
}

// Puts those chunks behind others that do not begin at one of some starts.
fn keep_chunks(old: &[Chunk], starts: &BTreeSet<u64>, into: &mut Vec<Chunk>) -> Result<(), NoMemory>
    ensures { OnOk result (into.new.items ≡
        into.old.items
        ++ filter (λ (chunk : AChunk). not (contains nat_cmp starts.now chunk.start)) old.now) }
{
    for chunk in old {
        if starts.contains(&chunk.start) {
            continue;
        }
        push_some(into, Some(*chunk))?;
    }
    Ok(())
}

// Puts the chunks among items behind others.
fn add_chunks(items: &[ItemAt], into: &mut Vec<Chunk>) -> Result<(), NoMemory>
    ensures { OnOk result (
        into.new.items ≡ into.old.items ++ chunks_among (map located_item items.now)) }
{
    for item in items {
        push_some(into, chunk_in(item))?;
    }
    Ok(())
}

// Puts chunks in the order of their starts.
fn sort_chunks(chunks: &mut Vec<Chunk>)
    ensures { IsSortedOf begins_before chunks.old.items chunks.new.items }
{
    chunks.sort_unstable_by_key(|chunk| chunk.start);
}

// The list of those chunks that end at an address of 64 bits.
fn map_of(alloc: Global, chunks: &[Chunk]) -> Result<ChunkMap, NoMemory>
    ensures { IfOk result (λ some. some ≡ filter fits chunks.now) }
{
    let mut some = ChunkMap::new(alloc);
    for chunk in chunks {
        if chunk.start.checked_add(chunk.length).is_some() {
            some.add(chunk)?;
        }
    }
    Ok(some)
}

// The chunk of an item, where it is a chunk item.
fn chunk_in(item: &ItemAt) -> Option<Chunk>
    ensures { result ≡ chunk_in (owned_part (item.now).part) }
{
    match item.part.lend() {
        Rec::ChunkItem(item) => Some(item.chunk()),
        _ => None,
    }
}

/// Where trees begin, in the order of the keys of their root items: those that were, without those of which the key is gone, and those
/// that came. The list and the keys meanwhile take their memory from this allocator.
pub(crate) fn merge_roots(
    alloc: Global,
    old: &[RootAt],
    gone: &[ItemAt],
    came: &[ItemAt],
) -> Result<Vec<RootAt>, NoMemory>
    ensures { IfOk result (λ roots. IsSortedOf root_before
        (roots_left old.now (map located_item gone.now) (map located_item came.now)) roots.items) }
{
    let keys = keys_of(alloc, gone)?;
    let mut roots = Vec::new(alloc);
    keep_roots(old, &keys, &mut roots)?;
    add_roots(came, &mut roots)?;
    sort_roots(&mut roots);
    Ok(roots)
}

// The keys of the root items among items.
fn keys_of(alloc: Global, items: &[ItemAt]) -> Result<BTreeSet<Key>, NoMemory>
    ensures { IfOk result (λ keys. (key : AKey) →
        contains by_key keys key ≡ has_key (roots_among (map located_item items.now)) key) }
{
    let mut keys = BTreeSet::new(alloc);
    for item in items {
        put_key(&mut keys, root_in(item))?;
    }
    Ok(keys)
}

// Puts the key of a root item among keys, where there is one.
fn put_key(keys: &mut BTreeSet<Key>, root: Option<RootAt>) -> Result<(), NoMemory>
    ensures { OnOk result ((key : AKey) →
        contains by_key keys.new key
        ≡ (contains by_key keys.old key || has_key (option_to_list root) key)) }
{
    let Some(root) = root else {
        return Ok(());
    };
    match keys.insert(root.key) {
        Ok(_) => Ok(()),
        Err(_) => Err(NoMemory),
    }
}

// Puts those trees behind others whose root items have none of some keys.
fn keep_roots(old: &[RootAt], keys: &BTreeSet<Key>, into: &mut Vec<RootAt>) -> Result<(), NoMemory>
    ensures { OnOk result (into.new.items ≡
        into.old.items
        ++ filter (λ (root : ARoot). not (contains by_key keys.now root.key)) old.now) }
{
    for root in old {
        if keys.contains(&root.key) {
            continue;
        }
        push_some(into, Some(*root))?;
    }
    Ok(())
}

// Puts where trees begin by the root items among items behind others.
fn add_roots(items: &[ItemAt], into: &mut Vec<RootAt>) -> Result<(), NoMemory>
    ensures { OnOk result (
        into.new.items ≡ into.old.items ++ roots_among (map located_item items.now)) }
{
    for item in items {
        push_some(into, root_in(item))?;
    }
    Ok(())
}

// Puts trees in the order of the keys of their root items.
fn sort_roots(roots: &mut Vec<RootAt>)
    ensures { IsSortedOf root_before roots.old.items roots.new.items }
{
    roots.sort_unstable_by_key(|root| root.key);
}

// Where a tree begins by an item, where it is a root item.
fn root_in(item: &ItemAt) -> Option<RootAt>
    ensures { result ≡ root_in (owned_part (item.now).part) }
{
    match &item.part {
        OwnedRec::RootItem(root) => Some(RootAt::of(root)),
        _ => None,
    }
}

/// Puts items in the order of their trees and keys. What it takes meanwhile it takes from this allocator.
pub(crate) fn sort_items(alloc: Global, items: &mut Vec<ItemAt>) -> Result<(), NoMemory>
    ensures { OnOk result (IsSortedOf item_before
        (map located_item items.old.items) (map located_item items.new.items)) }
{
    match items
        .as_mut_slice()
        .sort_by_key(alloc, |item| (item.tree, item.key))
    {
        Ok(()) => Ok(()),
        Err(_) => Err(NoMemory),
    }
}

/// Puts live pairs in the order of their addresses and trees. What it takes meanwhile it takes from this allocator.
pub(crate) fn sort_lives(alloc: Global, lives: &mut Vec<Live>) -> Result<(), NoMemory>
    ensures { OnOk result (IsSortedOf is_before lives.old.items lives.new.items) }
{
    match lives
        .as_mut_slice()
        .sort_by_key(alloc, |live| (live.address, live.tree))
    {
        Ok(()) => Ok(()),
        Err(_) => Err(NoMemory),
    }
}
