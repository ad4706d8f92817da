//! The rules on the list of root items, and what is expected of the roots of trees.

ghost use Rattle.std.specs.Prelude.{◌≡◌, [], IfOk};
ghost use Rattle.std.specs.List.{list_any};
ghost use Rattle.verdict.specs.Rules.{first_failing};
ghost use Rattle.records.specs.Contents.{
  missing_finding,
  missing_rows,
  named_root,
  names,
  repeated_after,
  roots_fault,
  roots_finding,
};

use node_reader::Expect;
use std::alloc::Global;
use std::collections::BTreeSet;
use verdict::kinds::ROOT_ITEM;
use verdict::trees::{BLOCK_GROUP_TREE, CSUM_TREE, DEV_TREE, EXTENT_TREE, FS_TREE, ROOT_TREE};
use verdict::{Family, Finding, Key, NoMemory, Rule, has_group_tree};
use volume_items::RootAt;

/// What is expected of the root of the tree that a root item names.
pub fn named_root(root: &RootAt) -> Expect
    ensures { result ≡ named_root root.now }
{
    Expect {
        tree: root.key.objectid,
        address: root.address,
        generation: root.generation,
        level: root.level,
        low: None,
        high: None,
        parent: 0,
    }
}

/// The first finding on the list of root items: two of one id (X1), or none for one of the ids 2, 4, 5 and 7, and for
/// 11 where the block groups have a tree of their own (X2). The ids meanwhile take their memory from this allocator.
#[tactic(auto, unfolding(crate::specs::Contents::roots_fault))]
pub fn roots_fault(
    alloc: Global,
    compat_ro: u64,
    roots: &[RootAt],
) -> Result<Option<Finding>, NoMemory>
    ensures { IfOk result (λ found. found ≡ roots_fault compat_ro roots.now) }
{
    match repeated(alloc, roots)? {
        Some(found) => Ok(Some(found)),
        None => Ok(missing(compat_ro, roots)),
    }
}

// The finding on the first root item with the id of an earlier one.
fn repeated(alloc: Global, roots: &[RootAt]) -> Result<Option<Finding>, NoMemory>
    ensures { IfOk result (λ found. found ≡ repeated_after [] roots.now) }
{
    let mut seen = BTreeSet::new(alloc);
    for root in roots {
        let id = root.key.objectid;
        if seen.contains(&id) {
            return Ok(Some(finding(1, root.key)));
        }
        seen.insert(id)?;
    }
    Ok(None)
}

// The finding on the least of the ids 2, 4, 5 and 7 that no root item has, then on 11 where there is to be one.
fn missing(compat_ro: u64, roots: &[RootAt]) -> Option<Finding>
    ensures { result ≡ first_failing (missing_rows compat_ro roots.now) }
{
    if !is_named(roots, EXTENT_TREE) {
        return Some(missing_tree(EXTENT_TREE));
    }
    if !is_named(roots, DEV_TREE) {
        return Some(missing_tree(DEV_TREE));
    }
    if !is_named(roots, FS_TREE) {
        return Some(missing_tree(FS_TREE));
    }
    if !is_named(roots, CSUM_TREE) {
        return Some(missing_tree(CSUM_TREE));
    }
    if has_group_tree(compat_ro) && !is_named(roots, BLOCK_GROUP_TREE) {
        return Some(missing_tree(BLOCK_GROUP_TREE));
    }
    None
}

// Whether a root item names a tree.
fn is_named(roots: &[RootAt], id: u64) -> bool
    ensures { result ≡ list_any (names id) roots.now }
{
    roots.iter().any(|root| has_id(root, id))
}

// Whether this root item names a tree.
fn has_id(root: &RootAt, id: u64) -> bool
    ensures { result ≡ names id root.now }
{
    root.key.objectid == id
}

// The finding of a tree without a root item.
fn missing_tree(id: u64) -> Finding
    ensures { result ≡ missing_finding id }
{
    finding(
        2,
        Key {
            objectid: id,
            kind: ROOT_ITEM,
            offset: 0,
        },
    )
}

// A finding on the list of root items.
fn finding(number: u8, key: Key) -> Finding
    ensures { result ≡ roots_finding number key }
{
    Finding {
        rule: Rule {
            family: Family::X,
            number,
        },
        tree: ROOT_TREE,
        block: 0,
        key,
        detail: 0,
    }
}
