//! The items that differ between two lists.

ghost use Rattle.std.specs.Prelude.{◌≡◌, [], ◌∷◌, ◌++◌, IfOk, OnOk, Some, slice_get};
ghost use Rattle.change_records.specs.Changes.{Ascend, AreChanges, is_before};
ghost use Rattle.change_records.specs.Next.{IsNext};

use records::ItemAt;
use std::alloc::Global;
use verdict::NoMemory;

/// A change of an item. The numbers are places in the two lists, from 0 on.
#[derive(Clone, Copy, Debug, PartialEq, Eq)]
pub enum ItemChange {
    /// The new list alone has an item of this tree and key.
    Added {
        /// Its place in the new list.
        new: u64,
    },
    /// The old list alone has an item of this tree and key.
    Removed {
        /// Its place in the old list.
        old: u64,
    },
    /// Both lists have an item of this tree and key, and the two say different things.
    Altered {
        /// Its place in the old list.
        old: u64,
        /// Its place in the new list.
        new: u64,
    },
}

/// Which list the next item by tree and key is of.
#[derive(Clone, Copy)]
enum Next {
    Old,
    New,
    Both,
}

/// The changes from a list of items to another, by tree and key. Both should ascend strictly by tree and
/// key. Items of one tree and key whose records say the same are no change, whatever their blocks, and
/// whatever bytes they have where no reader looks.
pub fn pair(alloc: Global, old: &[ItemAt], new: &[ItemAt]) -> Result<Vec<ItemChange>, NoMemory>
    ensures { Ascend old.now → Ascend new.now →
        IfOk result (λ changes. AreChanges old.now new.now changes.items) }
{
    let mut changes = Vec::new(alloc);
    let mut i = 0;
    let mut j = 0;
    while let Some(next) = next_of(old, i, new, j) {
        match next {
            Next::Old => {
                push(&mut changes, ItemChange::Removed { old: i as u64 })?;
                i += 1;
            }
            Next::New => {
                push(&mut changes, ItemChange::Added { new: j as u64 })?;
                j += 1;
            }
            Next::Both => {
                if !old[i].part.says_the_same(&new[j].part) {
                    let (old, new) = (i as u64, j as u64);
                    push(&mut changes, ItemChange::Altered { old, new })?;
                }
                i += 1;
                j += 1;
            }
        }
    }
    Ok(changes)
}

// Which list the item at `i` of the old one or at `j` of the new one is of that comes first by tree and key,
// or both where they have one. `None` exactly where both lists end there.
fn next_of(old: &[ItemAt], i: usize, new: &[ItemAt], j: usize) -> Option<Next>
    ensures { IsNext (slice_get old.now i) (slice_get new.now j) result }
{
    match (old.get(i), new.get(j)) {
        (None, None) => None,
        (Some(_), None) => Some(Next::Old),
        (None, Some(_)) => Some(Next::New),
        (Some(one), Some(other)) => Some(first_of(one, other)),
    }
}

// Which of two items comes first by tree and key.
fn first_of(one: &ItemAt, other: &ItemAt) -> Next
    ensures { IsNext (Some one.now) (Some other.now) (Some result) }
{
    if stands_before(one, other) {
        Next::Old
    } else if stands_before(other, one) {
        Next::New
    } else {
        Next::Both
    }
}

// Whether an item stands before another by tree and key.
#[tactic(auto, unfolding(crate::specs::Changes::is_before))]
fn stands_before(one: &ItemAt, other: &ItemAt) -> bool
    ensures { result ≡ is_before one.now other.now }
{
    one.tree < other.tree || (one.tree == other.tree && one.key.is_below(&other.key))
}

// Puts a change behind the others.
fn push(changes: &mut Vec<ItemChange>, change: ItemChange) -> Result<(), NoMemory>
    ensures { OnOk result (changes.new.items ≡ changes.old.items ++ change ∷ []) }
{
    Ok(changes.push(change)?)
}
