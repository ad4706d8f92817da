//! Where trees begin, in the order of the keys of their root items.

ghost use Rattle.std.specs.Prelude.{◌≡◌, ◌∷◌, ◌++◌, [], ◌↔◌, true, IfOk, IsTrue, OnOk};
ghost use Rattle.std.specs.List.{AllByRecursion};
ghost use Rattle.verdict.specs.OnDisk.{key_below};
ghost use Rattle.volume_items.specs.declared.root_at.RootAt.{RootAt as ARoot};
ghost use Rattle.chunk_map.specs.Roots.{KeysAscend};

use std::alloc::Global;
use verdict::NoMemory;
use volume_items::RootAt;

/// The same list, where its keys ascend. Of another list, which no accepted image has, those that have no greater key than one before
/// them are left out.
pub(crate) fn ascending(alloc: Global, roots: &[RootAt]) -> Result<Vec<RootAt>, NoMemory>
    ensures ascend { IfOk result (λ list. KeysAscend list.items) }
    ensures same { KeysAscend roots.now → IfOk result (λ list. list.items ≡ roots.now) }
{
    let mut list = Vec::new(alloc);
    for root in roots {
        if stands_behind(&list, root) {
            put(&mut list, *root)?;
        }
    }
    Ok(list)
}

// Whether the key of a root item is greater than all of some that ascend: than the last of these.
fn stands_behind(list: &[RootAt], root: &RootAt) -> bool
    requires { KeysAscend list.now }
    ensures { IsTrue result ↔
        AllByRecursion (λ (one : ARoot). key_below one.key (root.now).key ≡ true) list.now }
{
    match list.last() {
        Some(last) => last.key.is_below(&root.key),
        None => true,
    }
}

// Puts where a tree begins behind others.
fn put(list: &mut Vec<RootAt>, root: RootAt) -> Result<(), NoMemory>
    ensures { OnOk result (list.new.items ≡ list.old.items ++ root ∷ []) }
{
    Ok(list.push(root)?)
}
