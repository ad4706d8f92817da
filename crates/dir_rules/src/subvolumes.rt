//! What root items and the names of subvolumes post.

ghost use Rattle.std.specs.Prelude.{◌≡◌, [], ◌∷◌};
ghost use Rattle.accounts.specs.Kinds as kinds;
ghost use Rattle.accounts.specs.declared.kinds.TheConstants.{FROM_PARENT, ROOT_REFS_FOUND, SUBVOLUME_REFS};
ghost use Rattle.records.specs.DirPostings.{root_link_postings, root_postings};
ghost use Rattle.volume_items.specs.RootLinkItems.{link_fields_in};
ghost use Rattle.accounts.specs.Lent.{to};

use crate::entries::add;
use accounts::kinds::{FROM_CHILD, FROM_PARENT, ROOT_REFS_FOUND, ROOT_REFS_SAID, SUBVOLUME_REFS};
use accounts::{Account, Poster};
use std::alloc::Global;
use verdict::kinds::ROOT_REF;
use verdict::{NoMemory, is_free_id};
use volume_items::{RootItem, RootLink};

// Posts what a root item says: how often its tree is named, where that is a subvolume.
pub fn post_root<P: Poster>(alloc: Global, item: &RootItem, into: &mut P) -> Result<(), NoMemory>
    ensures { P.Leaves into.old into.new result (root_postings item.now) }
{
    let id = item.key.objectid;
    if !is_free_id(id) {
        return Ok(());
    }
    add(
        Account::subvolume(alloc, id),
        ROOT_REFS_SAID,
        u64::from(item.refs),
        into,
    )
}

// Posts the name of a subvolume, from one of its two sides: the key has the parent and then the child, or the
// reverse. Out of memory, a first part of the postings may be handed on.
pub fn post_root_link<P: Poster>(
    alloc: Global,
    item: &RootLink<'_>,
    into: &mut P,
) -> Result<(), NoMemory>
    ensures { P.Leaves into.old into.new result (root_link_postings (link_fields_in item.now)) }
{
    let (objectid, offset) = (item.key.objectid, item.key.offset);
    if item.key.kind == ROOT_REF {
        post_root_ref(alloc, objectid, offset, item, into)
    } else {
        post_pair(alloc, offset, objectid, FROM_CHILD, item, into)
    }
}

// The name of a subvolume from its parent's side.
fn post_root_ref<P: Poster>(
    alloc: Global,
    parent: u64,
    child: u64,
    item: &RootLink<'_>,
    into: &mut P,
) -> Result<(), NoMemory>
    ensures { let link = item.now in
        P.Leaves into.old into.new result
        (to (kinds.subvolume_entry parent child link.dirid link.sequence link.name.now)
        SUBVOLUME_REFS 1
        ∷ to (kinds.subvolume_pair parent child link.dirid link.sequence link.name.now)
        FROM_PARENT 1
        ∷ to (kinds.subvolume child) ROOT_REFS_FOUND 1 ∷ []) }
{
    post_entry(alloc, parent, child, item, into)?;
    post_pair(alloc, parent, child, FROM_PARENT, item, into)?;
    post_child(alloc, child, into)
}

// The name as an entry of the parent has it.
fn post_entry<P: Poster>(
    alloc: Global,
    parent: u64,
    child: u64,
    item: &RootLink<'_>,
    into: &mut P,
) -> Result<(), NoMemory>
    ensures { let link = item.now in
        P.Leaves into.old into.new result
        (to (kinds.subvolume_entry parent child link.dirid link.sequence link.name.now)
        SUBVOLUME_REFS 1 ∷ []) }
{
    let (dir, index) = (item.dirid, item.sequence);
    let account = Account::subvolume_entry(alloc, parent, child, dir, index, item.name)?;
    add(account, SUBVOLUME_REFS, 1, into)
}

// The name as both sides have it, to the sum of the parent or of the child.
fn post_pair<P: Poster>(
    alloc: Global,
    parent: u64,
    child: u64,
    field: u8,
    item: &RootLink<'_>,
    into: &mut P,
) -> Result<(), NoMemory>
    ensures { let link = item.now in
        P.Leaves into.old into.new result
        (to (kinds.subvolume_pair parent child link.dirid link.sequence link.name.now) field 1
        ∷ []) }
{
    let (dir, index) = (item.dirid, item.sequence);
    let account = Account::subvolume_pair(alloc, parent, child, dir, index, item.name)?;
    add(account, field, 1, into)
}

// A subvolume is named once more.
fn post_child<P: Poster>(alloc: Global, child: u64, into: &mut P) -> Result<(), NoMemory>
    ensures { P.Leaves into.old into.new result
        (to (kinds.subvolume child) ROOT_REFS_FOUND 1 ∷ []) }
{
    add(Account::subvolume(alloc, child), ROOT_REFS_FOUND, 1, into)
}
