//! The postings of a record to the accounts of extents and of references to them.

ghost use Rattle.std.specs.Prelude.{◌≡◌, ℕ, [], ◌∷◌, flat_map};
ghost use Rattle.extent_items.specs.ExtentItems.{extent_fields_in};
ghost use Rattle.accounts.specs.Kinds.{block_ref, extent_form};
ghost use Rattle.accounts.specs.Lent.{user_account, to};
ghost use Rattle.verdict.specs.declared.kinds.TheConstants.{METADATA_ITEM};
ghost use Rattle.accounts.specs.declared.kinds.TheConstants.{FORM_USES, USES};
ghost use Rattle.records.specs.Part.{part_of};
ghost use Rattle.records.specs.ExtentPostings.{extent_item_postings, extent_postings, range_postings, reference_account, reference_postings};

use accounts::{Ctx, Poster, User};
use extent_items::{ExtentItem, Reference};
use fs_items::{FileExtent, INLINE};
use records::Rec;
use std::alloc::Global;
use verdict::NoMemory;
use verdict::kinds::{
    EXTENT_DATA_REF, EXTENT_ITEM, METADATA_ITEM, SHARED_BLOCK_REF, TREE_BLOCK_REF,
};

/// Hands on what a record of a tree, by the tree's id, says of extents and of who refers to them: of blocks, extents,
/// references that are items of their own, and ranges of files. The accounts take their memory from this allocator.
/// Out of memory, a first part of the postings may be handed on; in a list, that part stands behind the old ones.
#[tactic(auto, unfolding(records::specs::ExtentPostings::extent_postings))]
pub fn post<C: Ctx, P: Poster>(
    alloc: Global,
    _ctx: &C,
    tree: u64,
    part: &Rec<'_>,
    into: &mut P,
) -> Result<(), NoMemory>
    ensures { P.Leaves into.old into.new result (extent_postings tree (part_of part.now)) }
{
    match part {
        Rec::Block { address, level } => post_block(alloc, tree, *address, *level, into),
        Rec::ExtentItem(item) => post_extent(alloc, item, into),
        Rec::KeyedRef(item) => post_reference(alloc, item.key.objectid, &item.reference, into),
        Rec::FileExtent(range) => post_range(alloc, tree, range, into),
        _ => Ok(()),
    }
}

// What a block of a tree says: the tree's id, the block's logical address and its level.
fn post_block<P: Poster>(
    alloc: Global,
    tree: u64,
    address: u64,
    level: u8,
    into: &mut P,
) -> Result<(), NoMemory>
    ensures { P.Leaves into.old into.new result
        (to (block_ref tree address) USES 1
        ∷ to (extent_form address METADATA_ITEM level) FORM_USES 1 ∷ []) }
{
    let user = User::Tree { root: tree };
    into.put_use(alloc, address, &user, METADATA_ITEM, u64::from(level))
}

// What an extent's item says, and the references in it.
fn post_extent<P: Poster>(
    alloc: Global,
    item: &ExtentItem<'_>,
    into: &mut P,
) -> Result<(), NoMemory>
    ensures { P.Leaves into.old into.new result (extent_item_postings (extent_fields_in item.now)) }
{
    into.put_extent(alloc, item.key, item.refs)?;
    post_references(alloc, item, into)
}

// What the references in an extent's item say.
fn post_references<P: Poster>(
    alloc: Global,
    item: &ExtentItem<'_>,
    into: &mut P,
) -> Result<(), NoMemory>
    ensures { P.Leaves into.old into.new result
        (flat_map (reference_postings item.now.key.objectid)
        (extent_fields_in item.now).references) }
{
    let address = item.key.objectid;
    for reference in item.references() {
        post_reference(alloc, address, &reference, into)?;
    }
    Ok(())
}

// What a reference to the extent at a logical address says, in its item or with an item of its own.
fn post_reference<P: Poster>(
    alloc: Global,
    address: u64,
    reference: &Reference,
    into: &mut P,
) -> Result<(), NoMemory>
    ensures { P.Leaves into.old into.new result (reference_postings address reference.now) }
{
    let user = user_of(reference);
    into.put_reference(alloc, address, &user, u64::from(reference.count))
}

// Who refers to an extent.
fn user_of(reference: &Reference) -> User
    ensures { (address : ℕ) →
        user_account address result ≡ reference_account address reference.now }
{
    match reference.kind {
        TREE_BLOCK_REF => User::Tree {
            root: reference.root,
        },
        EXTENT_DATA_REF => User::File {
            root: reference.root,
            ino: reference.objectid,
            origin: reference.offset,
        },
        SHARED_BLOCK_REF => User::Block {
            parent: reference.parent,
        },
        _ => User::Leaf {
            parent: reference.parent,
        },
    }
}

// What a range of a file says, if it has an extent on the disk: it is not inline, and no hole. The extent would begin
// at the byte `origin` of the file, modulo 2^64.
fn post_range<P: Poster>(
    alloc: Global,
    tree: u64,
    range: &FileExtent,
    into: &mut P,
) -> Result<(), NoMemory>
    ensures { P.Leaves into.old into.new result (range_postings tree range.now) }
{
    if range.sort == INLINE || range.extent == 0 {
        return Ok(());
    }
    let user = User::File {
        root: tree,
        ino: range.key.objectid,
        origin: range.key.offset.wrapping_sub(range.offset),
    };
    into.put_use(alloc, range.extent, &user, EXTENT_ITEM, range.extent_length)
}
