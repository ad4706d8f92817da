//! References: who uses an extent.

ghost use Rattle.std.specs.Prelude.{◌≡◌, ◌≤◌, length};
ghost use Rattle.extent_items.specs.References.{body_size, count_at, extent_data_ref, inline_reference, shared_block_ref, shared_data_ref, tree_block_ref};

use recon_bytes::{get_u32, get_u64};
use verdict::kinds::{EXTENT_DATA_REF, SHARED_BLOCK_REF, SHARED_DATA_REF, TREE_BLOCK_REF};

/// A reference to an extent. A field that its kind lacks is 0.
#[derive(Clone, Copy, Debug, PartialEq, Eq)]
pub struct Reference {
    /// The kind: 176 and 182 of a tree block, 178 and 184 of data; 176 and 178 by a tree, 182 and 184 by
    /// a block.
    pub kind: u8,
    /// The id of the tree, of 176 and 178.
    pub root: u64,
    /// The inode number of the file, of 178.
    pub objectid: u64,
    /// The file offset in bytes where the whole extent would begin, of 178.
    pub offset: u64,
    /// The logical address of the block in bytes, of 182 and 184.
    pub parent: u64,
    /// How often the extent is used so: 1 for 176 and 182.
    pub count: u32,
}

impl Reference {
    // A use of a tree block by a tree.
    pub(crate) fn by_tree(root: u64) -> Reference
        ensures { result ≡ tree_block_ref root }
    {
        Reference {
            kind: TREE_BLOCK_REF,
            root,
            objectid: 0,
            offset: 0,
            parent: 0,
            count: 1,
        }
    }

    // A use of data by a file: the fields as an item or the body of an inline reference has them.
    pub(crate) fn by_file(fields: &[u8]) -> Reference
        requires { 28 ≤ length fields.now }
        ensures { result ≡ extent_data_ref fields.now }
    {
        Reference {
            kind: EXTENT_DATA_REF,
            root: get_u64(fields, 0),
            objectid: get_u64(fields, 8),
            offset: get_u64(fields, 16),
            parent: 0,
            count: get_u32(fields, 24),
        }
    }

    // A use of a tree block by a block.
    pub(crate) fn by_node(parent: u64) -> Reference
        ensures { result ≡ shared_block_ref parent }
    {
        Reference {
            kind: SHARED_BLOCK_REF,
            root: 0,
            objectid: 0,
            offset: 0,
            parent,
            count: 1,
        }
    }

    // Uses of data by a leaf.
    pub(crate) fn by_leaf(parent: u64, count: u32) -> Reference
        ensures { result ≡ shared_data_ref parent count }
    {
        Reference {
            kind: SHARED_DATA_REF,
            root: 0,
            objectid: 0,
            offset: 0,
            parent,
            count,
        }
    }
}

/// The references of an extent's item that are left, in the order of its bytes.
#[derive(Clone, Copy, Debug, Drop)]
pub struct References<'a> {
    pub(crate) left: &'a [u8],
}

impl<'a> Iterator for References<'a> {
    ghost use Rattle.std.specs.Iterator.{YieldsFirst, item_count};
    ghost use Rattle.extent_items.specs.ExtentItems.{references_left};

    type Item = Reference;

    ghost next_gives = { YieldsFirst references_left };

    ghost remaining = { item_count references_left };

    fn next(&mut self) -> Option<Reference> {
        let (&kind, body) = self.left.split_first()?;
        let size = body_size(kind);
        if body.len() < size {
            return None;
        }
        self.left = &body[size..];
        Some(inline_reference(kind, body))
    }
}

/// How many bytes the body of an inline reference of a kind has.
pub(crate) fn body_size(kind: u8) -> usize
    ensures { result ≡ body_size kind }
{
    match kind {
        TREE_BLOCK_REF | SHARED_BLOCK_REF => 8,
        EXTENT_DATA_REF => 28,
        _ => 12,
    }
}

/// Where the body of an inline reference to data has its count.
pub(crate) fn count_at(kind: u8) -> u64
    ensures { result ≡ count_at kind }
{
    match kind {
        EXTENT_DATA_REF => 24,
        _ => 8,
    }
}

/// The inline reference of a kind, whose body begins here.
#[tactic(auto, unfolding(crate::specs::References::inline_reference))]
pub(crate) fn inline_reference(kind: u8, body: &[u8]) -> Reference
    requires { body_size kind ≤ length body.now }
    ensures { result ≡ inline_reference kind body.now }
{
    match kind {
        TREE_BLOCK_REF => Reference::by_tree(get_u64(body, 0)),
        EXTENT_DATA_REF => Reference::by_file(body),
        SHARED_BLOCK_REF => Reference::by_node(get_u64(body, 0)),
        _ => Reference::by_leaf(get_u64(body, 0), get_u32(body, 8)),
    }
}
