//! Leaves of a tree.

ghost use Rattle.std.specs.Prelude.{◌≡◌, ◌+◌, ◌-◌, ◌≤◌, ◌<◌, ◌^◌, [], ◌∷◌, ◌++◌, length, IfOk, OnOk, OnErr, nat_le, if◌then◌else◌};
ghost use Rattle.image_maker.specs.Leaf.{space_of};
ghost use Rattle.image_maker.specs.Accepted.{IsLeafOf};
ghost use Rattle.image_maker.specs.Sizes.{HaveKeys};
ghost use Rattle.image_maker.specs.Blocks.{head_bytes, heads_bytes, data_bytes, leaf_bytes};

use crate::block::{BlockHeader, block_of, header_fields, put_key};
use crate::fields::Fields;
use crate::leaf_item::LeafItem;
use std::alloc::Global;
use verdict::{Bytes, Key, NoMemory};

/// Makes a leaf out of its items, which are pushed in rising order of their keys.
#[derive(Drop)]
pub struct LeafMaker {
    alloc: Global,
    nodesize: u32,
    header: BlockHeader,
    items: Vec<LeafItem>,
    used: usize,
    ghost leaf: { header.level ≡ 0 },
    ghost keys: { HaveKeys items.items },
    ghost inside: { 101 + used ≤ nodesize },
    ghost sizes: { used ≡ space_of items.items },
}

impl LeafMaker {
    ghost use Rattle.image_maker.specs.Maker.{items_of, nodesize_of, header_of, leaf_header, item};

    /// A maker with no item yet, of a leaf of `nodesize` bytes at a logical address.
    #[tactic(auto, using(crate::proofs::Keys::no_keys))]
    pub fn new(
        alloc: Global,
        nodesize: u32,
        fsid: &[u8; 16],
        address: u64,
        owner: u64,
        generation: u64,
    ) -> LeafMaker
        requires { 4096 ≤ nodesize }
        ensures empty { items_of result ≡ [] }
        ensures size { nodesize_of result ≡ nodesize }
        ensures header { header_of result ≡ leaf_header fsid.now address owner generation }
    {
        LeafMaker {
            alloc,
            nodesize,
            header: BlockHeader {
                fsid: *fsid,
                address,
                owner,
                generation,
                level: 0,
            },
            items: Vec::new(alloc),
            used: 0,
        }
    }

    /// Appends an item with a copy of these bytes, whose key is to be above the last. `false` exactly
    /// where the item does not fit. Then, and out of memory, all stays.
    #[tactic(auto, using(crate::proofs::Space::space_after_item, crate::proofs::Keys::keys_after_item))]
    pub fn push(&mut self, key: Key, bytes: &[u8]) -> Result<bool, NoMemory>
        ensures size { nodesize_of self.new ≡ nodesize_of self.old }
        ensures header { header_of self.new ≡ header_of self.old }
        ensures fits { IfOk result (λ fits. fits ≡
            nat_le (126 + space_of (items_of self.old) + length bytes.now) (nodesize_of self.old)) }
        ensures items { IfOk result (λ fits. items_of self.new ≡
            (if fits then items_of self.old ++ item key bytes.now ∷ [] else items_of self.old)) }
        ensures stays { OnErr result (items_of self.new ≡ items_of self.old) }
    {
        if bytes.len() > self.nodesize as usize - 101 - self.used {
            return Ok(false);
        }
        if bytes.len() + 25 > self.nodesize as usize - 101 - self.used {
            return Ok(false);
        }
        let space = bytes.len() + 25;
        let bytes = Bytes::of(self.alloc, bytes)?;
        self.items.push(LeafItem { key, bytes })?;
        self.used += space;
        Ok(true)
    }

    /// The leaf, with its header, its items and the right checksum. The block reader accepts it as the
    /// leaf of these items, under each low and high key between which the items' keys ascend.
    pub fn finish(self) -> Result<Bytes, NoMemory>
        ensures exact { IfOk result (λ b.
            b ≡ leaf_bytes (header_of self) (nodesize_of self) (items_of self)) }
        ensures long { IfOk result (λ b. length b ≡ nodesize_of self) }
        ensures reads { IfOk result (λ b. IsLeafOf (header_of self) (items_of self) b) }
    {
        self.block()
    }

    // The bytes of the leaf.
    #[tactic(auto, using(crate::proofs::Space::count_within_space), unfolding(crate::specs::Blocks::leaf_bytes))]
    fn block(&self) -> Result<Bytes, NoMemory>
        ensures { IfOk result (λ b.
            b ≡ leaf_bytes (header_of self.now) (nodesize_of self.now) (items_of self.now)) }
    {
        let room = self.nodesize as usize - 101;
        let mut fields = header_fields(self.alloc, &self.header, self.items.len() as u32)?;
        put_heads(&mut fields, &self.items, room)?;
        fields.zeros(self.alloc, room - self.used)?;
        put_data(&mut fields, &self.items)?;
        block_of(self.alloc, fields)
    }
}

// Appends the heads of items whose bytes fill the leaf down from an offset, counted from the end of the
// header.
#[tactic(auto, using(crate::proofs::Parts::heads_left, crate::proofs::Parts::heads_none, crate::proofs::Space::space_left))]
fn put_heads(fields: &mut Fields, items: &[LeafItem], end: usize) -> Result<(), NoMemory>
    requires fits { space_of items.now ≤ end }
    requires small { end < 2 ^ 32 }
    ensures { OnOk result (fields.new ≡ fields.old ++ heads_bytes end items.now) }
{
    let mut start = end;
    for item in items {
        start -= item.bytes.as_slice().len();
        put_head(fields, item, start as u32)?;
    }
    Ok(())
}

// Appends the head of an item whose bytes begin at an offset.
#[tactic(auto, using(crate::proofs::Parts::head_joined))]
fn put_head(fields: &mut Fields, item: &LeafItem, offset: u32) -> Result<(), NoMemory>
    requires { length item.now.bytes < 2 ^ 32 }
    ensures { OnOk result (fields.new ≡ fields.old ++ head_bytes item.now offset) }
{
    put_key(fields, item.key)?;
    fields.four(offset)?;
    fields.four(item.bytes.as_slice().len() as u32)
}

// Appends the bytes of the items, those of the last item first.
#[tactic(auto, using(crate::proofs::Parts::data_more, crate::proofs::Parts::data_none))]
fn put_data(fields: &mut Fields, items: &[LeafItem]) -> Result<(), NoMemory>
    ensures { OnOk result (fields.new ≡ fields.old ++ data_bytes items.now) }
{
    let mut left = items.len();
    while left > 0 {
        left -= 1;
        fields.bytes(items[left].bytes.as_slice())?;
    }
    Ok(())
}
