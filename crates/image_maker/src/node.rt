//! Nodes of a tree.

ghost use Rattle.std.specs.Prelude.{◌≡◌, ◌+◌, ◌*◌, ◌≤◌, ◌++◌, length, IfOk, OnOk};
ghost use Rattle.image_maker.specs.Sizes.{IsPointer, ArePointers};
ghost use Rattle.image_maker.specs.Accepted.{IsNodeOf};
ghost use Rattle.image_maker.specs.Blocks.{pointer_bytes, pointers_bytes, node_bytes, node_header};

use crate::block::{BlockHeader, block_of, header_fields, put_key};
use crate::fields::Fields;
use std::alloc::Global;
use verdict::{Bytes, Key, NoMemory};

/// What a node says of a block below it.
#[derive(Clone, Copy)]
pub struct ChildPointer {
    /// The first key of the child.
    pub key: Key,
    /// The child's logical address in bytes.
    pub address: u64,
    /// The child's generation.
    pub generation: u64,
}

/// A node with these pointers, of 33 bytes each from byte 101 on, and the right checksum. Where it has a
/// level above 0 and a pointer, and no pointer is newer, the block reader accepts it as the node of these
/// pointers, under each low and high key between which the pointers' keys ascend.
pub fn node_block(
    alloc: Global,
    nodesize: u32,
    fsid: &[u8; 16],
    address: u64,
    owner: u64,
    generation: u64,
    level: u8,
    pointers: &[ChildPointer],
) -> Result<Bytes, NoMemory>
    requires { 101 + 33 * length pointers.now ≤ nodesize }
    ensures exact { IfOk result (λ b.
        b ≡ node_bytes (node_header fsid.now address owner generation level)
        nodesize pointers.now) }
    ensures long { IfOk result (λ b. length b ≡ nodesize) }
    ensures reads { IfOk result (λ b.
        IsNodeOf (node_header fsid.now address owner generation level) pointers.now b) }
{
    let header = BlockHeader {
        fsid: *fsid,
        address,
        owner,
        generation,
        level,
    };
    block_with(alloc, nodesize, &header, pointers)
}

// The bytes of the node.
#[tactic(auto, unfolding(crate::specs::Blocks::node_bytes))]
fn block_with(
    alloc: Global,
    nodesize: u32,
    header: &BlockHeader,
    pointers: &[ChildPointer],
) -> Result<Bytes, NoMemory>
    requires { 101 + 33 * length pointers.now ≤ nodesize }
    ensures exact { IfOk result (λ b. b ≡ node_bytes header.now nodesize pointers.now) }
    ensures sizes { OnOk result (ArePointers pointers.now) }
{
    let mut fields = header_fields(alloc, header, pointers.len() as u32)?;
    put_pointers(&mut fields, pointers)?;
    fields.zeros(alloc, nodesize as usize - 101 - 33 * pointers.len())?;
    block_of(alloc, fields)
}

// Appends the pointers.
#[tactic(auto, using(crate::proofs::Parts::pointers_left, crate::proofs::Parts::pointers_none, crate::proofs::Keys::pointer_steps))]
fn put_pointers(fields: &mut Fields, pointers: &[ChildPointer]) -> Result<(), NoMemory>
    ensures put { OnOk result (fields.new ≡ fields.old ++ pointers_bytes pointers.now) }
    ensures sizes { OnOk result (ArePointers pointers.now) }
{
    for pointer in pointers {
        put_pointer(fields, pointer)?;
    }
    Ok(())
}

// Appends a pointer of 33 bytes.
#[tactic(auto, using(crate::proofs::Parts::pointer_joined, crate::proofs::Keys::pointer_sizes))]
fn put_pointer(fields: &mut Fields, pointer: &ChildPointer) -> Result<(), NoMemory>
    ensures put { OnOk result (fields.new ≡ fields.old ++ pointer_bytes pointer.now) }
    ensures sizes { OnOk result (IsPointer pointer.now) }
{
    put_key(fields, pointer.key)?;
    fields.eight(pointer.address)?;
    fields.eight(pointer.generation)
}
