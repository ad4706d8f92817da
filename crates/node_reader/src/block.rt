//! A tree block that breaks no rule, lent with its bytes.

ghost use Rattle.std.specs.Prelude.{◌≡◌, ◌<◌, length, drop, true, IfOk};
ghost use Rattle.recon_crc.specs.Checksum.{crc32c_of};
ghost use Rattle.verdict.specs.Trees.{is_node_size};
ghost use Rattle.node_reader.specs.Layout.{count_of, level_of, owner_of, first_key_of, pointer_of, item_of};
ghost use Rattle.node_reader.specs.Faults.{block_of};

use crate::entries::{HEADER, ITEM, POINTER};
use crate::rules::{fault_of, sum_of};
use crate::{Expect, Pointer};
use recon_bytes::{get_u32, get_u64};
use std::marker::Model;
use verdict::{Finding, Key, get_key};

/// A tree block that breaks no rule, seen as its bytes.
#[derive(Drop)]
pub struct Block<'a> {
    bytes: &'a [u8],
    count: u32,
}

impl<'a> Model for Block<'a> {
    ghost use Rattle.std.specs.Prelude.{ℕ, List, ◌≡◌};
    ghost use Rattle.node_reader.specs.Layout.{IsSound, count_of};

    ghost Value = { List ℕ };

    ghost view = { λ b. b.bytes.now };

    ghost invariant = { λ b. IsSound b.bytes.now × (b.count ≡ count_of b.bytes.now) };
}

/// The block in these bytes, which have one of the five node sizes, where it breaks no rule for what is
/// expected of it in the file system with this id. Else the finding of the first rule that it breaks, with
/// the expected tree, the address as block and the low key, in the order checksum (N3), file system (N4),
/// address (N5), relocation (U12), owner (N6), generation (N7), level (N8), number of entries (N9), first
/// key (N10), order of keys (N11), last key (N12), a pointer's generation (N13), an item's place (N14).
pub fn read_block<'a>(
    bytes: &'a [u8],
    fsid: &[u8; 16],
    expect: &Expect,
) -> Result<Block<'a>, Finding>
    requires { is_node_size (length bytes.now) ≡ true }
    ensures block { result ≡ block_of bytes.now fsid.now expect.now }
    ensures level { IfOk result (λ b. level_of b ≡ expect.now.level) }
{
    read_block_summed(bytes, fsid, expect, sum_of(bytes))
}

/// The same of bytes whose checksum is known: `sum` is the CRC-32C of the bytes from 0x20 on, as it is computed of them and not as the
/// header has it. So the blocks whose sums were taken side by side are not summed again.
#[tactic(auto, using(crate::proofs::Sound::block_steps))]
pub fn read_block_summed<'a>(
    bytes: &'a [u8],
    fsid: &[u8; 16],
    expect: &Expect,
    sum: u32,
) -> Result<Block<'a>, Finding>
    requires size { is_node_size (length bytes.now) ≡ true }
    requires sum { sum ≡ crc32c_of (drop 0x20 bytes.now) }
    ensures block { result ≡ block_of bytes.now fsid.now expect.now }
    ensures level { IfOk result (λ b. level_of b ≡ expect.now.level) }
{
    match fault_of(bytes, fsid, expect, sum) {
        Some(finding) => Err(finding),
        None => {
            let count = get_u32(bytes, 0x60);
            Ok(Block { bytes, count })
        },
    }
}

impl<'a> Block<'a> {
    /// How many pointers or items the block has.
    pub fn count(&self) -> u32
        ensures { result ≡ count_of self.now }
    {
        self.count
    }

    /// The id of the tree that the header names as the owner, at byte 0x58.
    pub fn owner(&self) -> u64
        ensures { result ≡ owner_of self.now }
    {
        get_u64(self.bytes, 0x58)
    }

    /// The key of the first pointer or item, or `None` for an empty leaf.
    pub fn first_key(&self) -> Option<Key>
        ensures { result ≡ first_key_of self.now }
    {
        if self.count == 0 {
            None
        } else {
            Some(get_key(self.bytes, HEADER))
        }
    }

    /// The pointer at place `i` of a node, counted from 0.
    pub fn pointer(&self, i: u32) -> Pointer
        requires node { 0 < level_of self.now }
        requires below { i < count_of self.now }
        ensures { result ≡ pointer_of self.now i }
    {
        let start = HEADER + POINTER * i as usize;
        Pointer {
            key: get_key(self.bytes, start),
            address: get_u64(self.bytes, start + 17),
            generation: get_u64(self.bytes, start + 25),
        }
    }

    /// The item at place `i` of a leaf, counted from 0: its key, and its bytes, which are the block's own.
    pub fn item(&self, i: u32) -> (Key, &'a [u8])
        requires leaf { level_of self.now ≡ 0 }
        requires below { i < count_of self.now }
        ensures key { result.0 ≡ (item_of self.now i).key }
        ensures bytes { result.1.now ≡ (item_of self.now i).bytes }
    {
        let entry = HEADER + ITEM * i as usize;
        let start = HEADER + get_u32(self.bytes, entry + 17) as usize;
        let size = get_u32(self.bytes, entry + 21) as usize;
        (get_key(self.bytes, entry), &self.bytes[start..start + size])
    }
}
