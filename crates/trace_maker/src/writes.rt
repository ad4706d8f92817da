//! The writes of a commit.

ghost use Rattle.std.specs.Prelude.{◌≡◌, ◌+◌, ◌*◌, ◌%◌, ◌<◌, ◌≤◌, [], ◌∷◌, length, replicate, IfOk, OnOk};
ghost use Rattle.std.specs.List.{All};
ghost use Rattle.trace_reader.specs.Trace.{IsBytes};
ghost use Rattle.trace_maker.specs.Made.{IsDataOf, IsSuperblockWrite, IsWriteBy, sectors_of};
ghost use Rattle.trace_maker.specs.Writes.{HasMore};
ghost use Rattle.volume_maker.specs.Live.{blocks_of};
ghost use Rattle.verdict.specs.Events.{begin_of, length_of};
ghost use Rattle.verdict.specs.declared.machine.Event.TheVariants.{Write};

use crate::operation::Operation;
use image_maker::{superblock_of, with_checksum};
use recon_bytes::put_u64;
use std::alloc::Global;
use verdict::{Bytes, Event, NoMemory, SUPERBLOCK_AT};
use volume_maker::{Block, Tree, block_address, sector_place};

// How many sectors of data an operation writes.
fn sectors_of(op: &Operation) -> u8
    ensures { result ≡ sectors_of op.now }
{
    match op {
        Operation::Filled { sectors, .. } => *sectors,
        Operation::Subvolume { .. } => 0,
        Operation::Directory { .. } => 0,
        Operation::File { .. } => 0,
        Operation::Shared { .. } => 0,
        Operation::Removed { .. } => 0,
    }
}

// The write of so many sectors of the byte k modulo 256.
fn data_write(alloc: Global, k: u32, sectors: u8, sector: u16) -> Result<Event, NoMemory>
    requires { 0 < sectors }
    ensures data { IfOk result (λ write. write ≡
        Write 1 (22020096 + 4096 * sector) (replicate (4096 * sectors) (k % 256))) }
    ensures lawful { IfOk result (IsWriteBy 1) }
{
    let bytes = vec![in alloc; (k % 256) as u8; 4096 * sectors as usize]?;
    Ok(Event::Write {
        submitter: 1,
        at: sector_place(sector),
        bytes: Bytes::from(bytes),
    })
}

/// The writes of the data of the operation of commit k, of which the first sector stands in this place.
pub fn data_writes(
    alloc: Global,
    k: u32,
    op: &Operation,
    sector: u16,
) -> Result<Vec<Event>, NoMemory>
    ensures data { IfOk result (λ events. IsDataOf k op.now sector events.items) }
    ensures lawful { IfOk result (λ events. All (IsWriteBy 1) events.items) }
    // The data chunk stands behind all tree blocks.
    ensures behind { IfOk result (λ events. All (λ e. 22020096 ≤ begin_of e) events.items) }
{
    let sectors = sectors_of(op);
    if sectors == 0 {
        return Ok(Vec::new(alloc));
    }
    let write = data_write(alloc, k, sectors, sector)?;
    Ok(Vec::from_array(alloc, [write])?)
}

// A copy of these bytes, each of which is one.
fn held(alloc: Global, bytes: &[u8]) -> Result<Bytes, NoMemory>
    ensures same { IfOk result (λ held. held ≡ bytes.now) }
    ensures lawful { IfOk result IsBytes }
{
    Bytes::of(alloc, bytes)
}

// The write of a copy of a block, which lies so far behind the first.
fn block_write(alloc: Global, block: &Block, copy: u64) -> Result<Event, NoMemory>
    requires { copy ≤ 8388608 }
    ensures lawful { IfOk result (IsWriteBy 0) }
    ensures place { IfOk result (λ write.
        begin_of write ≡ 5242880 + 16384 * block.now.at.number + copy) }
    ensures size { IfOk result (λ write. length_of write ≡ 16384) }
{
    Ok(Event::Write {
        submitter: 0,
        at: block_address(block.at.number) + copy,
        bytes: held(alloc, block.bytes.as_slice())?,
    })
}

// Adds the write of a copy of a block, if it has this generation.
#[tactic(auto, using(crate::proofs::Gathering::has_none, crate::proofs::Gathering::has_one))]
fn add_block(
    alloc: Global,
    into: &mut Vec<Event>,
    block: &Block,
    copy: u64,
    generation: u64,
) -> Result<(), NoMemory>
    requires { copy ≤ 8388608 }
    ensures { OnOk result
        (HasMore generation (block.now.at ∷ []) copy into.old.items into.new.items) }
{
    if block.at.generation != generation {
        return Ok(());
    }
    let write = block_write(alloc, block, copy)?;
    Ok(into.push(write)?)
}

/// Adds the writes of a copy of each block of a tree that has this generation. The copy lies so far behind
/// the first.
pub fn add_tree(
    alloc: Global,
    into: &mut Vec<Event>,
    tree: &Tree,
    copy: u64,
    generation: u64,
) -> Result<(), NoMemory>
    requires { copy ≤ 8388608 }
    ensures { OnOk result
        (HasMore generation (blocks_of tree.now) copy into.old.items into.new.items) }
{
    for leaf in &tree.leaves {
        add_block(alloc, into, leaf, copy, generation)?;
    }
    add_block(alloc, into, &tree.root, copy, generation)?;
    Ok(())
}

// The superblock of a generation.
fn superblock(generation: u64, root: &Block, bytes_used: u64) -> [u8; 4096]
    ensures { length result ≡ 4096 }
{
    let mut bytes = superblock_of(generation, block_address(root.at.number));
    put_u64(&mut bytes, 0x78, bytes_used);
    bytes[0xc6] = root.at.level;
    with_checksum(&mut bytes);
    bytes
}

/// The write of the superblock of a generation.
pub fn superblock_write(
    alloc: Global,
    generation: u64,
    root: &Block,
    bytes_used: u64,
) -> Result<Event, NoMemory>
    ensures { IfOk result IsSuperblockWrite }
{
    Ok(Event::Write {
        submitter: 0,
        at: SUPERBLOCK_AT,
        bytes: held(alloc, &superblock(generation, root, bytes_used))?,
    })
}
