//! The bytes of items that the base image has none of.

ghost use Rattle.std.specs.Prelude.{◌≡◌, ◌<◌, ◌^◌, ◌++◌, flat_map, length, IfOk, OnOk};
ghost use Rattle.volume_maker.specs.Items.{inode_bytes, extent_length, file_extent_bytes, reference_bytes, inline_bytes, extent_bytes, sums_bytes, root_link_bytes};

use crate::kinds::{EXTENT_DATA_REF, FS_TREE, TOP};
use crate::space::sector_address;
use crate::volume::Extent;
use image_maker::Fields;
use std::alloc::Global;
use verdict::{Bytes, NoMemory};

/// What an INODE_ITEM says of an inode with one link.
#[derive(Clone, Copy)]
pub struct InodeAt {
    /// The generation that made it.
    pub generation: u64,
    /// Its size in bytes.
    pub size: u64,
    /// The bytes that its extents have.
    pub nbytes: u64,
    /// Its type and its permissions.
    pub mode: u32,
    /// Its flags.
    pub flags: u64,
}

/// An INODE_ITEM of 160 bytes.
#[tactic(auto, unfolding(crate::specs::Items::inode_bytes))]
pub fn inode_bytes(alloc: Global, inode: &InodeAt) -> Result<Bytes, NoMemory>
    ensures { IfOk result (λ b. b ≡ inode_bytes inode.now) }
{
    let mut fields = Fields::new(alloc);
    fields.eight(inode.generation)?;
    fields.eight(0)?;
    fields.eight(inode.size)?;
    fields.eight(inode.nbytes)?;
    fields.eight(0)?;
    fields.four(1)?;
    fields.eight(0)?;
    fields.four(inode.mode)?;
    fields.eight(0)?;
    fields.eight(inode.flags)?;
    fields.zeros(alloc, 88)?;
    Ok(fields.finish())
}

/// The length of an extent in bytes.
pub fn extent_length(extent: &Extent) -> u64
    ensures { result ≡ extent_length extent.now }
{
    4096 * u64::from(extent.sectors)
}

/// The EXTENT_DATA of a file that shows a whole extent from its first byte on, 53 bytes.
#[tactic(auto, unfolding(crate::specs::Items::file_extent_bytes))]
pub fn file_extent_bytes(alloc: Global, generation: u64, extent: &Extent) -> Result<Bytes, NoMemory>
    ensures { IfOk result (λ b. b ≡ file_extent_bytes generation extent.now) }
{
    let length = extent_length(extent);
    let (first, shown) = (0, length);
    let sort = if extent.preallocated { 2 } else { 1 };
    let mut fields = Fields::new(alloc);
    fields.eight(generation)?;
    fields.eight(length)?;
    fields.four(0)?;
    fields.one(sort)?;
    fields.eight(sector_address(extent.sector))?;
    fields.eight(length)?;
    fields.eight(first)?;
    fields.eight(shown)?;
    Ok(fields.finish())
}

/// The reference of a file of the file tree to an extent that it shows from its first byte on, in the 28
/// bytes that it has inline and in an item of its own.
#[tactic(auto, unfolding(crate::specs::Items::reference_bytes))]
pub fn reference_bytes(alloc: Global, ino: u64) -> Result<Bytes, NoMemory>
    ensures { IfOk result (λ b. b ≡ reference_bytes ino) }
{
    let mut fields = Fields::new(alloc);
    fields.eight(FS_TREE)?;
    fields.eight(ino)?;
    fields.eight(0)?;
    fields.four(1)?;
    Ok(fields.finish())
}

// Appends the reference of a file as it stands inline.
#[tactic(auto, unfolding(crate::specs::Items::inline_bytes))]
fn put_inline(alloc: Global, fields: &mut Fields, ino: u64) -> Result<(), NoMemory>
    ensures { OnOk result (fields.new ≡ fields.old ++ inline_bytes ino) }
{
    let reference = reference_bytes(alloc, ino)?;
    fields.one(EXTENT_DATA_REF)?;
    fields.bytes(reference.as_slice())
}

// The references of these files as they stand inline.
fn inline_references(alloc: Global, inline: &[u64]) -> Result<Bytes, NoMemory>
    ensures { IfOk result (λ b. b ≡ flat_map inline_bytes inline.now) }
{
    let mut fields = Fields::new(alloc);
    for ino in inline {
        put_inline(alloc, &mut fields, *ino)?;
    }
    Ok(fields.finish())
}

/// An EXTENT_ITEM with so many references in all, of which these files' are inline.
#[tactic(auto, unfolding(crate::specs::Items::extent_bytes))]
pub fn extent_bytes(
    alloc: Global,
    generation: u64,
    count: u64,
    inline: &[u64],
) -> Result<Bytes, NoMemory>
    ensures { IfOk result (λ b. b ≡ extent_bytes generation count inline.now) }
{
    let references = inline_references(alloc, inline)?;
    let mut fields = Fields::new(alloc);
    fields.eight(count)?;
    fields.eight(generation)?;
    fields.eight(1)?;
    fields.bytes(references.as_slice())?;
    Ok(fields.finish())
}

/// The EXTENT_CSUM of so many sectors that have one sum.
#[tactic(auto, using(crate::proofs::Sums::no_sums, crate::proofs::Sums::one_sum_more))]
pub fn sums_bytes(alloc: Global, sum: u32, sectors: u8) -> Result<Bytes, NoMemory>
    ensures { IfOk result (λ b. b ≡ sums_bytes sum sectors) }
{
    let mut fields = Fields::new(alloc);
    for _sector in 0..sectors {
        fields.four(sum)?;
    }
    Ok(fields.finish())
}

/// A ROOT_REF or a ROOT_BACKREF of a subvolume in the top directory.
#[tactic(auto, unfolding(crate::specs::Items::root_link_bytes))]
pub fn root_link_bytes(alloc: Global, sequence: u64, name: &[u8]) -> Result<Bytes, NoMemory>
    requires { length name.now < 2 ^ 16 }
    ensures { IfOk result (λ b. b ≡ root_link_bytes sequence name.now) }
{
    let mut fields = Fields::new(alloc);
    fields.eight(TOP)?;
    fields.eight(sequence)?;
    fields.two(name.len() as u16)?;
    fields.bytes(name)?;
    Ok(fields.finish())
}
