//! The superblock of an image.

ghost use Rattle.std.specs.Prelude.{◌≡◌, ◌≤◌, IfOk, IfSome, OnOk};
ghost use Rattle.verdict.specs.Image.{range};
ghost use Rattle.super_reader.specs.Superblock.{IsReadable};
ghost use Rattle.recon_disk.specs.Keeping.{Kept};
ghost use Rattle.recon_disk.specs.Outside.{counted};
ghost use Rattle.write_cache.specs.Cache.{overlaid};
ghost use Rattle.records.specs.Contents.{superblock_in};
ghost use Rattle.block_source.specs.Gives.{Gives, is_disk_halt};
ghost use Rattle.block_source.specs.Takes.{handing};

use block_source::{Halt, read_under};
use recon_disk::Disk;
use super_reader::{Super, read_super};
use verdict::{Family, Finding, SUPERBLOCK_AT, SUPERBLOCK_SIZE};
use write_cache::WriteCache;

// A superblock: its bytes, and what they say.
#[derive(Clone, Copy)]
pub struct Superblock {
    // The bytes of its place.
    pub raw: [u8; 4096],
    // What they say.
    pub sup: Super,
}

// Reads the superblock of a disk of `end` bytes with the pending writes over them, or gives its first finding. It is one
// read of the disk.
pub fn read_superblock<D: Disk>(
    disk: &mut D,
    cache: &WriteCache,
    end: u64,
) -> Result<Superblock, Halt>
    requires end { end ≡ D.len disk.old }
    ensures gives { Gives D.Disk disk.old cache.now
        (handing (λ block. block.sup) result) superblock_in }
    ensures raw { IfOk result (λ block. IfSome (D.bytes disk.old)
        (λ image. block.raw ≡ range 65536 4096 (overlaid cache.now 0 image))) }
    ensures readable { IfOk result (λ block. IsReadable block.sup) }
    ensures room { OnOk result (69632 ≤ end) }
    ensures reads { OnOk result (D.reads disk.new ≡ counted (D.reads disk.old)) }
    ensures kept { Kept D.Disk disk.old disk.new (is_disk_halt result) }
{
    if end < SUPERBLOCK_AT + SUPERBLOCK_SIZE {
        return Err(Halt::Found(Finding::of_image(Family::S, 1, end)));
    }
    let mut raw = [0u8; SUPERBLOCK_SIZE as usize];
    read_under(disk, cache, SUPERBLOCK_AT, &mut raw)?;
    match read_super(&raw) {
        Ok(sup) => Ok(Superblock { raw, sup }),
        Err(finding) => Err(Halt::Found(finding)),
    }
}
