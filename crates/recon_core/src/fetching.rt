//! A read with the pending writes over it.

ghost use Rattle.std.specs.Prelude.{◌≡◌, length, ◌+◌, ◌^◌, ◌<◌, ◌≤◌, IfOk, IfSome, OnOk};
ghost use Rattle.verdict.specs.Image.{range};
ghost use Rattle.recon_disk.specs.Keeping.{Kept};
ghost use Rattle.write_cache.specs.Cache.{overlaid};
ghost use Rattle.block_source.specs.Gives.{is_disk_fault};

use plain_check::{Fault, read_under};
use recon_disk::Disk;
use std::alloc::Global;
use verdict::Bytes;
use write_cache::WriteCache;

/// The bytes of a range of the disk, with the pending writes over them. Its memory is taken before the disk is read.
pub fn fetch<D: Disk>(
    alloc: Global,
    disk: &mut D,
    cache: &WriteCache,
    at: u64,
    len: u32,
) -> Result<Bytes, Fault>
    requires some { 1 ≤ len }
    requires few { len ≤ 65536 }
    requires inside { at + len ≤ D.len disk.old }
    requires fits { at + len < 2 ^ 64 }
    ensures size { IfOk result (λ bytes. length bytes ≡ len) }
    ensures bytes { IfOk result (λ bytes. IfSome (D.bytes disk.old)
        (λ image. bytes ≡ range at len (overlaid cache.now 0 image))) }
    ensures reads { OnOk result (D.reads disk.new ≤ D.reads disk.old + 1) }
    ensures kept { Kept D.Disk disk.old disk.new (is_disk_fault result) }
{
    let Ok(mut bytes) = vec![in alloc; 0u8; len as usize] else {
        return Err(Fault::NoMemory);
    };
    read_under(disk, cache, at, &mut bytes)?;
    Ok(Bytes::from(bytes))
}
