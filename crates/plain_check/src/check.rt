//! The check of all that an image holds.

ghost use Rattle.std.specs.Prelude.{◌≡◌, ◌≤◌, OnOk, true};
ghost use Rattle.verdict.specs.Trees.{is_node_size};
ghost use Rattle.recon_disk.specs.Keeping.{Kept};
ghost use Rattle.records.specs.FullCheck.{checked};
ghost use Rattle.plain_check.specs.Accounts.{accounts_in};
ghost use Rattle.plain_check.specs.Opened.{known};
ghost use Rattle.block_source.specs.Gives.{Gives, is_disk_halt};

use crate::volume::Volume;
use account_tally::Accounts;
use block_source::Halt;
use recon_disk::Disk;
use std::alloc::Global;
use write_cache::WriteCache;

// Checks all that the image holds which the disk's bytes make with the pending writes over them: its superblock, the
// chunks of the system array, the chunk tree through these, the rules on the chunk map, the root tree through the whole
// map, the rules on the list of root items, then each tree that a root item names, in the order of their ids as
// unsigned numbers, and last the accounts of all that these say. The disk has `end` bytes. Gives the generation of the
// superblock.
#[tactic(auto, using(crate::proofs::Chain::checked_by))]
pub fn check<D: Disk>(
    alloc: Global,
    disk: &mut D,
    cache: &WriteCache,
    end: u64,
) -> Result<u64, Halt>
    requires end { end ≡ D.len disk.old }
    ensures gives { Gives D.Disk disk.old cache.now result checked }
    ensures room { OnOk result (69632 ≤ D.len disk.old) }
    ensures kept { Kept D.Disk disk.old disk.new (is_disk_halt result) }
{
    let volume = Volume::open(alloc, disk, cache, end)?;
    check_accounts(alloc, disk, cache, &volume)?;
    Ok(volume.sup.generation)
}

// The accounts of all that the image says.
#[tactic(auto, unfolding(crate::specs::Accounts::accounts_in), using(block_source::proofs::Walking::steps))]
fn check_accounts<D: Disk>(
    alloc: Global,
    disk: &mut D,
    cache: &WriteCache,
    volume: &Volume,
) -> Result<(), Halt>
    requires size { is_node_size volume.now.sup.nodesize ≡ true }
    requires end { volume.now.end ≡ D.len disk.old }
    ensures gives { Gives D.Disk disk.old cache.now result
        (λ image. accounts_in (known volume.now) image) }
    ensures kept { Kept D.Disk disk.old disk.new (is_disk_halt result) }
{
    let mut accounts = Accounts::new(alloc, &volume.map, volume.sup.nodesize);
    volume.read_all(alloc, disk, cache, &mut accounts)?;
    match accounts.finding()? {
        Some(found) => Err(Halt::Found(found)),
        None => Ok(()),
    }
}
