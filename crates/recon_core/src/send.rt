//! How the pending writes go out to the disk once they are let through.

ghost use Rattle.std.specs.Prelude.{ℕ, ◌≡◌, ◌+◌, ◌^◌, ◌<◌, ◌≤◌, [], ◌∷◌, List, length, IfSome, OnOk, OnErr};
ghost use Rattle.recon_disk.specs.Calls.{Flushed, HasSentFront, and_sent};
ghost use Rattle.write_cache.specs.Cache.{overlaid};
ghost use Rattle.write_cache.specs.Lent.{pieces_left};
ghost use Rattle.write_cache.specs.Pieces.{ArePiecesOf};
ghost use Rattle.recon_core.specs.Standing.{IsBelow};
ghost use Rattle.recon_core.specs.Stops.{IsPartlySent};
ghost use Rattle.recon_core.specs.Order.{HasSentOut, HasSentPart, piece_calls};
ghost use Rattle.recon_core.specs.Moments.{IsAtRest};
ghost use Rattle.recon_core.specs.Sent.{HasSentRuns, HasSentSomeRuns, IsAllOrPart, IsOut, IsOutIn, IsPlaceOf, LeavesBy, LetsThrough, StaysButForPiece, sent_piece, with_place_of};
ghost use Rattle.recon_disk.specs.Sending.{Sends};
ghost use Rattle.recon_disk.specs.Outside.{HasCause};
ghost use Rattle.recon_disk.specs.Stops.{HasWritten, and_flushed};

use recon_disk::{Disk, Failed, write_all_at};
use verdict::{SUPERBLOCK_AT, SUPERBLOCK_SIZE};
use write_cache::{Pieces, WriteCache};

// Writes the bytes of a piece before the superblock place, and then those behind it.
fn send_piece<D: Disk>(disk: &mut D, at: u64, bytes: &[u8]) -> Result<(), Failed>
    requires inside { at + length bytes.now ≤ D.len disk.old }
    requires fits { at + length bytes.now < 2 ^ 64 }
    ensures device { Sends D.Disk disk.old disk.new result
        (λ image. sent_piece image at bytes.now)
        (StaysButForPiece at (length bytes.now)) }
    ensures order { OnOk result (D.sent disk.new ≡
        and_sent (D.sent disk.old) (piece_calls at bytes.now)) }
    ensures part { OnErr result
        (HasSentFront (piece_calls at bytes.now) (D.sent disk.old) (D.sent disk.new)) }
    ensures stops { HasWritten (IsOutIn at (length bytes.now))
        (D.moments disk.old) (D.moments disk.new) }
    ensures reads { D.reads disk.new ≡ D.reads disk.old }
{
    let len = bytes.len() as u64;
    let before = SUPERBLOCK_AT.saturating_sub(at).min(len);
    let behind = (SUPERBLOCK_AT + SUPERBLOCK_SIZE)
        .saturating_sub(at)
        .min(len);
    write_all_at(disk, at, &bytes[..before as usize])?;
    write_all_at(disk, at + behind, &bytes[behind as usize..])
}

// Writes the bytes of the pending writes outside the superblock place, in rising order.
fn send_pieces<D: Disk>(disk: &mut D, cache: &WriteCache, pieces: Pieces<'_>) -> Result<(), Failed>
    requires pieces { ArePiecesOf cache.now (pieces_left pieces) }
    requires place { 69632 ≤ D.len disk.old }
    requires small { D.len disk.old < 2 ^ 64 }
    requires inside { IsBelow (D.len disk.old) cache.now }
    ensures device { Sends D.Disk disk.old disk.new result
        (λ image. with_place_of image (overlaid cache.now 0 image))
        (IsPartlySent cache.now) }
    ensures order { OnOk result (HasSentRuns cache.now (D.sent disk.old) (D.sent disk.new)) }
    ensures part { OnErr result (HasSentSomeRuns cache.now (D.sent disk.old) (D.sent disk.new)) }
    ensures stops { HasWritten (IsOut cache.now) (D.moments disk.old) (D.moments disk.new) }
    ensures reads { D.reads disk.new ≡ D.reads disk.old }
{
    for (at, bytes) in pieces {
        send_piece(disk, at, bytes)?;
    }
    Ok(())
}

// Flushes the disk. Where that answers Ok, the disk is settled: a stop leaves what a read gives.
fn settle_disk<D: Disk>(disk: &mut D) -> Result<(), Failed>
    ensures len { D.len disk.new ≡ D.len disk.old }
    ensures bytes { D.bytes disk.new ≡ D.bytes disk.old }
    ensures sent { OnOk result (D.sent disk.new ≡ and_sent (D.sent disk.old) (Flushed ∷ [])) }
    ensures unsent { OnErr result (D.sent disk.new ≡ D.sent disk.old) }
    ensures settled { OnOk result
        (D.moments disk.new ≡ and_flushed (D.moments disk.old) (D.bytes disk.old)) }
    ensures unsettled { OnErr result (D.moments disk.new ≡ D.moments disk.old) }
    ensures reads { D.reads disk.new ≡ D.reads disk.old }
    ensures cause { HasCause (D.faults disk.old) (D.faults disk.new) result }
{
    disk.flush()
}

/// Sends out the pending writes: first all bytes outside the superblock place in rising order, which are then
/// flushed, and where the pending writes meet the superblock place, then the whole place in one call, flushed too.
/// `pieces` are those of the pending writes, and `superblock` has the bytes of the place. It takes no memory and reads nothing. Where a call
/// fails, the pending writes are on the disk whole, or in part outside the place.
#[tactic(auto, unfolding(crate::specs::Order::HasSentPart))]
pub fn let_through<D: Disk>(
    disk: &mut D,
    cache: &WriteCache,
    pieces: Pieces<'_>,
    superblock: &[u8; 4096],
) -> Result<(), Failed>
    requires pieces { ArePiecesOf cache.now (pieces_left pieces) }
    requires place { 69632 ≤ D.len disk.old }
    requires small { D.len disk.old < 2 ^ 64 }
    requires inside { IsBelow (D.len disk.old) cache.now }
    ensures device { LetsThrough D.Disk disk.old disk.new cache.now superblock.now result }
    ensures order { OnOk result (IfSome (D.bytes disk.old)
        (λ image. IsPlaceOf cache.now superblock.now image →
        HasSentOut cache.now (overlaid cache.now 0 image) (D.sent disk.old) (D.sent disk.new))) }
    ensures part { OnErr result (HasSentPart (IsPlaceOf cache.now superblock.now)
        cache.now (D.bytes disk.old) (D.sent disk.old) (D.sent disk.new)) }
    ensures stops { LeavesBy (IsPlaceOf cache.now superblock.now) (IsAllOrPart cache.now)
        (D.bytes disk.old) (D.moments disk.old) (D.moments disk.new) }
    ensures rest { OnOk result (IsAtRest (D.bytes disk.new) (D.moments disk.new)) }
{
    let commit = cache.touches(SUPERBLOCK_AT, SUPERBLOCK_SIZE);
    send_pieces(disk, cache, pieces)?;
    settle_disk(disk)?;
    if !commit {
        return Ok(());
    }
    disk.write(SUPERBLOCK_AT, superblock)?;
    settle_disk(disk)
}
