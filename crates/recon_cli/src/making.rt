//! The base image on a device, and a trace over it.

ghost use Rattle.std.specs.Prelude.{ℕ, ◌≡◌, ◌<◌, ◌≤◌, ◌⊎◌, ◌++◌, [], ◌∷◌, List, length, false, IfOk, OnOk};
ghost use Rattle.std.specs.Bool.{MatchBool};
ghost use Rattle.verdict.specs.Image.{written};
ghost use Rattle.recon_disk.specs.Calls.{Flushed, Sent, and_sent};
ghost use Rattle.recon_disk.specs.Sending.{Sends, StaysOutside};
ghost use Rattle.recon_cli.specs.Making.{IsUnwritten, MakesAs};
ghost use Rattle.recon_cli.specs.Run.{HasTurnCause};
ghost use Rattle.recon_cli.specs.Status.{status_from};

use crate::run_fault::RunFault;
use image_maker::{BASE_LENGTH, base_image};
use recon_disk::{Disk, Failed, Sink, write_all_at};
use std::alloc::Global;
use trace_maker::{MakeFault, make_trace};

// Writes an image over the front of the device, and flushes it.
fn put_image<D: Disk>(disk: &mut D, image: &[u8]) -> Result<(), Failed>
    requires inside { length image.now ≤ D.len disk.old }
    ensures device { Sends D.Disk disk.old disk.new result
        (λ old. written old 0 image.now)
        (StaysOutside 0 (length image.now)) }
    ensures flushed { OnOk result ((calls : List Sent) ×
        (D.sent disk.new ≡ and_sent (D.sent disk.old) (calls ++ Flushed ∷ []))) }
{
    write_all_at(disk, 0, image)?;
    disk.flush()
}

// Writes the base image to the device's first bytes and a trace of so many commits on it to the sink. It
// answers 0, or 8 where the device is too short. The image is made before anything is written.
pub fn make<D: Disk, K: Sink>(
    alloc: Global,
    seed: u64,
    commits: u32,
    disk: &mut D,
    out: &mut K,
) -> Result<u8, RunFault>
    ensures outcome { MakesAs D.Disk K.Sink seed commits (status_from result)
        disk.old disk.new out.old out.new }
    ensures short { D.len disk.old < 33554432 → IsUnwritten D.Disk disk.old disk.new ×
        (out.new ≡ out.old) ×
        MatchBool (D.hides_length disk.old) (status_from result ≡ 4) (status_from result ≡ 8) }
    ensures long { status_from result ≡ 8 →
        (D.len disk.old < 33554432) × (D.hides_length disk.old ≡ false) }
    ensures status { IfOk result (λ status. (status ≡ 0) ⊎ (status ≡ 8)) }
    ensures cause { HasTurnCause (D.faults disk.old) (D.faults disk.new)
        (K.faults out.old) (K.faults out.new) result }
{
    let Ok(length) = disk.length() else {
        return Err(RunFault::Device);
    };
    if length < BASE_LENGTH as u64 {
        return Ok(8);
    }
    let Ok(image) = base_image(alloc) else {
        return Err(RunFault::Memory);
    };
    let Ok(()) = put_image(disk, image.as_slice()) else {
        return Err(RunFault::Device);
    };
    match make_trace(alloc, seed, commits, out) {
        Ok(()) => Ok(0),
        Err(MakeFault::Write) => Err(RunFault::Lines),
        Err(MakeFault::NoMemory) => Err(RunFault::Memory),
    }
}
