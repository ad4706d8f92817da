//! A run of bytes that is written in as many calls as it takes.

ghost use Rattle.std.specs.Prelude.{◌≡◌, ◌+◌, ◌^◌, ◌<◌, ◌≤◌, length, OnOk, OnErr};
ghost use Rattle.verdict.specs.Image.{written};
ghost use Rattle.recon_disk.specs.Calls.{HasSentFront, and_sent, run_calls};
ghost use Rattle.recon_disk.specs.Sending.{Sends, StaysOutside};
ghost use Rattle.recon_disk.specs.Stops.{HasWritten, LiesIn};

use crate::{Disk, Failed};

/// The most bytes that one write to a disk has.
pub const WRITE_MAX: usize = 1_048_576;

/// Writes any number of bytes from byte `at` of the disk on, in calls of 1,048,576 bytes from the front and a shorter
/// last one. It reads nothing. It stops at the first call that fails: the bytes outside
/// the range stay.
pub fn write_all_at<D: Disk>(disk: &mut D, at: u64, bytes: &[u8]) -> Result<(), Failed>
    requires inside { at + length bytes.now ≤ D.len disk.old }
    requires fits { at + length bytes.now < 2 ^ 64 }
    ensures device { Sends D.Disk disk.old disk.new result
        (λ image. written image at bytes.now)
        (StaysOutside at (length bytes.now)) }
    ensures order { OnOk result (D.sent disk.new ≡
        and_sent (D.sent disk.old) (run_calls at bytes.now)) }
    ensures part { OnErr result
        (HasSentFront (run_calls at bytes.now) (D.sent disk.old) (D.sent disk.new)) }
    ensures stops { HasWritten (LiesIn at (length bytes.now))
        (D.moments disk.old) (D.moments disk.new) }
    ensures reads { D.reads disk.new ≡ D.reads disk.old }
{
    let mut done = 0;
    while done < bytes.len() {
        let n = WRITE_MAX.min(bytes.len() - done);
        disk.write(at + done as u64, &bytes[done..done + n])?;
        done += n;
    }
    Ok(())
}
