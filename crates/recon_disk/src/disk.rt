//! A block device of fixed length.

ghost use Rattle.std.specs.Prelude.{ℕ, Bool, is_err, ◌≡◌, ◌+◌, ◌<◌, ◌≤◌, List, length, Option, IfSome, IfOk, OnOk, OnErr, is_some, option_map, [], ◌∷◌, ◌⊎◌};
ghost use Rattle.std.specs.Option.{IsSomeAnd};
ghost use Rattle.verdict.specs.Image.{range, written};
ghost use Rattle.recon_disk.specs.Outside.{HasCause, MayBeWritten, counted};
ghost use Rattle.recon_disk.specs.Calls.{Sent, Wrote, Flushed, and_sent};
ghost use Rattle.recon_disk.specs.Queued.{Queue, Queues};
ghost use Rattle.recon_disk.specs.Stops.{Moment, RemainsNow, and_flushed, and_wrote};

/// A call on the outside failed.
#[derive(Clone, Copy, Debug, PartialEq, Eq)]
pub struct Failed;

/// A block device of fixed length. Offsets and lengths are in bytes.
///
/// A disk may tell its bytes, as one in memory does, or not, as a real file. What a read gives and a
/// write changes is said where they are told. It may tell the writes and flushes that answered Ok too,
/// and whether it does never changes.
///
/// It may tell as well what a stop at each moment so far would have left, such as a power cut: after a flush
/// that answered Ok what a read gives, and after that with any bytes in the ranges written since, but that a
/// write of exactly the superblock place is whole, old or new. A disk that tells this tells its bytes too.
///
/// It may let calls wait that answered Ok, and send them on to a disk beneath it later. What it reads are then the
/// bytes beneath with what waits over them. It may tell the bytes beneath, what waits and how much room is left:
/// a write or a flush with room for it then answers Ok and waits. Whether it tells this never changes.
pub trait Disk {
    /// The length in bytes, which never changes.
    ghost len: { Self → ℕ };
    /// The bytes as they read, where the disk tells them.
    ghost bytes: { Self → Option (List ℕ) };
    /// The writes and flushes that answered Ok so far, in their order, where the disk tells them.
    ghost sent: { Self → Option (List Sent) };
    /// The moments so far at which it may stop, the newest first, where the disk tells them.
    ghost moments: { Self → Option (List Moment) };
    /// The calls that wait, the bytes beneath them and the room that is left, where the disk tells them.
    ghost queue: { Self → Option Queue };
    /// How often `read` was called.
    ghost reads: { Self → ℕ };
    /// How often a call failed.
    ghost faults: { Self → ℕ };
    /// Whether the next call of `length` fails.
    ghost hides_length: { Self → Bool };

    /// The device's length in bytes.
    fn length(&mut self) -> Result<u64, Failed>
        ensures hidden { is_err result ≡ hides_length self.old }
        ensures value { IfOk result (λ n. n ≡ len self.old) }
        ensures len { len self.new ≡ len self.old }
        ensures bytes { bytes self.new ≡ bytes self.old }
        ensures sent { sent self.new ≡ sent self.old }
        ensures moments { moments self.new ≡ moments self.old }
        ensures queue { queue self.new ≡ queue self.old }
        ensures reads { reads self.new ≡ reads self.old }
        ensures cause { HasCause (faults self.old) (faults self.new) result };

    /// Reads 1 to 65,536 bytes from byte `at` on.
    fn read(&mut self, at: u64, into: &mut [u8]) -> Result<(), Failed>
        requires some { 0 < length into.old }
        requires few { length into.old ≤ 65536 }
        requires inside { at + length into.old ≤ len self.old }
        ensures told { OnOk result (IfSome (bytes self.old)
            (λ image. into.new ≡ range at (length into.old) image)) }
        ensures len { len self.new ≡ len self.old }
        ensures bytes { bytes self.new ≡ bytes self.old }
        ensures sent { sent self.new ≡ sent self.old }
        ensures moments { moments self.new ≡ moments self.old }
        ensures queue { queue self.new ≡ queue self.old }
        ensures reads { reads self.new ≡ counted (reads self.old) }
        ensures cause { HasCause (faults self.old) (faults self.new) result };

    /// Writes 1 to 1,048,576 bytes from byte `at` on. One that fails changes at most bytes of its
    /// range, and of exactly the superblock place all or none.
    fn write(&mut self, at: u64, from: &[u8]) -> Result<(), Failed>
        requires some { 0 < length from.now }
        requires few { length from.now ≤ 1048576 }
        requires inside { at + length from.now ≤ len self.old }
        ensures written { OnOk result (bytes self.new ≡ option_map
            (λ image. written image at from.now) (bytes self.old)) }
        ensures partly { OnErr result (MayBeWritten (bytes self.old) at from.now (bytes self.new)) }
        ensures sent { OnOk result (sent self.new ≡
            and_sent (sent self.old) (Wrote at from.now ∷ [])) }
        ensures unsent { OnErr result (sent self.new ≡ sent self.old) }
        ensures moments { OnOk result
            (moments self.new ≡ and_wrote (moments self.old) at from.now) }
        ensures perhaps { OnErr result ((moments self.new ≡ moments self.old)
            ⊎ (moments self.new ≡ and_wrote (moments self.old) at from.now)) }
        ensures waits { Queues (Wrote at from.now ∷ []) (queue self.old) (queue self.new) result }
        ensures tells { is_some (queue self.new) ≡ is_some (queue self.old) }
        ensures len { len self.new ≡ len self.old }
        ensures reads { reads self.new ≡ reads self.old }
        ensures cause { HasCause (faults self.old) (faults self.new) result };

    /// Sends what was written to stable storage.
    fn flush(&mut self) -> Result<(), Failed>
        ensures len { len self.new ≡ len self.old }
        ensures bytes { bytes self.new ≡ bytes self.old }
        ensures sent { OnOk result (sent self.new ≡ and_sent (sent self.old) (Flushed ∷ [])) }
        ensures unsent { OnErr result (sent self.new ≡ sent self.old) }
        ensures settled { OnOk result
            (moments self.new ≡ and_flushed (moments self.old) (bytes self.old)) }
        ensures unsettled { OnErr result (moments self.new ≡ moments self.old) }
        ensures waits { Queues (Flushed ∷ []) (queue self.old) (queue self.new) result }
        ensures tells { is_some (queue self.new) ≡ is_some (queue self.old) }
        ensures reads { reads self.new ≡ reads self.old }
        ensures cause { HasCause (faults self.old) (faults self.new) result };

    /// Where the bytes are told, there are as many as the length says.
    ghost told_length: { (disk : Self) → IfSome (bytes disk) (λ image. length image ≡ len disk) };

    /// Where moments are told, the bytes are told too, and are such as a stop now may leave.
    ghost told_moments: { (disk : Self) → IfSome (moments disk) (λ ms.
        IsSomeAnd (bytes disk) (RemainsNow ms)) };
}
