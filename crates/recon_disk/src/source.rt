//! A stream of bytes that comes in.

ghost use Rattle.std.specs.Prelude.{ℕ, ◌≡◌, ◌<◌, ◌≤◌, Bool, true, List, length, Option, IfOk, OnErr};
ghost use Rattle.recon_disk.specs.Outside.{HasCause, Gives};

use crate::Failed;

/// A stream of bytes that comes in.
pub trait Source {
    /// The bytes left, where the source tells them.
    ghost left: { Self → Option (List ℕ) };
    /// Whether the end was met.
    ghost ended: { Self → Bool };
    /// How often a call failed.
    ghost faults: { Self → ℕ };

    /// Takes the next bytes, at most as many as the slice has, puts them in front of it and answers
    /// how many. 0 is the end, and stays so. A call that fails takes no byte.
    fn read(&mut self, into: &mut [u8]) -> Result<usize, Failed>
        requires { 0 < length into.old }
        ensures count { IfOk result (λ n. n ≤ length into.old) }
        ensures given { IfOk result (λ n. Gives n into.new (left self.old) (left self.new)) }
        ensures end { IfOk result (λ n. n ≡ 0 → ended self.new ≡ true) }
        ensures stays { ended self.old ≡ true → IfOk result (λ n. n ≡ 0) }
        ensures goes_on { ended self.old ≡ true → ended self.new ≡ true }
        ensures failed { OnErr result (left self.new ≡ left self.old) }
        ensures cause { HasCause (faults self.old) (faults self.new) result };
}

/// A source in memory, which tells its bytes. The calls that its list names fail, and no other.
#[derive(Drop)]
pub struct MemSource {
    bytes: Vec<u8>,
    at: usize,
    step: usize,
    fails: Vec<u64>,
    calls: u64,
    faults: u64,
    ghost inside: { at ≤ length bytes.items },
    ghost moves: { 0 < step },
}

impl MemSource {
    ghost use Rattle.recon_disk.specs.Memory.{bytes_left, step_of, fails_of_source, source_calls, source_faults};

    /// A source of these bytes, at most `step` of them a call. The calls whose numbers, counted from
    /// 1, stand in `fails` fail.
    pub fn new(bytes: Vec<u8>, step: usize, fails: Vec<u64>) -> MemSource
        requires { 0 < step }
        ensures left { bytes_left result ≡ bytes.items }
        ensures step { step_of result ≡ step }
        ensures fails { fails_of_source result ≡ fails.items }
        ensures calls { source_calls result ≡ 0 }
        ensures faults { source_faults result ≡ 0 }
    {
        MemSource {
            bytes,
            at: 0,
            step,
            fails,
            calls: 0,
            faults: 0,
        }
    }
}

impl Source for MemSource {
    ghost use Rattle.std.specs.Prelude.{◌≡◌, Some, drop, length, min, nat_eq};
    ghost use Rattle.recon_disk.specs.Memory.{bytes_left, is_at_end, step_of, source_faults, IsAsked};

    ghost left = { λ s. Some (drop s.at s.bytes.items) };

    ghost ended = { λ s. nat_eq s.at (length s.bytes.items) };

    ghost faults = { λ s. s.faults };

    fn read(&mut self, into: &mut [u8]) -> Result<usize, Failed>
        requires { 0 < length into.old }
        ensures count { IfOk result (λ n. n ≤ length into.old) }
        ensures given { IfOk result
            (λ n. Gives n into.new (Some (bytes_left self.old)) (Some (bytes_left self.new))) }
        ensures end { IfOk result (λ n. n ≡ 0 → is_at_end self.new ≡ true) }
        ensures stays { is_at_end self.old ≡ true → IfOk result (λ n. n ≡ 0) }
        ensures goes_on { is_at_end self.old ≡ true → is_at_end self.new ≡ true }
        ensures failed { OnErr result (Some (bytes_left self.new) ≡ Some (bytes_left self.old)) }
        ensures cause { HasCause (source_faults self.old) (source_faults self.new) result }
        ensures most { IfOk result (λ n. n ≡
            min (min (length into.old) (step_of self.old)) (length (bytes_left self.old))) }
        ensures asked { IsAsked self.old self.new result }
    {
        self.calls = self.calls.saturating_add(1);
        if self.fails.contains(&self.calls) {
            self.faults = self.faults.saturating_add(1);
            return Err(Failed);
        }
        let n = into.len().min(self.step).min(self.bytes.len() - self.at);
        into[..n].copy_from_slice(&self.bytes[self.at..self.at + n]);
        self.at += n;
        Ok(n)
    }
}
