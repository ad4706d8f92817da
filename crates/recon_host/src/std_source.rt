//! A reader as a source.

ghost use Rattle.std.specs.Prelude.{◌≡◌, None};

use recon_disk::{Failed, Source};
use std::io::Read;

/// A reader, as standard input, as a source. It tells no bytes of its own: each call gives exactly the bytes that it
/// took from the reader, where the reader tells what it has left.
#[derive(Drop)]
pub struct StdSource<R: Read + Drop> {
    reader: R,
    ended: bool,
    faults: u64,
}

impl<R: Read + Drop> StdSource<R> {
    /// The source that reads this reader.
    pub fn new(reader: R) -> StdSource<R>
        ensures untold { ⟦<StdSource<R> as Source>⟧.left result ≡ None }
        ensures faults { ⟦<StdSource<R> as Source>⟧.faults result ≡ 0 }
    {
        StdSource {
            reader,
            ended: false,
            faults: 0,
        }
    }
}

impl<R: Read + Drop> Source for StdSource<R> {
    ghost use Rattle.std.specs.Prelude.{None, IfOk, ℕ, ◌≤◌, length, take, true};
    ghost use Rattle.std.specs.Io.KnownBytes.{Consumes};
    ghost use Rattle.recon_disk.specs.Outside.{HasCause};

    ghost left = { λ s. None };

    ghost ended = { λ s. s.ended };

    ghost faults = { λ s. s.faults };

    fn read(&mut self, into: &mut [u8]) -> Result<usize, Failed>
        ensures count { IfOk result (λ n. n ≤ length into.old) }
        ensures taken { IfOk result (λ n. Consumes (R.remaining self.old.reader)
            (R.remaining self.new.reader) (take n into.new)) }
        ensures end { IfOk result (λ n. n ≡ 0 → self.new.ended ≡ true) }
        ensures stays { self.old.ended ≡ true → IfOk result (λ n. n ≡ 0) }
        ensures goes_on { self.old.ended ≡ true → self.new.ended ≡ true }
        ensures cause { HasCause self.old.faults self.new.faults result }
    {
        if self.ended {
            return Ok(0);
        }
        match self.reader.read(into) {
            Ok(n) => {
                self.ended = n == 0;
                Ok(n)
            }
            Err(_) => {
                self.faults = self.faults.saturating_add(1);
                Err(Failed)
            }
        }
    }
}
