//! A writer as a sink.

ghost use Rattle.std.specs.Prelude.{◌≡◌, None, IsTrue, OnOk};
ghost use Rattle.std.specs.Io.KnownBytes.{Appends};
ghost use Rattle.recon_disk.specs.Outside.{HasCause};

use recon_disk::{Failed, Sink};
use std::io::Write;

/// A writer, as standard output, as a sink. It tells no bytes of its own: each call hands the writer exactly its
/// bytes, where the writer tells what it holds. What is written is handed on at once.
#[derive(Drop)]
pub struct StdSink<W: Write + Drop> {
    writer: W,
    faults: u64,
}

impl<W: Write + Drop> StdSink<W> {
    /// The sink that writes to this writer.
    pub fn new(writer: W) -> StdSink<W>
        ensures untold { ⟦<StdSink<W> as Sink>⟧.kept result ≡ None }
        ensures faults { ⟦<StdSink<W> as Sink>⟧.faults result ≡ 0 }
    {
        StdSink { writer, faults: 0 }
    }
}

// Writes all the bytes and hands them on, and says whether it did.
fn write_whole<W: Write>(writer: &mut W, from: &[u8]) -> bool
    ensures { IsTrue result
        → Appends (W.contents writer.old) (W.contents writer.new) from.now }
{
    let mut done = 0;
    while done < from.len() {
        match writer.write(&from[done..]) {
            Ok(0) | Err(_) => return false,
            Ok(n) => done += n,
        }
    }
    writer.flush().is_ok()
}

impl<W: Write + Drop> Sink for StdSink<W> {
    ghost use Rattle.std.specs.Prelude.{None, OnOk};
    ghost use Rattle.std.specs.Io.KnownBytes.{Appends};
    ghost use Rattle.recon_disk.specs.Outside.{HasCause};

    ghost kept = { λ s. None };

    ghost pieces = { λ s. None };

    ghost faults = { λ s. s.faults };

    fn write(&mut self, from: &[u8]) -> Result<(), Failed>
        ensures handed { OnOk result
            (Appends (W.contents self.old.writer) (W.contents self.new.writer) from.now) }
        ensures cause { HasCause self.old.faults self.new.faults result }
    {
        if write_whole(&mut self.writer, from) {
            return Ok(());
        }
        self.faults = self.faults.saturating_add(1);
        Err(Failed)
    }
}
