//! A stream of bytes that goes out.

ghost use Rattle.std.specs.Prelude.{ℕ, ◌≡◌, ◌++◌, ◌≤◌, [], ◌∷◌, List, Option, IfOk, IfSome, OnOk, OnErr, option_map, min, vec_len, vec_capacity};
ghost use Rattle.recon_disk.specs.Outside.{HasCause, MayBeAppended};
ghost use Rattle.recon_disk.specs.Listed.{listed_piece};

use crate::Failed;
use std::alloc::Global;
use verdict::NoMemory;

/// A stream of bytes that goes out.
pub trait Sink {
    /// The bytes so far, where the sink tells them.
    ghost kept: { Self → Option (List ℕ) };
    /// The pieces that were taken whole, one a call, in their order, where the sink tells them.
    ghost pieces: { Self → Option (List (List ℕ)) };
    /// How often a call failed.
    ghost faults: { Self → ℕ };

    /// Appends all the bytes, or fails with a front of them appended.
    fn write(&mut self, from: &[u8]) -> Result<(), Failed>
        ensures appended { OnOk result (kept self.new ≡ option_map
            (λ bytes. bytes ++ from.now) (kept self.old)) }
        ensures partly { OnErr result (MayBeAppended (kept self.old) from.now (kept self.new)) }
        ensures piece { OnOk result (pieces self.new ≡ option_map
            (λ taken. taken ++ from.now ∷ []) (pieces self.old)) }
        ensures no_piece { OnErr result (pieces self.new ≡ pieces self.old) }
        ensures cause { HasCause (faults self.old) (faults self.new) result };
}

/// A sink in memory, which tells its bytes. The calls that its list names fail, and those that would
/// pass its room, and no other. No write takes memory.
#[derive(Drop)]
pub struct MemSink {
    bytes: Vec<u8>,
    room: usize,
    fails: Vec<(u64, usize)>,
    calls: u64,
    faults: u64,
    ghost fits: { vec_len bytes ≤ room },
    ghost has_room: { room ≤ vec_capacity bytes },
}

impl MemSink {
    ghost use Rattle.recon_disk.specs.Memory.{bytes_kept, room_of, fails_of_sink, sink_calls, sink_faults};

    /// An empty sink with room for so many bytes. A write that would pass the room fails and keeps
    /// nothing; the call with a listed number, counted from 1, fails and keeps that many bytes of its
    /// piece, at most all.
    pub fn new(alloc: Global, room: usize, fails: Vec<(u64, usize)>) -> Result<MemSink, NoMemory>
        ensures empty { IfOk result (λ s. bytes_kept s ≡ []) }
        ensures room { IfOk result (λ s. room_of s ≡ room) }
        ensures fails { IfOk result (λ s. fails_of_sink s ≡ fails.items) }
        ensures calls { IfOk result (λ s. sink_calls s ≡ 0) }
        ensures faults { IfOk result (λ s. sink_faults s ≡ 0) }
    {
        Ok(MemSink {
            bytes: Vec::with_capacity(alloc, room)?,
            room,
            fails,
            calls: 0,
            faults: 0,
        })
    }

    /// The bytes so far, lent.
    pub fn bytes(&self) -> &[u8]
        ensures { result.now ≡ bytes_kept self.now }
    {
        self.bytes.as_slice()
    }
}

// The first entry of the list that names this call.
#[tactic(auto, unfolding(crate::specs::Listed::listed_piece))]
fn named(fails: &[(u64, usize)], call: u64) -> Option<(u64, usize)>
    ensures { result ≡ listed_piece fails.now call }
{
    fails.iter().copied().find(|p| p.0 == call)
}

// How many bytes a listed call keeps, at most all of its piece.
fn listed(fails: &[(u64, usize)], call: u64, len: usize) -> Option<usize>
    ensures which { result ≡ option_map (λ p. min p.1 len) (listed_piece fails.now call) }
    ensures few { IfSome result (λ keep. keep ≤ len) }
{
    match named(fails, call) {
        Some((_, keep)) => Some(keep.min(len)),
        None => None,
    }
}

impl Sink for MemSink {
    ghost use Rattle.std.specs.Prelude.{Some, None};
    ghost use Rattle.recon_disk.specs.Memory.{bytes_kept, sink_faults, IsGiven};

    ghost kept = { λ s. Some s.bytes.items };

    ghost pieces = { λ s. None };

    ghost faults = { λ s. s.faults };

    fn write(&mut self, from: &[u8]) -> Result<(), Failed>
        ensures appended { OnOk result (Some (bytes_kept self.new) ≡
            Some (bytes_kept self.old ++ from.now)) }
        ensures partly { OnErr result
            (MayBeAppended (Some (bytes_kept self.old)) from.now (Some (bytes_kept self.new))) }
        ensures cause { HasCause (sink_faults self.old) (sink_faults self.new) result }
        ensures given { IsGiven self.old from.now self.new result }
    {
        self.calls = self.calls.saturating_add(1);
        if from.len() > self.room - self.bytes.len() {
            self.faults = self.faults.saturating_add(1);
            return Err(Failed);
        }
        match listed(&self.fails, self.calls, from.len()) {
            Some(keep) => {
                self.faults = self.faults.saturating_add(1);
                let _ = self.bytes.extend_from_slice(&from[..keep]);
                Err(Failed)
            }
            None => {
                let taken = self.bytes.extend_from_slice(from);
                taken.unwrap();
                Ok(())
            }
        }
    }
}
