//! Where entries stood that were last found. Nothing rests on it.

ghost use Rattle.std.specs.Prelude.{◌<◌};

/// How many hints a table has.
pub const HINTS: usize = 4096;

/// Where an entry stood that was last found, and some bits of the number of its key.
#[derive(Clone, Copy)]
pub struct Hint {
    pub at: u32,
    pub bits: u32,
}

/// The slot of a key among the hints, by its number.
pub fn slot_of(mixed: u64) -> usize
    ensures { result < 4096 }
{
    (mixed >> 52) as usize % HINTS
}

/// The bits of a key's number by which its hint is told from others at the slot.
pub fn bits_of(mixed: u64) -> u32 {
    (mixed >> 32) as u32
}

/// A hint to the entry of a key with this number.
pub fn hint_of(mixed: u64, at: usize) -> Hint {
    Hint {
        at: u32::try_from(at).unwrap_or(0),
        bits: bits_of(mixed),
    }
}
