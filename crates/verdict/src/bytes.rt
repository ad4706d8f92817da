//! Owned bytes, which contracts see as their list.

ghost use Rattle.std.specs.Prelude.{◌≡◌, [], ◌∷◌, ◌++◌, IfOk, OnOk, OnErr};

use smallvec::SmallVec;
use std::alloc::{AllocError, AllocFailed, Global};
use std::marker::Model;

/// Out of memory.
#[derive(Clone, Copy, Debug, PartialEq, Eq)]
pub struct NoMemory;

impl From<AllocError> for NoMemory {
    fn from(_refused: AllocError) -> NoMemory {
        NoMemory
    }
}

impl<T: Drop> From<AllocFailed<T>> for NoMemory {
    fn from(_refused: AllocFailed<T>) -> NoMemory {
        NoMemory
    }
}

/// An owned list of bytes, seen as that list. Most names and items are short: up to 40 bytes that are copied stand in the value, and more of
/// them in memory of their own.
#[derive(Debug, Drop)]
pub struct Bytes {
    list: SmallVec<u8, 40>,
}

impl Model for Bytes {
    ghost use Rattle.std.specs.Prelude.{ℕ, List};

    ghost Value = { List ℕ };

    ghost view = { λ b. b.list.items };
}

impl Bytes {
    /// A copy of the bytes.
    pub fn of(alloc: Global, s: &[u8]) -> Result<Bytes, NoMemory>
        ensures { IfOk result (λ b. b ≡ s.now) }
    {
        Ok(Bytes {
            list: SmallVec::from_slice(alloc, s)?,
        })
    }

    /// Puts a byte at the end. Out of memory, the bytes stay.
    pub fn push(&mut self, byte: u8) -> Result<(), NoMemory>
        ensures ok { OnOk result (self.new ≡ self.old ++ byte ∷ []) }
        ensures err { OnErr result (self.new ≡ self.old) }
    {
        Ok(self.list.push(byte)?)
    }

    /// The bytes, lent.
    pub fn as_slice(&self) -> &[u8]
        ensures { result.now ≡ self.now }
    {
        self.list.as_slice()
    }

    /// The bytes, as a vector: of the same memory, where they are not in the value itself.
    pub fn into_vec(self) -> Result<Vec<u8>, NoMemory>
        ensures { IfOk result (λ vec. vec.items ≡ self) }
    {
        let Bytes { list } = self;
        Ok(list.into_vec()?)
    }
}

impl From<Vec<u8>> for Bytes {
    ghost from_gives = { λ list b. b ≡ list.items };

    fn from(list: Vec<u8>) -> Bytes {
        Bytes {
            list: SmallVec::from_vec(list),
        }
    }
}
