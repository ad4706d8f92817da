//! Bytes of an on-disk structure, put together field by field.

ghost use Rattle.std.specs.Prelude.{◌≡◌, ◌++◌, [], IfOk, OnOk};
ghost use Rattle.image_maker.specs.Numbers.{u8, u16, u32, u64, zeros};

use recon_bytes::{put_u16, put_u32, put_u64};
use std::alloc::Global;
use std::marker::Model;
use verdict::{Bytes, NoMemory};

/// The fields so far, seen as their bytes.
#[derive(Drop)]
pub struct Fields {
    list: Vec<u8>,
}

impl Model for Fields {
    ghost use Rattle.std.specs.Prelude.{ℕ, List};

    ghost Value = { List ℕ };

    ghost view = { λ f. f.list.items };
}

impl Fields {
    /// No field yet.
    pub fn new(alloc: Global) -> Fields
        ensures { result ≡ [] }
    {
        Fields {
            list: Vec::new(alloc),
        }
    }

    /// Appends bytes as they are.
    pub fn bytes(&mut self, s: &[u8]) -> Result<(), NoMemory>
        ensures { OnOk result (self.new ≡ self.old ++ s.now) }
    {
        Ok(self.list.extend_from_slice(s)?)
    }

    /// Appends a field of eight bytes, the lowest first.
    #[tactic(auto, using(crate::proofs::Numbers::fields_alone))]
    pub fn eight(&mut self, n: u64) -> Result<(), NoMemory>
        ensures { OnOk result (self.new ≡ self.old ++ u64 n) }
    {
        let mut field = [0u8; 8];
        put_u64(&mut field, 0, n);
        self.bytes(&field)
    }

    /// Appends a field of four bytes, the lowest first.
    #[tactic(auto, using(crate::proofs::Numbers::fields_alone))]
    pub fn four(&mut self, n: u32) -> Result<(), NoMemory>
        ensures { OnOk result (self.new ≡ self.old ++ u32 n) }
    {
        let mut field = [0u8; 4];
        put_u32(&mut field, 0, n);
        self.bytes(&field)
    }

    /// Appends a field of two bytes, the lowest first.
    #[tactic(auto, using(crate::proofs::Numbers::fields_alone))]
    pub fn two(&mut self, n: u16) -> Result<(), NoMemory>
        ensures { OnOk result (self.new ≡ self.old ++ u16 n) }
    {
        let mut field = [0u8; 2];
        put_u16(&mut field, 0, n);
        self.bytes(&field)
    }

    /// Appends one byte.
    #[tactic(auto, unfolding(crate::specs::Numbers::u8))]
    pub fn one(&mut self, n: u8) -> Result<(), NoMemory>
        ensures { OnOk result (self.new ≡ self.old ++ u8 n) }
    {
        self.bytes(&[n])
    }

    /// Appends bytes that are zero.
    pub fn zeros(&mut self, alloc: Global, count: usize) -> Result<(), NoMemory>
        ensures { OnOk result (self.new ≡ self.old ++ zeros count) }
    {
        let zeros = zero_bytes(alloc, count)?;
        self.bytes(&zeros)
    }

    /// The bytes so far.
    pub fn finish(self) -> Bytes
        ensures { result ≡ self }
    {
        Bytes::from(self.list)
    }
}

/// So many bytes of zero.
#[tactic(auto, unfolding(crate::specs::Numbers::zeros))]
pub fn zero_bytes(alloc: Global, count: usize) -> Result<Vec<u8>, NoMemory>
    ensures { IfOk result (λ v. v.items ≡ zeros count) }
{
    Ok(vec![in alloc; 0u8; count]?)
}
