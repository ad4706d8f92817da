//! The places of the base image's chunks, and which tree blocks are free.

ghost use Rattle.std.specs.Prelude.{◌≡◌, ◌+◌, ◌*◌, ◌<◌, false, true, replicate, slice_set, take, IfOk};
ghost use Rattle.std.specs.List.{All, AllPass};
ghost use Rattle.volume_maker.specs.Remade.{IsFree};

use std::alloc::Global;
use std::marker::Model;
use verdict::NoMemory;

/// The size of a tree block in bytes.
pub const NODESIZE: u32 = 16384;
/// How many tree blocks the metadata chunk holds.
pub const BLOCKS: usize = 512;
/// How many sectors the data chunk holds.
pub const SECTORS: u16 = 2048;
/// How far the second copy of a tree block lies behind the first, in bytes.
pub const COPY: u64 = 8_388_608;

/// The place of a tree block in the metadata chunk, counted in blocks. Its logical address and the device
/// offset of its first copy are one number.
pub fn block_address(number: u16) -> u64
    ensures { result ≡ 5242880 + 16384 * number }
{
    5_242_880 + 16384 * u64::from(number)
}

/// The logical address of a sector of the data chunk, counted in sectors.
pub fn sector_address(sector: u16) -> u64
    ensures { result ≡ 13631488 + 4096 * sector }
{
    13_631_488 + 4096 * u64::from(sector)
}

/// The device offset of a sector of the data chunk.
pub fn sector_place(sector: u16) -> u64
    ensures { result ≡ 22020096 + 4096 * sector }
{
    22_020_096 + 4096 * u64::from(sector)
}

/// The blocks of the metadata chunk, of which some are in use: for each whether it is.
#[derive(Drop)]
pub struct Space {
    alloc: Global,
    busy: Vec<bool>,
}

impl Model for Space {
    ghost use Rattle.std.specs.Prelude.{◌≡◌, Bool, List, length};

    ghost Value = { List Bool };

    ghost view = { λ s. s.busy.items };

    ghost invariant = { λ s. length s.busy.items ≡ 512 };
}

impl Space {
    /// All blocks are free.
    pub fn new(alloc: Global) -> Result<Space, NoMemory>
        ensures { IfOk result (λ space. space ≡ replicate 512 false) }
    {
        Ok(Space {
            alloc,
            busy: vec![in alloc; false; BLOCKS]?,
        })
    }

    /// Takes a block.
    pub fn take(&mut self, number: u16)
        ensures { self.new ≡ slice_set self.old number true }
    {
        let number = number as usize;
        if number < self.busy.len() {
            self.busy[number] = true;
        }
    }

    /// The lowest free block, which is not taken yet.
    pub fn next(&self) -> Result<u16, NoMemory>
        ensures within { IfOk result (λ number. number < 512) }
        ensures free { IfOk result (IsFree self.now) }
        ensures lowest { IfOk result (λ number. AllPass (λ busy. busy) (take number self.now)) }
    {
        for (number, busy) in self.busy.iter().enumerate() {
            if !*busy {
                return Ok(number as u16);
            }
        }
        Err(NoMemory)
    }

    /// The lowest free blocks, so many of them, which are not taken yet.
    pub fn next_of(&self, count: usize) -> Result<Vec<u16>, NoMemory>
        ensures { IfOk result (λ numbers. All (IsFree self.now) numbers.items) }
    {
        let mut numbers = Vec::new(self.alloc);
        for (number, busy) in self.busy.iter().enumerate() {
            if !*busy && numbers.len() < count {
                numbers.push(number as u16)?;
            }
        }
        if numbers.len() < count {
            return Err(NoMemory);
        }
        Ok(numbers)
    }
}
