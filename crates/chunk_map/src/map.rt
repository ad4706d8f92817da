//! The list of chunks.

ghost use Rattle.std.specs.Prelude.{◌≡◌, ◌+◌, ◌-◌, ◌≤◌, ◌<◌, ◌^◌, [], ◌∷◌, ◌++◌, IfOk, IfSome, OnOk, OnErr};
ghost use Rattle.verdict.specs.Chunks.{home, place, logical_of};
ghost use Rattle.verdict.specs.Rules.{first_failing};
ghost use Rattle.volume_items.specs.ChunkOrder.{by_start};
ghost use Rattle.volume_items.specs.MapRules.{map_finding, rows_by_start};
ghost use Rattle.chunk_map.specs.SystemArray.{chunks_of, sys_of};

use crate::array::read_pair;
use crate::copies::{logical_in_list, place_of};
use crate::home::{home_apart, home_in};
use crate::order::{rank_of, stands_apart};
use crate::rules::{array_fault, sorted_fault};
use crate::turned::{Copies, copy_with, put_copies};
use std::alloc::Global;
use std::collections::BTreeMap;
use std::marker::Model;
use super_reader::Super;
use verdict::{Chunk, Finding, NoMemory, Place};

/// A list of chunks, by which ranges of logical addresses stand on the device.
#[derive(Debug, Drop)]
pub struct ChunkMap {
    chunks: Vec<Chunk>,
    // The same chunks by start, those of one start in the order of the list.
    sorted: Vec<Chunk>,
    // Whether no chunk by start begins before the end of the one before it.
    apart: bool,
    // Copies by their offset on the device, none of which meet.
    copies: Copies,
    // Whether these are the copies of all chunks of the list.
    clear: bool,
    // So many of the first chunks by start are known to have no two copies that meet.
    front: usize,
}

/// What the system chunk array of a superblock gives.
#[derive(Debug, Drop)]
pub enum Sys {
    /// Its chunks, in the order of the array.
    Map(ChunkMap),
    /// The finding of the first pair that breaks a rule.
    Found(Finding),
}

impl Model for ChunkMap {
    ghost use Rattle.std.specs.Prelude.{List};
    ghost use Rattle.verdict.specs.declared.place.Chunk.{Chunk};
    ghost use Rattle.chunk_map.specs.Order.{InOrder};

    ghost Value = { List Chunk };

    ghost view = { λ m. m.chunks.items };

    ghost invariant = { λ m. InOrder m.chunks.items m.sorted.items m.copies.entries m.apart m.clear m.front };
}

impl ChunkMap {
    /// The empty list. It takes its memory from this allocator.
    pub fn new(alloc: Global) -> ChunkMap
        ensures { result ≡ [] }
    {
        ChunkMap {
            chunks: Vec::new(alloc),
            sorted: Vec::new(alloc),
            apart: true,
            copies: BTreeMap::new(alloc),
            clear: true,
            front: 0,
        }
    }

    /// The chunks of a superblock's system chunk array, or the finding of its first pair that breaks a
    /// rule: that it is a pair of a key (256, 228, any) and a whole chunk item (S9), and then the rules
    /// of the chunk item.
    pub fn from_sys(alloc: Global, sup: &Super) -> Result<Sys, NoMemory>
        requires { sup.now.array_size ≤ 2048 }
        ensures { IfOk result (λ sys. sys ≡ sys_of (chunks_of sup.now)) }
    {
        let mut map = ChunkMap::new(alloc);
        let mut at = 0;
        while at < sup.array_size as usize {
            let pair = match read_pair(sup, at) {
                Ok(pair) => pair,
                Err(finding) => return Ok(Sys::Found(finding)),
            };
            map.add(&pair.item.chunk())?;
            at = pair.end;
        }
        Ok(Sys::Map(map))
    }

    /// Puts a chunk at the end of the list. Out of memory, the list stays as it was, and from
    /// then on a look at the copies costs a pass. It costs a binary search among the chunks by start, where
    /// what stands behind the place found moves by one (nothing, where chunks come by start), and searches
    /// among the copies by offset, in whatever order these come.
    pub fn add(&mut self, chunk: &Chunk) -> Result<(), NoMemory>
        requires { chunk.now.start + chunk.now.length < 2 ^ 64 }
        ensures ok { OnOk result (self.new ≡ self.old ++ chunk.now ∷ []) }
        ensures err { OnErr result (self.new ≡ self.old) }
    {
        let mut clear = self.clear;
        // Not said of copies of a chunk that the list may not get.
        self.clear = false;
        put_copies(&mut self.copies, &mut clear, chunk)?;
        let rank = rank_of(&self.sorted, chunk.start);
        let apart = self.apart && stands_apart(&self.sorted, rank, chunk);
        self.sorted.insert(rank, *chunk)?;
        if self.chunks.push(*chunk).is_err() {
            self.sorted.remove(rank);
            return Err(NoMemory);
        }
        self.apart = apart;
        self.clear = clear;
        self.front = if clear {
            self.sorted.len()
        } else {
            self.front.min(rank)
        };
        Ok(())
    }

    /// Where `len` bytes from the logical address `addr` on stand, on a device of `end` bytes. The
    /// first chunk of the list that holds them whole decides. It costs a binary search where no two
    /// chunks overlap, else a pass over the list.
    pub fn place(&self, addr: u64, len: u64, end: u64) -> Place
        ensures { result ≡ place self.now addr len end }
    {
        match self.home(addr, len) {
            Some(chunk) => place_of(&chunk, addr - chunk.start, len, end),
            None => Place::Nowhere,
        }
    }

    /// The first chunk of the list that holds `len` bytes from a logical address on whole, or `None` exactly
    /// where none does. It costs a binary search where no two chunks overlap, else a pass over the list.
    #[tactic(auto, using(crate::proofs::Homes::home_fits))]
    pub fn home(&self, addr: u64, len: u64) -> Option<Chunk>
        ensures home { result ≡ home self.now addr len }
        ensures held { IfSome result (λ chunk.
            (chunk.start ≤ addr) × (addr - chunk.start + len < 2 ^ 64)) }
        ensures fits { IfSome result (λ _. addr + len < 2 ^ 64) }
    {
        if self.apart && len > 0 {
            home_apart(&self.sorted, addr, len)
        } else {
            home_in(&self.chunks, addr, len)
        }
    }

    /// The logical address whose copy stands at the byte `physical` of the device, in the first chunk
    /// of the list that has one there. It costs a binary search where no two copies meet, else a pass
    /// over the list.
    pub fn logical_at(&self, physical: u64) -> Option<u64>
        ensures { result ≡ logical_of self.now physical }
    {
        if self.clear {
            let copy = copy_with(&self.copies, physical)?;
            Some(copy.first + (physical - copy.start))
        } else {
            logical_in_list(&self.chunks, physical)
        }
    }

    /// The chunks, in the order in which they were put.
    pub fn chunks(&self) -> &[Chunk]
        ensures { result.now ≡ self.now }
    {
        self.chunks.as_slice()
    }

    /// The first finding on these chunks as those of the chunk tree, beside those of the system array,
    /// on a device of `end` bytes: a chunk of the array that is not one of these (S10), and then by
    /// start a chunk that begins inside the one before it (M1), and each copy that passes the end (M3)
    /// or meets an earlier copy (M2). All copies are on the one device.
    pub fn map_fault(&self, sys: &ChunkMap, _devid: u64, end: u64) -> Option<Finding>
        ensures { result ≡ map_finding self.now sys.now end }
    {
        if let Some(found) = array_fault(&self.chunks, &sys.chunks) {
            return Some(found);
        }
        self.own_fault(end)
    }

    // The first finding on the chunks by start. Where no two copies meet it is one pass over the chunks,
    // else the copies of each chunk behind the clear front are compared with those of all before it, up
    // to the first finding. Where chunks came by start, the first one behind has one.
    fn own_fault(&self, end: u64) -> Option<Finding>
        ensures { result ≡ first_failing (rows_by_start [] (by_start self.now) end) }
    {
        sorted_fault(self.sorted.as_slice(), self.front, end)
    }
}
