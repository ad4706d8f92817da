//! The file system as it stands on the disk, and the writes of its next commit.

ghost use Rattle.std.specs.Prelude.{◌≡◌, ◌+◌, ◌≤◌, IfOk, OnOk};
ghost use Rattle.std.specs.List.{All};
ghost use Rattle.trace_maker.specs.Live.{MissesLive};
ghost use Rattle.trace_maker.specs.Made.{IsCommitOf, IsPlaceOf, carried_out};
ghost use Rattle.trace_maker.specs.Writes.{HasMore};
ghost use Rattle.volume_maker.specs.Live.{all_blocks, AreInChunk, IsUpTo};
ghost use Rattle.volume_maker.specs.Volume.{nothing_stands};

use crate::operation::Operation;
use crate::writes::{add_tree, data_writes, superblock_write};
use std::alloc::Global;
use verdict::{Event, NoMemory};
use volume_maker::{COPY, Trees, Volume};

/// The file system after the last commit.
#[derive(Drop)]
pub struct Maker {
    alloc: Global,
    volume: Volume,
    trees: Trees,
}

impl Maker {
    /// The base image.
    pub fn new(alloc: Global) -> Result<Maker, NoMemory>
        ensures empty { IfOk result (λ maker. maker.volume ≡ nothing_stands) }
        ensures in_chunk { IfOk result (λ maker. AreInChunk (all_blocks maker.trees)) }
        ensures first { IfOk result (λ maker. IsUpTo 1 (all_blocks maker.trees)) }
    {
        Ok(Maker {
            alloc,
            volume: Volume::new(alloc),
            trees: Trees::new(alloc)?,
        })
    }

    // Carries out the operation of commit k, and answers the first sector of its data, 0 where it has none.
    fn carry_out(&mut self, k: u32, op: &Operation) -> Result<u16, NoMemory>
        ensures place { IfOk result (IsPlaceOf op.now self.old.volume) }
        ensures volume { OnOk result (self.new.volume ≡ carried_out k op.now self.old.volume) }
        ensures trees { self.new.trees ≡ self.old.trees }
    {
        match *op {
            Operation::Subvolume { id } => self.volume.add_subvolume(k, id)?,
            Operation::Directory { .. } => self.volume.add_directory(k)?,
            Operation::File { dir, .. } => self.volume.add_file(k, dir)?,
            Operation::Filled {
                dir,
                sectors,
                sort,
                ..
            } => return self.volume.fill(k, dir, sectors, sort),
            Operation::Shared { dir, of, .. } => self.volume.share(k, dir, of)?,
            Operation::Removed { ino } => self.volume.remove(ino),
        }
        Ok(0)
    }

    /// Carries out the operation of commit k, and gives the commit's writes, none of which reaches a tree block that is
    /// live before it.
    pub fn commit(&mut self, k: u32, op: &Operation) -> Result<Vec<Event>, NoMemory>
        requires in_chunk { AreInChunk (all_blocks self.old.trees) }
        requires up_to { IsUpTo k (all_blocks self.old.trees) }
        ensures made { IfOk result (λ events. IsCommitOf k self.old.volume op.now events.items) }
        ensures misses_live { IfOk result
            (λ events. All (MissesLive (all_blocks self.old.trees)) events.items) }
        ensures volume { OnOk result (self.new.volume ≡ carried_out k op.now self.old.volume) }
        ensures in_chunk { OnOk result (AreInChunk (all_blocks self.new.trees)) }
        ensures up_to { OnOk result (IsUpTo (k + 1) (all_blocks self.new.trees)) }
    {
        let generation = u64::from(k) + 1;
        let sector = self.carry_out(k, op)?;
        self.trees.remake(&self.volume, generation)?;
        let bytes_used = self.trees.bytes_used(&self.volume)?;
        let mut events = data_writes(self.alloc, k, op, sector)?;
        self.add_copies(&mut events, 0, generation)?;
        self.add_copies(&mut events, COPY, generation)?;
        let root = &self.trees.roots.root;
        let last = superblock_write(self.alloc, generation, root, bytes_used)?;
        events.push(last)?;
        Ok(events)
    }

    // Adds the writes of a copy of each new block.
    fn add_copies(&self, into: &mut Vec<Event>, copy: u64, generation: u64) -> Result<(), NoMemory>
        requires { copy ≤ 8388608 }
        ensures { OnOk result (HasMore generation (all_blocks self.now.trees) copy
            into.old.items into.new.items) }
    {
        add_tree(self.alloc, into, &self.trees.files, copy, generation)?;
        add_tree(self.alloc, into, &self.trees.sums, copy, generation)?;
        for tree in &self.trees.subvolumes {
            add_tree(self.alloc, into, tree, copy, generation)?;
        }
        add_tree(self.alloc, into, &self.trees.extents, copy, generation)?;
        add_tree(self.alloc, into, &self.trees.roots, copy, generation)?;
        Ok(())
    }
}
