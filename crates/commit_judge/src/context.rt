//! The contexts in which records are read: that of the accepted image, and that of the judged one.

ghost use Rattle.std.specs.Prelude.{◌≡◌, ◌+◌, ◌<◌, ◌^◌, IfSome, option_map};
ghost use Rattle.verdict.specs.Chunks.{home};
ghost use Rattle.accounts.specs.Context.{home_in};
ghost use Rattle.change_records.specs.Affected.{context_with};
ghost use Rattle.change_records.specs.Made.{flag_by};
ghost use Rattle.commit_judge.specs.Flags.{free_in};

use accounts::{Ctx, Home};
use change_records::{Inode, Made};
use chunk_map::ChunkMap;
use std::collections::BTreeSet;

/// The context of the accepted image.
#[derive(Clone, Copy)]
pub(crate) struct Before<'a> {
    // Its chunks.
    pub(crate) map: &'a ChunkMap,
    // Its inodes whose data has no checksums.
    pub(crate) free: &'a BTreeSet<Inode>,
    // Its size of a tree block in bytes.
    pub(crate) nodesize: u32,
}

impl<'a> Ctx for Before<'a> {
    ghost context = { λ c. context_with c.map.now c.nodesize (free_in c.free.now) };

    fn home(&self, addr: u64, len: u64) -> Option<Home> {
        home_in(self.map, addr, len)
    }

    fn sum_free(&self, tree: u64, ino: u64) -> bool {
        self.free.contains(&Inode { tree, ino })
    }

    fn nodesize(&self) -> u32 {
        self.nodesize
    }

    fn full(&self, _address: u64) -> bool {
        false
    }
}

/// The context of the judged image.
#[derive(Clone, Copy)]
pub(crate) struct After<'a> {
    // Its chunks.
    pub(crate) map: &'a ChunkMap,
    // The inodes of the accepted image whose data has no checksums.
    pub(crate) free: &'a BTreeSet<Inode>,
    // What the changes make of these.
    pub(crate) made: &'a Made,
    // Its size of a tree block in bytes.
    pub(crate) nodesize: u32,
}

impl<'a> Ctx for After<'a> {
    ghost context = { λ c. context_with c.map.now c.nodesize
        (λ tree ino. flag_by c.made.now tree ino (free_in c.free.now tree ino)) };

    fn home(&self, addr: u64, len: u64) -> Option<Home> {
        home_in(self.map, addr, len)
    }

    fn sum_free(&self, tree: u64, ino: u64) -> bool {
        let free = self.free.contains(&Inode { tree, ino });
        self.made.flag(tree, ino, free)
    }

    fn nodesize(&self) -> u32 {
        self.nodesize
    }

    fn full(&self, _address: u64) -> bool {
        false
    }
}

// The chunk that holds a range whole.
fn home_in(map: &ChunkMap, addr: u64, len: u64) -> Option<Home>
    ensures home { result ≡ option_map home_in (home map.now addr len) }
    ensures fits { IfSome result (λ _. addr + len < 2 ^ 64) }
{
    match map.home(addr, len) {
        Some(chunk) => Some(Home {
            start: chunk.start,
            length: chunk.length,
            class: chunk.class,
        }),
        None => None,
    }
}
