//! What is known of an old image.

ghost use Rattle.std.specs.Prelude.{◌≡◌, IfOk, true};
ghost use Rattle.std.specs.List.{AllByRecursion};
ghost use Rattle.verdict.specs.OnDisk.{key_below};
ghost use Rattle.verdict.specs.Trees.{is_node_size};
ghost use Rattle.volume_items.specs.declared.root_at.RootAt.{RootAt as ARoot};
ghost use Rattle.super_reader.specs.Superblock.{IsReadable};
ghost use Rattle.chunk_map.specs.Roots.{KeysAscend};
ghost use Rattle.image_diff.specs.Ascending.{KeysAscend-prop};

use crate::seen::{InodeAt, Seen};
use crate::why::Why;
use block_source::{BlockSource, walk_into};
use chunk_map::{Bases, ChunkMap, Sys};
use live_index::{Live, LiveIndex};
use node_reader::Expect;
use recon_disk::{Disk, Steps};
use std::alloc::Global;
use std::mem;
use super_reader::{Super, read_super};
use verdict::{Family, Finding, NoMemory, SUPERBLOCK_SIZE};
use volume_items::RootAt;
use write_cache::WriteCache;

/// What is known of an image: its superblock, its chunks, its root items, its live pairs, and the inodes whose data has no checksums.
#[derive(Drop)]
pub struct Known {
    sup: Super,
    map: ChunkMap,
    roots: Vec<RootAt>,
    free: Vec<InodeAt>,
    table: LiveIndex<()>,
    ghost ascend: { KeysAscend roots.items } by { KeysAscend-prop roots.items },
}

impl Bases for Known {
    type Table = LiveIndex<()>;

    ghost use Rattle.std.specs.Prelude.{◌==◌, ◌&&◌, false};
    ghost use Rattle.std.specs.List.{list_any};
    ghost use Rattle.image_diff.specs.declared.seen.InodeAt.{InodeAt};

    ghost superblock = { λ known. known.sup };

    ghost chunks = { λ known. known.map };

    ghost root_items = { λ known. known.roots.items };

    ghost is_sum_free = { λ known tree ino. list_any (λ (one : InodeAt). one.tree == tree && one.ino == ino) known.free.items };

    ghost is_full = { λ known address. false };

    ghost table = { λ known. known.table };

    fn sup(&self) -> &Super {
        &self.sup
    }

    fn map(&self) -> &ChunkMap {
        &self.map
    }

    fn roots(&self) -> &[RootAt] {
        self.roots.as_slice()
    }

    fn sum_free(&self, tree: u64, ino: u64) -> bool {
        self.free
            .iter()
            .any(|one| one.tree == tree && one.ino == ino)
    }

    fn full(&self, _address: u64) -> bool {
        false
    }

    fn live(&self) -> &LiveIndex<()> {
        &self.table
    }
}

/// The superblock of an image, or the finding on it.
pub fn superblock_of(image: &[u8]) -> Result<Super, Why>
    ensures { IfOk result IsReadable }
{
    let mut bytes = [0u8; SUPERBLOCK_SIZE as usize];
    if image.len() < 69632 {
        return Err(Why::Found(Finding::of_image(Family::S, 1, image.len() as u64)));
    }
    bytes.copy_from_slice(&image[65536..69632]);
    match read_super(&bytes) {
        Ok(sup) => Ok(sup),
        Err(finding) => Err(Why::Found(finding)),
    }
}

/// What is known of the image on a disk, of which this is the superblock.
pub fn known_of<D: Disk>(
    alloc: Global,
    disk: &mut D,
    sup: Super,
    steps: &mut Steps<()>,
) -> Result<Known, Why>
    requires { IsReadable sup }
{
    let Ok(end) = disk.length() else {
        return Err(Why::Disk);
    };
    let none = WriteCache::new(alloc);
    let array = match ChunkMap::from_sys(alloc, &sup)? {
        Sys::Map(map) => map,
        Sys::Found(finding) => return Err(Why::Found(finding)),
    };
    let base = BlockSource {
        cache: &none,
        map: &array,
        sup: &sup,
        end,
    };
    let mut top = Seen::new(alloc);
    walk_into(alloc, disk, &base, &chunk_root(&sup), &mut top)?;
    let volume = BlockSource {
        map: &top.map,
        ..base
    };
    let mut seen = Seen::new(alloc);
    walk_into(alloc, disk, &volume, &top_root(&sup), &mut seen)?;
    let roots = mem::replace(&mut seen.roots, Vec::new(alloc));
    walk_named(alloc, disk, &volume, &roots, &mut seen)?;
    if !do_ascend(&roots) {
        return Err(Why::Roots);
    }
    let mut table = LiveIndex::new(alloc);
    put_lives(&mut table, &top.lives, steps)?;
    put_lives(&mut table, &seen.lives, steps)?;
    Ok(Known {
        sup,
        map: top.map,
        roots,
        free: seen.free,
        table,
    })
}

// Walks the trees that root items name.
fn walk_named<D: Disk>(
    alloc: Global,
    disk: &mut D,
    volume: &BlockSource<'_>,
    roots: &[RootAt],
    seen: &mut Seen,
) -> Result<(), Why>
    requires size { is_node_size volume.now.sup.now.nodesize ≡ true }
    requires end { volume.now.end ≡ D.len disk.old }
{
    for root in roots {
        let e = root_at(root.key.objectid, root.address, root.generation, root.level);
        walk_into(alloc, disk, volume, &e, seen)?;
    }
    Ok(())
}

// Puts pairs into the table.
fn put_lives(
    table: &mut LiveIndex<()>,
    lives: &[Live],
    steps: &mut Steps<()>,
) -> Result<(), NoMemory> {
    for live in lives {
        table.insert(*live, steps)?;
    }
    Ok(())
}

// What is expected of the root of the chunk tree.
fn chunk_root(sup: &Super) -> Expect {
    root_at(
        3,
        sup.chunk_root,
        sup.chunk_root_generation,
        sup.chunk_root_level,
    )
}

// What is expected of the root of the root tree.
fn top_root(sup: &Super) -> Expect {
    root_at(1, sup.root, sup.generation, sup.root_level)
}

// What is expected of the root of a tree.
fn root_at(tree: u64, address: u64, generation: u64, level: u8) -> Expect {
    Expect {
        tree,
        address,
        generation,
        level,
        low: None,
        high: None,
        parent: 0,
    }
}

// Whether root items stand in the order of their keys.
fn do_ascend(roots: &[RootAt]) -> bool
    ensures { result ≡ true → KeysAscend roots.now }
{
    match roots {
        [] => true,
        [first, rest @ ..] => stands_before(first, rest) && do_ascend(rest),
    }
}

// Whether a root item stands before each of others.
fn stands_before(first: &RootAt, others: &[RootAt]) -> bool
    ensures { result ≡ true →
        AllByRecursion (λ (later : ARoot). key_below first.now.key later.key ≡ true) others.now }
{
    others.iter().all(|later| first.key.is_below(&later.key))
}
