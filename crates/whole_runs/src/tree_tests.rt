//! The walk that keeps blocks, over the file tree of the base image.

ghost use Rattle.std.specs.Prelude.{◌≡◌};
ghost use Rattle.live_index.specs.Table.{pairs_of};

use block_source::{BlockSource, Halt};
use chunk_map::ChunkMap;
use image_maker::base_image;
use live_index::{Live, LiveIndex};
use node_reader::Expect;
use recon_disk::{MemDisk, Steps};
use records::Nothing;
use shared_trees::{KnownTree, Starts, walk_changed};
use std::alloc::Global;
use std::process::Abort;
use std::test::Fail;
use super_reader::read_super;
use touched_blocks::{Marks, Move, touched_blocks};
use verdict::kinds::{INODE_ITEM, INODE_REF};
use verdict::{Chunk, Family, Key, NoMemory};
use write_cache::WriteCache;

// The address of the root of the file tree, which is a leaf, and where its two copies stand.
const ROOT: u64 = 5_292_032;

const SECOND: u64 = 13_680_640;

// The chunks of the base image that hold tree blocks.
const CHUNKS: [Chunk; 2] = [
    Chunk {
        start: 1_048_576,
        length: 4_194_304,
        class: 2,
        first: 1_048_576,
        second: None,
    },
    Chunk {
        start: 5_242_880,
        length: 8_388_608,
        class: 36,
        first: 5_242_880,
        second: Some(13_631_488),
    },
];

fn key(objectid: u64, kind: u8, offset: u64) -> Key {
    Key {
        objectid,
        kind,
        offset,
    }
}

// What is known of the root: it has the items of the first directory's inode.
fn known_root() -> Live {
    Live {
        tree: 5,
        address: ROOT,
        level: 0,
        generation: 1,
        first: key(256, INODE_ITEM, 0),
        last: key(256, INODE_REF, 256),
        parent: 0,
        owner: 5,
    }
}

fn expected(generation: u64) -> Expect {
    Expect {
        tree: 5,
        address: ROOT,
        generation,
        level: 0,
        low: None,
        high: None,
        parent: 0,
    }
}

// The finding's rule where the walk has one, and how often it read the disk.
fn walked(
    rt: &impl Abort,
    alloc: Global,
    image: &[u8],
    pending: &[(u64, usize)],
    generation: u64,
) -> Result<(Option<(Family, u8)>, u64), Fail> {
    let mut map = ChunkMap::new(alloc);
    for chunk in CHUNKS {
        assert!(rt; chunk.start < 1 << 30 && chunk.length < 1 << 30);
        map.add(&chunk)?;
    }
    assert!(rt; image.len() == 33_554_432);
    let mut bytes = [0; 4096];
    bytes.copy_from_slice(&image[65_536..69_632]);
    let sup = match read_super(&bytes) {
        Ok(sup) => sup,
        Err(_) => panic!(rt; "the base image has no superblock"),
    };
    assert!(rt; sup.nodesize == 16_384);
    // Each pending write is of so many bytes from an offset on, as they stand.
    let mut cache = WriteCache::new(alloc);
    for (at, len) in pending {
        assert!(rt; *at < 16_777_216 && *len <= 32_768);
        let from = *at as usize;
        cache.put(*at, &image[from..from + *len])?;
    }
    let mut steps = Steps::new(());
    let mut table = LiveIndex::new(alloc);
    table.insert(known_root(), &mut steps)?;
    let end = image.len() as u64;
    let marks = touched_blocks(alloc, &table, &cache, &map, sup.nodesize, end, &mut steps)?;
    let moves = Move::new(&map, &map, sup.nodesize, end);
    let starts = Starts::new(alloc);
    let mut known = known_by(alloc, &table, &marks, &moves, &starts, &mut steps);
    let mut disk = MemDisk::new(Vec::from_slice(alloc, image)?, Vec::new(alloc));
    let source = BlockSource {
        cache: &cache,
        map: &map,
        sup: &sup,
        end,
    };
    let found = match walk_changed(
        alloc,
        &mut disk,
        &source,
        &mut known,
        &expected(generation),
        &mut Vec::new(alloc),
        &mut Nothing,
    ) {
        Ok(()) => None,
        Err(Halt::Found(finding)) => Some((finding.rule.family, finding.rule.number)),
        Err(Halt::Disk) => panic!(rt; "no call of the disk fails"),
        Err(Halt::NoMemory) => return Err(NoMemory.into()),
    };
    Ok((found, disk.reads()))
}

// What is known of a tree as it was by these, before a walk.
pub(crate) fn known_by<'a, 's>(
    alloc: Global,
    table: &'a LiveIndex<()>,
    marks: &'a Marks,
    moves: &'a Move<'a>,
    starts: &'a Starts,
    steps: &'s mut Steps<()>,
) -> KnownTree<'a, 's, ()>
    ensures pairs { pairs_of result.table.now ≡ pairs_of table.now }
{
    KnownTree {
        table,
        marks,
        moves,
        starts,
        steps,
        met: Vec::new(alloc),
        ended: Vec::new(alloc),
        found: None,
        behind: None,
    }
}

#[test]
fn a_block_that_is_known_as_it_is_expected_is_not_read(rt: HostRuntime) -> Result<(), Fail> {
    let base = base_image(rt.alloc())?;
    let image = base.as_slice();
    let rows: [(&[(u64, usize)], u64, Option<(Family, u8)>, u64); 10] = [
        (&[], 1, None, 0),
        // A byte beside it, one of its first copy, and one of its second.
        (&[(ROOT - 1, 1)], 1, None, 0),
        (&[(ROOT, 1)], 1, None, 2),
        (&[(SECOND + 16_383, 1)], 1, None, 2),
        // The same address with another generation.
        (&[], 2, Some((Family::N, 7)), 2),
        // All bytes of a copy but the last, all of one copy, and more than all: the disk is not read for what is pending whole.
        (&[(ROOT, 16_383)], 1, None, 2),
        (&[(ROOT, 16_384)], 1, None, 1),
        (&[(SECOND - 4096, 24_576)], 1, None, 1),
        // Both copies, one of them in two writes.
        (&[(ROOT, 16_384), (SECOND, 16_384)], 1, None, 0),
        (
            &[(ROOT, 4096), (ROOT + 4096, 12_288), (SECOND, 16_384)],
            2,
            Some((Family::N, 7)),
            0,
        ),
    ];
    for (pending, generation, found, reads) in rows {
        let walk = walked(&rt, rt.alloc(), image, pending, generation)?;
        assert_eq!(rt; walk, (found, reads), "generation {generation}");
    }
    Ok(())
}
