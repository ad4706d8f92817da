//! The trees of a volume in the metadata chunk, block by block.

ghost use Rattle.std.specs.Prelude.{◌≡◌, ◌+◌, ◌<◌, [], IfOk, OnOk};
ghost use Rattle.std.specs.List.{All};
ghost use Rattle.volume_maker.specs.Live.{all_blocks, blocks_of, device_block, kept_blocks, AreInChunk, AreKeptOrNew, IsBefore, IsOverNoLive, IsUpTo};
ghost use Rattle.volume_maker.specs.Remade.{IsBusy, IsRemade};

use crate::block::BlockAt;
use crate::contents::{
    data_used, empty_files, extent_items, file_items, metadata_used, root_items, sum_items,
};
use crate::space::Space;
use crate::tree::{Tree, block_count, tree_of};
use crate::volume::Volume;
use image_maker::LeafItem;
use std::alloc::Global;
use verdict::NoMemory;
use verdict::trees::{CSUM_TREE, DEV_TREE, EXTENT_TREE, FS_TREE, ROOT_TREE};

/// The block of the device tree, which no commit changes.
const DEVICE_BLOCK: BlockAt = BlockAt {
    number: 2,
    tree: DEV_TREE,
    level: 0,
    generation: 1,
};

/// The trees of a volume, all but the chunk tree and the device tree, which no commit changes.
#[derive(Drop)]
pub struct Trees {
    alloc: Global,
    /// The root tree.
    pub roots: Tree,
    /// The extent tree.
    pub extents: Tree,
    /// The file tree.
    pub files: Tree,
    /// The checksum tree.
    pub sums: Tree,
    /// The trees of the subvolumes, in order of making.
    pub subvolumes: Vec<Tree>,
}

// A tree of one leaf of the base image.
fn base_tree(alloc: Global, number: u16, tree: u64, items: &[LeafItem]) -> Result<Tree, NoMemory>
    ensures in_chunk { IfOk result (λ made. AreInChunk (blocks_of made)) }
    ensures first { IfOk result (λ made. IsUpTo 1 (blocks_of made)) }
{
    let mut space = Space::new(alloc)?;
    for lower in 0..number {
        space.take(lower);
    }
    tree_of(alloc, None, &mut space, tree, 1, items)
}

// The blocks that a tree with these items, and so many blocks, is to have in these places.
fn list_new(
    into: &mut Vec<BlockAt>,
    numbers: &[u16],
    tree: u64,
    generation: u64,
) -> Result<(), NoMemory> {
    for (i, number) in numbers.iter().enumerate() {
        let is_node = i > 0 && i == numbers.len() - 1;
        let at = BlockAt {
            number: *number,
            tree,
            level: if is_node { 1 } else { 0 },
            generation,
        };
        into.push(at)?;
    }
    Ok(())
}

impl Trees {
    /// Those of the base image.
    pub fn new(alloc: Global) -> Result<Trees, NoMemory>
        ensures in_chunk { IfOk result (λ trees. AreInChunk (all_blocks trees)) }
        ensures first { IfOk result (λ trees. IsUpTo 1 (all_blocks trees)) }
    {
        let top = empty_files(alloc)?;
        Ok(Trees {
            alloc,
            roots: base_tree(alloc, 0, ROOT_TREE, &[])?,
            extents: base_tree(alloc, 1, EXTENT_TREE, &[])?,
            files: base_tree(alloc, 3, FS_TREE, &top)?,
            sums: base_tree(alloc, 4, CSUM_TREE, &[])?,
            subvolumes: Vec::new(alloc),
        })
    }

    // The blocks of all trees but the root tree and the extent tree.
    fn kept_blocks(&self) -> Result<Vec<BlockAt>, NoMemory>
        ensures { IfOk result (λ blocks. blocks.items ≡ kept_blocks self.now) }
    {
        let mut blocks = Vec::new(self.alloc);
        blocks.push(DEVICE_BLOCK)?;
        self.files.list(&mut blocks)?;
        self.sums.list(&mut blocks)?;
        for tree in &self.subvolumes {
            tree.list(&mut blocks)?;
        }
        Ok(blocks)
    }

    // The blocks of all trees.
    fn blocks(&self) -> Result<Vec<BlockAt>, NoMemory>
        ensures { IfOk result (λ blocks. blocks.items ≡ all_blocks self.now) }
    {
        let mut blocks = self.kept_blocks()?;
        self.roots.list(&mut blocks)?;
        self.extents.list(&mut blocks)?;
        Ok(blocks)
    }

    // The blocks of the chunk, of which those of these trees are in use.
    fn space(&self) -> Result<Space, NoMemory>
        ensures { IfOk result (λ space. All (λ b. IsBusy space b.number) (all_blocks self.now)) }
    {
        let blocks = self.blocks()?;
        let mut space = Space::new(self.alloc)?;
        for block in &blocks {
            space.take(block.number);
        }
        Ok(space)
    }

    // The items of the root tree, where this is the root block of the extent tree.
    fn root_items(&self, volume: &Volume, extent_root: BlockAt) -> Result<Vec<LeafItem>, NoMemory> {
        let mut roots = Vec::new(self.alloc);
        for root in [
            extent_root,
            DEVICE_BLOCK,
            self.files.root.at,
            self.sums.root.at,
        ] {
            roots.push(root)?;
        }
        for tree in &self.subvolumes {
            roots.push(tree.root.at)?;
        }
        root_items(self.alloc, volume, &roots)
    }

    // The items of the extent tree. It lists its own blocks too, so their number is found by trying.
    fn extent_items(
        &self,
        volume: &Volume,
        space: &Space,
        root_blocks: usize,
        generation: u64,
    ) -> Result<Vec<LeafItem>, NoMemory> {
        let mut count = 1usize;
        for _ in 0..100 {
            let numbers = space.next_of(count.saturating_add(root_blocks))?;
            let (own, others) = numbers.split_at(count.min(numbers.len()));
            let mut blocks = self.kept_blocks()?;
            list_new(&mut blocks, own, EXTENT_TREE, generation)?;
            list_new(&mut blocks, others, ROOT_TREE, generation)?;
            let items = extent_items(self.alloc, volume, &blocks)?;
            let needed = block_count(&items);
            if needed == count {
                return Ok(items);
            }
            count = needed;
        }
        Err(NoMemory)
    }

    // Makes the trees of files and of sums, and those of new subvolumes.
    fn make_files(
        &mut self,
        volume: &Volume,
        space: &mut Space,
        generation: u64,
    ) -> Result<(), NoMemory>
        ensures { OnOk result (IsRemade generation (all_blocks self.old) space.old
            (all_blocks self.new) space.new) }
    {
        let alloc = self.alloc;
        let items = file_items(alloc, volume)?;
        let old = Some(&self.files);
        self.files = tree_of(alloc, old, space, FS_TREE, generation, &items)?;
        let items = sum_items(alloc, volume)?;
        let old = Some(&self.sums);
        self.sums = tree_of(alloc, old, space, CSUM_TREE, generation, &items)?;
        self.make_subvolumes(volume, space, generation)?;
        Ok(())
    }

    // Makes a tree for each subvolume that has none yet.
    fn make_subvolumes(
        &mut self,
        volume: &Volume,
        space: &mut Space,
        generation: u64,
    ) -> Result<(), NoMemory>
        ensures { OnOk result (IsRemade generation (all_blocks self.old) space.old
            (all_blocks self.new) space.new) }
    {
        for subvolume in volume.subvolumes.iter().skip(self.subvolumes.len()) {
            let items = empty_files(self.alloc)?;
            let tree = tree_of(self.alloc, None, space, subvolume.id, generation, &items)?;
            self.subvolumes.push(tree)?;
        }
        Ok(())
    }

    // Makes the extent tree and the root tree, all of new blocks.
    fn make_roots(
        &mut self,
        volume: &Volume,
        space: &mut Space,
        generation: u64,
    ) -> Result<(), NoMemory>
        ensures { OnOk result (IsRemade generation (all_blocks self.old) space.old
            (all_blocks self.new) space.new) }
    {
        let alloc = self.alloc;
        let root_blocks = block_count(&self.root_items(volume, self.extents.root.at)?);
        let items = self.extent_items(volume, space, root_blocks, generation)?;
        self.extents = tree_of(alloc, None, space, EXTENT_TREE, generation, &items)?;
        let items = self.root_items(volume, self.extents.root.at)?;
        self.roots = tree_of(alloc, None, space, ROOT_TREE, generation, &items)?;
        Ok(())
    }

    /// Makes the trees anew of a volume. Blocks whose contents stay are kept where they are; all others are new
    /// blocks of this generation, in places that no block had.
    pub fn remake(&mut self, volume: &Volume, generation: u64) -> Result<(), NoMemory>
        requires in_chunk { AreInChunk (all_blocks self.old) }
        requires before { IsBefore generation (all_blocks self.old) }
        ensures in_chunk { OnOk result (AreInChunk (all_blocks self.new)) }
        ensures up_to { OnOk result (IsUpTo generation (all_blocks self.new)) }
        ensures kept_or_new { OnOk result
            (AreKeptOrNew generation (all_blocks self.old) (all_blocks self.new)) }
        ensures over_no_live { OnOk result
            (IsOverNoLive generation (all_blocks self.old) (all_blocks self.new)) }
    {
        let mut space = self.space()?;
        self.make_files(volume, &mut space, generation)?;
        self.make_roots(volume, &mut space, generation)?;
        Ok(())
    }

    /// The bytes that are used in all chunks, with the one block of the system chunk.
    pub fn bytes_used(&self, volume: &Volume) -> Result<u64, NoMemory> {
        let metadata = metadata_used(self.blocks()?.len());
        Ok(
            metadata
                .saturating_add(data_used(volume))
                .saturating_add(16384),
        )
    }
}
