//! The postings of a record to the accounts of space.

ghost use Rattle.std.specs.Prelude.{◌≡◌, ℕ, ◌+◌, ◌*◌, ◌<◌, ◌^◌, Some, IfSome};
ghost use Rattle.accounts.specs.Posts.{Posts, PostsWhere};
ghost use Rattle.fs_items.specs.Lent.{sums_in};
ghost use Rattle.volume_items.specs.ChunkItems.{fields_in};
ghost use Rattle.sector_runs.specs.Runs.{IsFit, amount_in};
ghost use Rattle.sector_runs.specs.declared.run.SectorUse.TheVariants.{Shown as IsShown};
ghost use Rattle.fs_items.specs.declared.file_extent.FileExtent.{FileExtent as ARange};
ghost use Rattle.records.specs.Part.{IsLawful, part_of};
ghost use Rattle.records.specs.Part.Part.{FileExtentPart, SumsPart};
ghost use Rattle.records.specs.SpacePostings.{
  chunk_postings,
  dev_extent_postings,
  group_postings,
  rest_postings,
  sector_sum,
  shows_sums,
  space_postings,
};
ghost use Rattle.space_rules.specs.RunPostings.{run_in, summed_run};

use crate::place::place_of;
use crate::sectors::{post_run_in, sectors_at};
use accounts::kinds::{
    BYTES_IN_GROUPS, BYTES_SAID, CHUNK_STRIPES, DEVICE_RANGES, DEVICE_SAID, DEVICE_TAKEN,
    GROUP_CHUNKS, GROUP_ITEMS, GROUP_USED,
};
use accounts::{Account, Ctx, Poster, Posting, Postings};
use extent_items::GroupItem;
use fs_items::{FileExtent, SumRun};
use records::Rec;
use sector_runs::{SectorRun, SectorUse};
use std::alloc::Global;
use verdict::{NoMemory, SECTOR};
use volume_items::{ChunkItem, DevExtent};

/// The type of a range of a file that is written.
const REGULAR: u8 = 1;

/// Puts behind the postings what a record of a tree, by the tree's id, says of the space of the volume and of the
/// device: the superblock, chunks, the device and its ranges, block groups, extents, ranges of files, and checksums.
/// The accounts take their memory from this allocator. Out of memory, a first part of these postings may stand there.
/// Of a record that no reader gives nothing is said but that the old postings stand in front.
#[tactic(auto, unfolding(records::specs::SpacePostings::space_postings))]
pub fn post<C: Ctx>(
    alloc: Global,
    ctx: &C,
    tree: u64,
    part: &Rec<'_>,
    into: &mut Postings,
) -> Result<(), NoMemory>
    ensures { PostsWhere (IsLawful (part_of part.now))
        into.old into.new result (space_postings (C.context ctx.now) tree (part_of part.now)) }
{
    match part {
        Rec::ExtentItem(item) => place_of(ctx, item).post(alloc, into),
        Rec::FileExtent(range) => post_run_in(alloc, shown_run(ctx, tree, range), into),
        Rec::SumRun(run) => post_run_in(alloc, summed_run(run), into),
        _ => post_rest(alloc, ctx, tree, part, into),
    }
}

/// Hands on the same postings, in the same order, without those to sectors. Out of memory, a first part of them may be
/// handed on; in a list, that part stands behind the old ones.
#[tactic(auto, unfolding(records::specs::SpacePostings::space_postings))]
pub fn post_rest<C: Ctx, P: Poster>(
    alloc: Global,
    ctx: &C,
    tree: u64,
    part: &Rec<'_>,
    into: &mut P,
) -> Result<(), NoMemory>
    ensures { P.Leaves into.old into.new result
        (rest_postings (C.context ctx.now) tree (part_of part.now)) }
{
    match part {
        Rec::Super { bytes_used } => {
            into.put(Posting::to(Account::bytes_used(alloc), BYTES_SAID, *bytes_used))
        }
        Rec::ChunkItem(item) => post_chunk(alloc, item, into),
        Rec::DeviceItem(item) => {
            into.put(Posting::to(
                Account::device(alloc, item.devid),
                DEVICE_SAID,
                item.bytes_used,
            ))
        }
        Rec::DevExtent(item) => post_dev_extent(alloc, item, into),
        Rec::GroupItem(item) => post_group(alloc, item, into),
        Rec::ExtentItem(item) => place_of(ctx, item).post_rest(alloc, into),
        _ => Ok(()),
    }
}

/// The run of sectors that a record of a tree, by the tree's id, is of: those that an extent has, that checksums are
/// of, or that a range of a file shows. It comes to what the record posts to sectors, and `None` to nothing. Nothing
/// is said of a record that no reader gives, but that a range of a file has no run of another use.
pub fn run_of<C: Ctx>(ctx: &C, tree: u64, part: &Rec<'_>) -> Option<SectorRun>
    ensures sums { IsLawful (part_of part.now) → (address field : ℕ) →
        sector_sum (C.context ctx.now) tree (part_of part.now) address field
        ≡ amount_in result address field }
    ensures fits { IsLawful (part_of part.now) → IfSome result IsFit }
    ensures shown { (range : ARange) → part_of part.now ≡ FileExtentPart range →
        IfSome result (λ run. run.sort ≡ IsShown) }
{
    match part {
        Rec::ExtentItem(item) => place_of(ctx, item).run(),
        Rec::FileExtent(range) => shown_run(ctx, tree, range),
        Rec::SumRun(run) => summed_run(run),
        _ => None,
    }
}

// A chunk: its group, and each of its stripes.
fn post_chunk<P: Poster>(alloc: Global, item: &ChunkItem<'_>, into: &mut P) -> Result<(), NoMemory>
    ensures { P.Leaves into.old into.new result (chunk_postings (fields_in item.now)) }
{
    let start = item.key.offset;
    let group = Account::group(alloc, start, item.length, item.class);
    into.put(Posting::to(group, GROUP_CHUNKS, 1))?;
    for stripe in item.stripes() {
        let stripe = Account::stripe(alloc, start, stripe.devid, stripe.physical, item.length);
        into.put(Posting::to(stripe, CHUNK_STRIPES, 1))?;
    }
    Ok(())
}

// A range of the device.
fn post_dev_extent<P: Poster>(alloc: Global, item: &DevExtent, into: &mut P) -> Result<(), NoMemory>
    ensures { P.Leaves into.old into.new result (dev_extent_postings item.now) }
{
    let device = item.key.objectid;
    let stripe = Account::stripe(
        alloc,
        item.chunk_offset,
        device,
        item.key.offset,
        item.length,
    );
    into.put(Posting::to(stripe, DEVICE_RANGES, 1))?;
    into.put(Posting::to(Account::device(alloc, device), DEVICE_TAKEN, item.length))
}

// A block group.
fn post_group<P: Poster>(alloc: Global, item: &GroupItem, into: &mut P) -> Result<(), NoMemory>
    ensures { P.Leaves into.old into.new result (group_postings item.now) }
{
    let (start, length, class) = (item.key.objectid, item.key.offset, item.flags);
    into.put(Posting::to(Account::group(alloc, start, length, class), GROUP_ITEMS, 1))?;
    into.put(Posting::to(
        Account::group(alloc, start, length, class),
        GROUP_USED,
        item.used,
    ))?;
    into.put(Posting::to(Account::bytes_used(alloc), BYTES_IN_GROUPS, item.used))
}

// The sectors that a range of a file shows of an extent that a chunk holds: where it is written, no hole, and its
// inode's data has checksums.
fn shown_run<C: Ctx>(ctx: &C, tree: u64, range: &FileExtent) -> Option<SectorRun>
    ensures is { IsLawful (FileExtentPart range.now) →
        result ≡ run_in (C.context ctx.now) tree (FileExtentPart range.now) }
    ensures fits { IfSome result (λ run. run.first + 4096 * run.count < 2 ^ 64) }
    ensures sort { IfSome result (λ run. run.sort ≡ IsShown) }
{
    if !shows_sums(ctx, tree, range) || ctx.home(range.extent, range.extent_length).is_none() {
        return None;
    }
    // No reader gives a part that ends past the addresses of 64 bits.
    let shown = range.extent.checked_add(range.offset)?;
    sectors_at(shown, range.length / SECTOR, SectorUse::Shown)
}

// Whether a range of a file shows sectors that have checksums.
fn shows_sums<C: Ctx>(ctx: &C, tree: u64, range: &FileExtent) -> bool
    ensures { result ≡ shows_sums (C.context ctx.now) tree range.now }
{
    range.sort == REGULAR && range.extent != 0 && !ctx.sum_free(tree, range.key.objectid)
}

// The sectors that checksums are of.
fn summed_run(run: &SumRun<'_>) -> Option<SectorRun>
    ensures is { IsLawful (SumsPart (sums_in run.now)) →
        result ≡ Some (summed_run (sums_in run.now)) }
    ensures fits { IfSome result (λ run. run.first + 4096 * run.count < 2 ^ 64) }
{
    let count = run.sums.len() as u64 / 4;
    sectors_at(run.key.offset, count, SectorUse::Summed)
}
