//! Laws of the walk of a tree that keeps blocks. Each stands on a function that does nothing.

ghost use Rattle.tree_laws.specs.ArrayLaw.{ArrayKeptLaw, ArrayLaw};
ghost use Rattle.tree_laws.specs.ArrayMoves.{ArrayApartLaw, ArrayMovesLaw};
ghost use Rattle.tree_laws.specs.ArrayShifts.{ArrayShiftedLaw, ArraySoundLaw, ArrayWalksLaw};
ghost use Rattle.tree_laws.specs.EndsLaw.{EndsLaw};
ghost use Rattle.tree_laws.specs.ImageLaw.{ReadAlikeLaw, StoredAlikeLaw};
ghost use Rattle.tree_laws.specs.Keeping.{KeepingLaw};
ghost use Rattle.tree_laws.specs.LastLaw.{LastLaw};
ghost use Rattle.tree_laws.specs.Listed.{ListingLaw};
ghost use Rattle.tree_laws.specs.Marking.{MarkingLaw};
ghost use Rattle.tree_laws.specs.MarksLaw.{MarksLaw, MovesLaw};
ghost use Rattle.tree_laws.specs.MergedLaw.{ChunksMergedLaw, KeptWhereLaw, KnownSharedLaw, ListsSeenLaw, MapSeenLaw, MergedLaw, RootsMergedLaw, RootsSeenLaw};
ghost use Rattle.tree_laws.specs.MovedLaw.{MovedLaw};
ghost use Rattle.tree_laws.specs.MeetingLaw.{MeetingLaw};
ghost use Rattle.tree_laws.specs.NarrowLaw.{NarrowLaw};
ghost use Rattle.tree_laws.specs.SharedLaw.{ChunkTreeLaw, KeptLaw, KeptTreeLaw, TreesLaw};
ghost use Rattle.tree_laws.specs.OldSide.{GoneLaw, OldSideLaw, TellsLaw};
ghost use Rattle.tree_laws.specs.ShiftedLaw.{ShiftedLaw};
ghost use Rattle.tree_laws.specs.SkipLaw.{SkippingLaw, WalkIsOwn};
ghost use Rattle.tree_laws.specs.Stopping.{StopsLaw};
ghost use Rattle.tree_laws.specs.SupersLaw.{SupersLaw};
ghost use Rattle.tree_laws.specs.TableLaw.{LivesLaw, TableLaw, TablesLaw, TreeTableLaw};
ghost use Rattle.tree_laws.specs.Unshared.{ReadsTwiceLaw, UnsharedLaw};
ghost use Rattle.tree_laws.specs.VisitsLaw.{AmongLeadsLaw, LeadsLaw, OldLeadsLaw, StopsRestLaw, VisitsLaw};

/// A walk is the own records of the blocks that it comes to, one after the other, or their first finding.
pub fn walk_is_own()
    ensures { WalkIsOwn }
{}

/// A walk that keeps blocks reads none of them, takes none of their own records, and goes on to those that are listed
/// below them. Wherever the keeping is sound, it gives the whole walk's first finding, or its records without those of
/// kept blocks.
pub fn skipping_law()
    ensures { SkippingLaw }
{}

/// What is known of a tree as it was keeps blocks of the tree as it is soundly: a table of its live pairs, marks of
/// those that writes touch and of all above them, and the children that moved or are above a block that moved.
pub fn keeping_law()
    ensures { KeepingLaw }
{}

/// The walk of a tree as it was, which keeps the blocks that the walk of the tree as it is kept and came to, reads just the blocks that
/// are not shared, and gives their own records, each once.
pub fn old_side_law()
    ensures { OldSideLaw }
{}

/// The kept blocks that a walk meets, which keeps blocks soundly and has no finding, are its stops.
pub fn meeting_law()
    ensures { MeetingLaw }
{}

/// A walk that keeps the blocks at the addresses of stops keeps those at the stops, by whatever marks.
pub fn stops_law()
    ensures { StopsLaw }
{}

/// Whether a pair is shared by two images tells which blocks of each tree of the new image are shared, where just these are kept.
pub fn tells_law()
    ensures { TellsLaw }
{}

/// No pair of a tree that the new image has not is shared.
pub fn gone_law()
    ensures { GoneLaw }
{}

/// The whole walk without the records of kept blocks has the blocks of the pairs that are not shared, each once, and the items that
/// stand in their leaves, where just the blocks are kept of which the pairs are shared.
pub fn unshared_law()
    ensures { UnsharedLaw }
{}

/// Each copy of each block among records is read in at most two reads for each block.
pub fn reads_twice_law()
    ensures { ReadsTwiceLaw }
{}

/// Superblocks by which blocks are read alike give walks that come to the same blocks, the same live pairs, and the same stops.
pub fn supers_law()
    ensures { SupersLaw }
{}

/// Blocks that are marked from some on up, by the nodes above that a table of live pairs names, are just those that are
/// above one of these, or are one.
pub fn marking_law()
    ensures { MarkingLaw }
{}

/// Superblocks that agree in the id of the file system, the size of a tree block, the two words of features and the id
/// of the device give the same walks of what is stored.
pub fn read_alike_law()
    ensures { ReadAlikeLaw }
{}

/// What is stored at an address is the same in an image and in the image that pending writes make of it, where no write
/// touches a byte of a copy and the two lists of chunks give the same place.
pub fn stored_alike_law()
    ensures { StoredAlikeLaw }
{}

/// The children that a table lists of the marked pairs, each below the node above it, are the marked children of the blocks
/// of the tree that the table stands for, each with the key of the next pointer.
pub fn listing_law()
    ensures { ListingLaw }
{}

/// The live pairs of the records of a walk are those of the blocks that it comes to, in their order, where it has no
/// finding.
pub fn lives_law()
    ensures { LivesLaw }
{}

/// The table of the live pairs of the records of a tree's walk stands for that walk, where it has no
/// finding: it has the pair of each block that the walk comes to, and nothing else of the tree. No address is come to twice.
pub fn tree_table_law()
    ensures { TreeTableLaw }
{}

/// The table of the live pairs of the records of several trees of different ids stands for the walk of each, where none
/// of these walks has a finding.
pub fn tables_law()
    ensures { TablesLaw }
{}

/// The table of an image's live pairs stands for each of its trees, where the walks of the image have no finding: no
/// tree comes to an address twice, and no two trees have one id. No account is needed.
pub fn table_law()
    ensures { TableLaw }
{}

/// Of the blocks that a new tree's walk comes to, just those are kept whose pair is shared, where the table is that of the
/// old pairs, and just those of the old tree's blocks are marked that writes touch or that are above a touched one.
pub fn kept_tree_law()
    ensures { KeptTreeLaw }
{}

/// The same of each tree of the image that pending writes make of another: the marks alone have to be right.
pub fn kept_law()
    ensures { KeptLaw }
{}

/// The chunk tree of an image, which is read by the chunks of the system array, is the same where it is read by all
/// chunks.
pub fn chunk_tree_law()
    ensures { ChunkTreeLaw }
{}

/// The trees of an image, all read by its chunks, have different ids, and their walks give the image's records.
pub fn trees_law()
    ensures { TreesLaw }
{}

/// The ids of trees and the addresses of an image's live pairs have 64 bits, where its walks have no finding: the headers
/// of the blocks name them.
pub fn narrow_law()
    ensures { NarrowLaw }
{}

/// The kept blocks that the walk meets which keeps blocks show all kept blocks whose node above or greatest key is another
/// than it was: below a kept block, what is not met has the node above and the greatest key that it had.
pub fn moved_law()
    ensures { MovedLaw }
{}

/// Blocks of each tree of an image that are marked from some live pairs on up are just those that are above one of these,
/// or are one.
pub fn marks_law()
    ensures { MarksLaw }
{}

/// The greatest key of a kept block as it is now is that of its last child as it is now, where that child is walked, and
/// else what the table has.
pub fn last_law()
    ensures { LastLaw }
{}

/// The shared pairs of an image with pending writes over it whose node above or greatest key is another than it was are
/// those of the kept blocks that the walks of its trees meet.
pub fn shifted_law()
    ensures { ShiftedLaw }
{}

/// The same of the live pairs whose block stands elsewhere by a new list of chunks: a chunk of the image holds each.
pub fn moves_law()
    ensures { MovesLaw }
{}

/// The items of a tree as it is are those that it had, without those of which the key stood in an old leaf that is not shared, and those
/// that stand in a new leaf that is not: each once, in the order of their keys.
pub fn merged_law()
    ensures { MergedLaw }
{}

/// The blocks whose pairs pass a test are kept just where they pass it.
pub fn kept_where_law()
    ensures { KeptWhereLaw }
{}

/// What is known of a tree as it was tells which blocks it shares with the tree as it is: the premises of the law of the old side do.
pub fn known_shared_law()
    ensures { KnownSharedLaw }
{}

/// What is held after records are taken, of chunks and of root items, is what stands among them.
pub fn lists_seen_law()
    ensures { ListsSeenLaw }
{}

/// The chunk map of an image is the chunks of its chunk tree, where the rules on the map keep.
pub fn map_seen_law()
    ensures { MapSeenLaw }
{}

/// The root items of an image are those of its root tree, where the rules on their list keep.
pub fn roots_seen_law()
    ensures { RootsSeenLaw }
{}

/// The chunks of the new chunk tree are the old ones, without those that begin where one is gone, and those that came, in the order of
/// their first bytes.
pub fn chunks_merged_law()
    ensures { ChunksMergedLaw }
{}

/// The root items of the new root tree are the old ones, without those of which the key is gone, and those that came, in the order of
/// their keys.
pub fn roots_merged_law()
    ensures { RootsMergedLaw }
{}

/// Each block of the chunk tree of an image is judged by the chunks of the system array as by all chunks: where it stands, whether it
/// moved, whether writes touch it, and what its live pair is.
pub fn array_law()
    ensures { ArrayLaw }
{}

/// What is kept of the new chunk tree by the chunks of the new system array is what is shared.
pub fn array_kept_law()
    ensures { ArrayKeptLaw }
{}

/// What the walks of the old and the new chunk tree give by the chunks of the new system array: the laws of one tree hold of them.
pub fn array_walks_law()
    ensures { ArrayWalksLaw }
{}

/// The shifted pairs of an image are those that the walk of its chunk tree meets, by the chunks of the new system array, and those that the
/// walks of its other trees meet, by all chunks.
pub fn array_shifted_law()
    ensures { ArrayShiftedLaw }
{}

/// Blocks of the old chunk tree that are marked where they moved from the old system array to the new one are marked where they moved
/// from all old chunks to it.
pub fn array_moves_law()
    ensures { ArrayMovesLaw }
{}

/// Blocks of the chunk tree are kept soundly by any chunks of a new system array, whatever is stored now.
pub fn array_sound_law()
    ensures { ArraySoundLaw }
{}

/// Any two chunks of a system array lie apart or are the same: an array may have a chunk twice.
pub fn array_apart_law()
    ensures { ArrayApartLaw }
{}

/// The walk that keeps blocks tells of each block that it comes to, behind all below it, the greatest key in it or below it as it is
/// now, where blocks are kept by what is known of the tree as it was.
pub fn ends_law()
    ensures { EndsLaw }
{}

/// A walk that keeps blocks comes to few blocks, by those that it reads: to the first one, to one for each entry of a block that it reads,
/// and to one for each such block and each level below the first. For that each block that is walked below a kept one leads on to others.
pub fn visits_law()
    ensures { VisitsLaw }
{}

/// Each block that is walked below a kept one is not kept or leads on to others, where blocks are kept by what is known of the tree as it
/// was: it moved, or it is above one that did.
pub fn leads_law()
    ensures { LeadsLaw }
{}

/// The same of blocks that are kept at the stops of a walk, of which none has moved.
pub fn old_leads_law()
    ensures { OldLeadsLaw }
{}

/// The same of blocks that are kept at the addresses of these stops.
pub fn among_leads_law()
    ensures { AmongLeadsLaw }
{}

/// No stop of a walk has moved that keeps blocks by what is known of the tree as it was.
pub fn stops_rest_law()
    ensures { StopsRestLaw }
{}
