//! Laws of the judge. Each stands on a function that does nothing.

ghost use Rattle.commit_laws.specs.Frame.{FrameLaw};
ghost use Rattle.commit_judge.specs.EachKnown.{EachIsKnown};
ghost use Rattle.commit_judge.specs.Judging.{CountsLaw, TriedLaw};
ghost use Rattle.commit_judge.specs.Looks.{FewLooksLaw};
ghost use Rattle.commit_judge.specs.Stops.{SafeStops};
ghost use Rattle.commit_judge.specs.Work.{WorkLaw};

use commit_laws::{ascend_law, commit_law, held_law, hot_law, known_spans_law, sound_law};
use lookup_bounds::{blocks_counted_law, housed_law, named_law, pieces_law, postings_law};

/// A commit that is tried is decided.
pub(crate) fn tried_law()
    ensures { TriedLaw }
{
    ascend_law();
    commit_law();
    held_law();
    known_spans_law();
    sound_law();
}

/// The blocks that a commit changes, and those that a stop may harm, are counted among the pairs that are not shared.
pub(crate) fn counts_law()
    ensures { CountsLaw }
{
    held_law();
    hot_law();
}

/// Something is known of each image that the full check accepts. So the laws below, on what is known of an image, speak of
/// every accepted one.
#[tactic(auto, using(crate::proofs::judgements::Known::each_is_known))]
pub fn known_law()
    ensures { EachIsKnown }
{}

/// The frame law: an image of the same length as an accepted one, with the same 4,096 bytes from byte 65,536 on and the same bytes in each
/// copy of the block of each live pair, has the same full check and the same walks. The same is known of both, so that an index that stands
/// for the one stands for the other. No other byte of a device matters.
pub fn frame_law()
    ensures { FrameLaw }
{
    commit_laws::frame_law();
}

/// The stop law. Where no live block is hot, what a stop may leave of a disk on which pending
/// writes went out in part, but none in the superblock place, is as good as the image before: the
/// full check says the same of it. The image with all pending writes over it is an accepted one.
pub fn stop_law()
    ensures { SafeStops }
{
    commit_laws::stop_law();
}

/// The law of looks. To judge a plan that passes costs a number of looks that what the commit changes
/// bounds: it does not grow with the image, but for the spans that share a sector with a changed one.
pub fn few_looks_law()
    ensures { FewLooksLaw }
{}

/// The law of work. To plan and to judge a commit that passes costs no more looks into the index
/// than 64 for each unit of the work between the two images: of the blocks that they do not share,
/// the entries of these, what these post, the spans with a sector to which that goes, the pending
/// writes and the chunks.
pub fn work_law()
    ensures { WorkLaw }
{
    held_law();
    known_spans_law();
    sound_law();
    few_looks_law();
    postings_law();
    blocks_counted_law();
    housed_law();
    named_law();
    pieces_law();
}
