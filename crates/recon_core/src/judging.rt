//! What is done with the pending writes.

ghost use Rattle.std.specs.Prelude.{◌≡◌, IfOk, OnOk, OnErr, IsErrOf};
ghost use Rattle.std.specs.FinMap as map;
ghost use Rattle.block_source.specs.Gives.{is_disk_fault};
ghost use Rattle.write_cache.specs.Lent.{pieces_left};
ghost use Rattle.write_cache.specs.Pieces.{ArePiecesOf};
ghost use Rattle.commit_judge.specs.Index.{HasPlaceOf, IndexStands};
ghost use Rattle.recon_core.specs.Standing.{IsBelow, IsJudgement};
ghost use Rattle.recon_core.specs.Judged.{IsLeftOf, Judges};
ghost use Rattle.recon_core.specs.Looks.{JudgesByWork};
ghost use Rattle.recon_core.specs.Moments.{IsAtRest};
ghost use Rattle.recon_core.specs.Order.{HasSentBy, HasSentPart};
ghost use Rattle.recon_core.specs.Sent.{LeavesBy};

use crate::send::let_through;
use commit_judge::{Index, Judged, judge_within};
use plain_check::Fault;
use recon_disk::{Disk, Steps};
use std::alloc::Global;
use verdict::Answer;
use write_cache::{Pieces, WriteCache};

/// Judges the image that the pending writes would make, over a disk of `length` bytes, by what an index says of the disk's image. Where the
/// full check accepts, they go out to the disk; then none is pending any more, and the index stands for that image. After a fault all are
/// pending as before, and the index is spent. All memory is taken before the first write.
#[tactic(auto, unfolding(crate::specs::Order::HasSentBy, crate::specs::Order::HasSentPart))]
pub fn judge_waiting<D: Disk, L>(
    alloc: Global,
    disk: &mut D,
    cache: &mut WriteCache,
    index: &mut Index<L>,
    length: u64,
    steps: &mut Steps<L>,
) -> Result<Answer, Fault>
    requires length { length ≡ D.len disk.old }
    requires below { IsBelow (D.len disk.old) cache.old }
    ensures sort { IfOk result IsJudgement }
    ensures judged { Judges D.Disk disk.old disk.new
        cache.old index.old index.new result (is_disk_fault result) }
    ensures looks { JudgesByWork (D.bytes disk.old) cache.old index.old result steps.old steps.new }
    ensures order { IfOk result (λ answer.
        HasSentBy (HasPlaceOf index.old) answer
        cache.old (D.bytes disk.old) (D.sent disk.old) (D.sent disk.new)) }
    ensures memory { IsErrOf result Fault.NoMemory → D.bytes disk.new ≡ D.bytes disk.old }
    ensures part { OnErr result (HasSentPart (HasPlaceOf index.old)
        cache.old (D.bytes disk.old) (D.sent disk.old) (D.sent disk.new)) }
    ensures unsent { IsErrOf result Fault.NoMemory → D.sent disk.new ≡ D.sent disk.old }
    ensures stops { LeavesBy (λ image. IndexStands image index.old) (IsLeftOf cache.old)
        (D.bytes disk.old) (D.moments disk.old) (D.moments disk.new) }
    ensures rest { OnOk result (IsAtRest (D.bytes disk.old) (D.moments disk.old)
        → IsAtRest (D.bytes disk.new) (D.moments disk.new)) }
    ensures unmoved { IsErrOf result Fault.NoMemory → D.moments disk.new ≡ D.moments disk.old }
    ensures empty { OnOk result (cache.new ≡ map.empty) }
    ensures waits { OnErr result (cache.new ≡ cache.old) }
{
    let Ok(joined) = cache.join() else {
        return Err(Fault::NoMemory);
    };
    let pieces = joined.pieces();
    let answer = judge_pieces(alloc, disk, joined.cache, pieces, index, length, steps)?;
    cache.clear();
    Ok(answer)
}

// The same of a cache with these pieces, which stays as it is.
#[tactic(auto, unfolding(crate::specs::Order::HasSentBy, crate::specs::Order::HasSentPart))]
fn judge_pieces<D: Disk, L>(
    alloc: Global,
    disk: &mut D,
    cache: &WriteCache,
    pieces: Pieces<'_>,
    index: &mut Index<L>,
    length: u64,
    steps: &mut Steps<L>,
) -> Result<Answer, Fault>
    requires length { length ≡ D.len disk.old }
    requires pieces { ArePiecesOf cache.now (pieces_left pieces) }
    requires below { IsBelow (D.len disk.old) cache.now }
    ensures sort { IfOk result IsJudgement }
    ensures judged { Judges D.Disk disk.old disk.new
        cache.now index.old index.new result (is_disk_fault result) }
    ensures looks { JudgesByWork (D.bytes disk.old) cache.now index.old result steps.old steps.new }
    ensures order { IfOk result (λ answer.
        HasSentBy (HasPlaceOf index.old) answer
        cache.now (D.bytes disk.old) (D.sent disk.old) (D.sent disk.new)) }
    ensures memory { IsErrOf result Fault.NoMemory → D.bytes disk.new ≡ D.bytes disk.old }
    ensures part { OnErr result (HasSentPart (HasPlaceOf index.old)
        cache.now (D.bytes disk.old) (D.sent disk.old) (D.sent disk.new)) }
    ensures unsent { IsErrOf result Fault.NoMemory → D.sent disk.new ≡ D.sent disk.old }
    ensures stops { LeavesBy (λ image. IndexStands image index.old) (IsLeftOf cache.now)
        (D.bytes disk.old) (D.moments disk.old) (D.moments disk.new) }
    ensures rest { OnOk result (IsAtRest (D.bytes disk.old) (D.moments disk.old)
        → IsAtRest (D.bytes disk.new) (D.moments disk.new)) }
    ensures unmoved { IsErrOf result Fault.NoMemory → D.moments disk.new ≡ D.moments disk.old }
{
    let judged = judge_within(alloc, disk, cache, length, index, steps)?;
    match judged {
        Judged::Rejected(finding) => Ok(Answer::Rejected(finding)),
        Judged::Passed {
            generation,
            blocks,
            hot,
        } => {
            let_through(disk, cache, pieces, index.superblock())?;
            Ok(Answer::Passed {
                generation,
                blocks,
                hot,
            })
        }
    }
}
