//! What a commit does to accounts and to spans.

ghost use Rattle.std.specs.Prelude.{◌≡◌, ◌+◌, ◌≤◌, length, IfOk};
ghost use Rattle.change_records.specs.Affected.{context_with};
ghost use Rattle.change_records.specs.Made.{flag_by};
ghost use Rattle.commit_judge.specs.Flags.{free_in};
ghost use Rattle.commit_judge.specs.Index.{known};
ghost use Rattle.commit_judge.specs.Moves.{AreMovesOf, context_after};
ghost use Rattle.commit_judge.specs.Plan.{IsMadeOf, commit_in};

use crate::context::{After, Before};
use crate::index::Index;
use crate::plan::Plan;
use crate::posts::{post_came, post_gone};
use crate::runs::runs_of;
use crate::spans::{came_spans, found_spans, gone_spans};
use accounts::Postings;
use change_records::Made;
use recon_disk::Steps;
use span_index::{Run, Span};
use std::alloc::Global;
use verdict::NoMemory;

/// What a commit does to accounts and to spans.
#[derive(Drop)]
pub(crate) struct Moves {
    // What is posted no longer, and what is posted now.
    pub(crate) gone: Postings,
    pub(crate) came: Postings,
    // The spans that are gone, and those that came.
    pub(crate) gone_spans: Vec<Span>,
    pub(crate) came_spans: Vec<Span>,
    // The runs of all sectors of those that count, and of those of the kept items that post otherwise.
    pub(crate) runs: Vec<Run>,
}

/// What the changes of a plan do to accounts and to spans. `made` is what they make of the flags of inodes.
pub(crate) fn moves_of<L>(
    alloc: Global,
    index: &Index<L>,
    plan: &Plan,
    made: &Made,
    steps: &mut Steps<L>,
) -> Result<Moves, NoMemory>
    requires { IsMadeOf plan.now made.now }
    ensures moves { IfOk result (λ moves. AreMovesOf (known index.now) (commit_in plan.now) moves) }
    ensures looks { steps.new ≤ steps.old + length plan.now.refs.items }
{
    let (was, is) = (&index.sup, &plan.sup);
    let change = &plan.change;
    let changes = plan.changes.as_slice();
    let refs = plan.refs.as_slice();
    let before = Before {
        map: &index.map,
        free: &index.sum_free,
        nodesize: was.nodesize,
    };
    let after = after(index, plan, made);
    let old = change.old_items.as_slice();
    let new = change.new_items.as_slice();
    let gone = post_gone(
        alloc,
        &before,
        was,
        change.old_blocks.as_slice(),
        old,
        changes,
        refs,
    )?;
    let came = post_came(
        alloc,
        &after,
        is,
        change.new_blocks.as_slice(),
        new,
        changes,
        refs,
    )?;
    let gone_spans = gone_spans(alloc, was.nodesize, old, changes)?;
    let came_spans = came_spans(alloc, is.nodesize, new, changes)?;
    let found = found_spans(alloc, &index.spans, was.nodesize, refs, steps)?;
    let runs = runs_of(
        alloc,
        &before,
        &after,
        gone_spans.as_slice(),
        came_spans.as_slice(),
        found.as_slice(),
    )?;
    Ok(Moves {
        gone,
        came,
        gone_spans,
        came_spans,
        runs,
    })
}

/// The context of the judged image, by the index of the accepted one and the plan.
pub(crate) fn after<'a, L>(index: &'a Index<L>, plan: &'a Plan, made: &'a Made) -> After<'a>
    requires { IsMadeOf plan.now made.now }
    ensures { context_with result.map.now result.nodesize
        (λ tree ino. flag_by result.made.now tree ino (free_in result.free.now tree ino))
        ≡ context_after (known index.now) (commit_in plan.now) }
{
    After {
        map: &plan.change.map,
        free: &index.sum_free,
        made,
        nodesize: plan.sup.nodesize,
    }
}
