//! A ledger and a table of spans, moved by what a commit does to them.

ghost use Rattle.std.specs.Prelude.{◌≡◌, ◌+◌, ◌≤◌, OnOk};
ghost use Rattle.ledger_index.specs.Ledger.{IsTidy, sums_of};
ghost use Rattle.touched_accounts.specs.Sums.{less_all, with_all};
ghost use Rattle.span_index.specs.Table.{times_of};
ghost use Rattle.commit_judge.specs.Looks.{looks_to_apply};
ghost use Rattle.commit_judge.specs.Tables.{with_spans, without_spans};

use crate::moves::Moves;
use crate::spans::{put_spans, take_spans};
use ledger_index::LedgerIndex;
use recon_disk::Steps;
use span_index::SpanIndex;
use touched_accounts::{put_all, take_all};
use verdict::NoMemory;

/// Takes from a ledger and a table what is gone, and puts what came, with a look for each posting and each span. Out of memory, a part of
/// it is done.
pub(crate) fn apply<L>(
    totals: &mut LedgerIndex<L>,
    spans: &mut SpanIndex<L>,
    moves: &Moves,
    steps: &mut Steps<L>,
) -> Result<(), NoMemory>
    ensures sums { OnOk result (sums_of totals.new ≡
        with_all (less_all (sums_of totals.old) moves.now.gone) moves.now.came) }
    ensures spans { OnOk result (times_of spans.new ≡
        with_spans (without_spans (times_of spans.old) moves.now.gone_spans.items)
        moves.now.came_spans.items) }
    ensures entries { IsTidy totals.old → IsTidy totals.new }
    ensures looks { steps.new ≤ steps.old + looks_to_apply moves.now }
{
    take_all(totals, &moves.gone, steps);
    put_all(totals, &moves.came, steps)?;
    take_spans(spans, moves.gone_spans.as_slice(), steps);
    put_spans(spans, moves.came_spans.as_slice(), steps)
}

/// Takes from a ledger and a table what came, and puts what is gone, with as many looks. Out of memory, a part of it is done.
pub(crate) fn undo<L>(
    totals: &mut LedgerIndex<L>,
    spans: &mut SpanIndex<L>,
    moves: &Moves,
    steps: &mut Steps<L>,
) -> Result<(), NoMemory>
    ensures sums { OnOk result (sums_of totals.new ≡
        with_all (less_all (sums_of totals.old) moves.now.came) moves.now.gone) }
    ensures spans { OnOk result (times_of spans.new ≡
        with_spans (without_spans (times_of spans.old) moves.now.came_spans.items)
        moves.now.gone_spans.items) }
    ensures entries { IsTidy totals.old → IsTidy totals.new }
    ensures looks { steps.new ≤ steps.old + looks_to_apply moves.now }
{
    take_all(totals, &moves.came, steps);
    put_all(totals, &moves.gone, steps)?;
    take_spans(spans, moves.came_spans.as_slice(), steps);
    put_spans(spans, moves.gone_spans.as_slice(), steps)
}
