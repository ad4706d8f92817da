//! The finding of the accounts of an image, by the tables of its index.

ghost use Rattle.std.specs.Prelude.{IfOk};
ghost use Rattle.change_records.specs.Affected.{context_with};
ghost use Rattle.ledger_index.specs.Ledger.{sums_of};
ghost use Rattle.span_index.specs.Table.{times_of};
ghost use Rattle.commit_judge.specs.Filling.{FewToSearch, IsFoundBy};
ghost use Rattle.commit_judge.specs.Flags.{free_in};

use crate::context::Before;
use crate::filling::Tables;
use account_tally::least_finding;
use chunk_map::ChunkMap;
use recon_disk::Steps;
use span_index::Run;
use std::alloc::Global;
use verdict::{Finding, NoMemory};

// Where the last sector of 64 bits begins. The spans of an image end there or before.
const END: u64 = 0xffff_ffff_ffff_f000;

/// The finding of the least account that is broken by the tables of an image with these chunks and this size of a tree block in bytes,
/// where one is: of all sectors by the spans, and of the other accounts by their sums.
pub(crate) fn finding_of<L>(
    alloc: Global,
    tables: &Tables<L>,
    map: &ChunkMap,
    nodesize: u32,
    steps: &mut Steps<L>,
) -> Result<Option<Finding>, NoMemory>
    ensures found { IfOk result (IsFoundBy (sums_of tables.now.totals) (times_of tables.now.spans)
        (context_with map.now nodesize (free_in tables.now.free))) }
    ensures looks { IfOk result (λ _. FewToSearch tables.now steps.old steps.new) }
{
    let context = Before {
        map,
        free: &tables.free,
        nodesize,
    };
    let whole = [Run {
        from: 0,
        until: END,
    }];
    let bad = tables.spans.first_bad(&context, &whole, steps);
    let least = tables.totals.least_broken(steps)?;
    // A counter that has told its looks is known to be below 2^64.
    let _ = steps.looks();
    Ok(least_finding(alloc, bad, least.as_ref()))
}
