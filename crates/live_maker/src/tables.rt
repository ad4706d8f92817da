//! Tables of live pairs that lists of pairs change.

ghost use Rattle.std.specs.Prelude.{◌≡◌, ◌+◌, ◌≤◌, length, OnOk};
ghost use Rattle.live_index.specs.Table.{pairs_of};
ghost use Rattle.live_maker.specs.Tables.{with_pairs, without_pairs};

use live_index::{Live, LiveIndex};
use recon_disk::Steps;
use verdict::NoMemory;

/// Puts pairs into a table, one after the other, each in the place of the one with its tree and address. Each looks once into the
/// table. Where memory runs out, those before the first that had none are put.
pub fn put_pairs<L>(
    table: &mut LiveIndex<L>,
    lives: &[Live],
    steps: &mut Steps<L>,
) -> Result<(), NoMemory>
    ensures ok { OnOk result (
        pairs_of table.new ≡ with_pairs (pairs_of table.old) lives.now) }
    ensures looks { steps.new ≤ steps.old + length lives.now }
{
    for live in lives {
        table.insert(*live, steps)?;
    }
    Ok(())
}

/// Takes out of a table what stands where these pairs do: at the tree and the address of each. Each looks once into the table.
pub fn take_pairs<L>(table: &mut LiveIndex<L>, lives: &[Live], steps: &mut Steps<L>)
    ensures pairs { pairs_of table.new ≡ without_pairs (pairs_of table.old) lives.now }
    ensures looks { steps.new ≤ steps.old + length lives.now }
{
    for live in lives {
        table.remove(live.tree, live.address, steps);
    }
}
