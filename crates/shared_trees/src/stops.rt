//! Where the walk of a tree as it was stops.

ghost use Rattle.std.specs.Prelude.{◌≡◌, ℕ, IfOk};
ghost use Rattle.std.specs.List.Sorted.{IsNonDecreasingBy};
ghost use Rattle.tree_laws.specs.Known.{blocks_met};
ghost use Rattle.tree_laws.specs.Stopping.{addresses_of, has_address};
ghost use Rattle.tree_laws.specs.Stops.{is_stop};

use std::alloc::Global;
use tree_laws::Met;
use verdict::NoMemory;

/// The blocks at which the walk of a tree as it was stops: those that the walk of the tree as it is met, in the order of that walk. Their
/// logical addresses are kept in rising order besides.
#[derive(Drop)]
pub struct Stops<'m> {
    met: &'m [Met],
    addresses: Vec<u64>,
    ghost same: { (address : ℕ) →
        has_address addresses.items address ≡ is_stop (blocks_met met.now) address },
    ghost order: { IsNonDecreasingBy (λ address. address) addresses.items },
}

impl<'m> Stops<'m> {
    ghost use Rattle.std.specs.Prelude.{IfSome, true};
    ghost use Rattle.live_index.specs.Pairs.{Pairs};
    ghost use Rattle.tree_laws.specs.Known.{AreMetBy};
    ghost use Rattle.shared_trees.specs.OldTrees.{is_stopped};

    /// The blocks that a walk met. Their addresses take their memory from this allocator.
    pub fn new(alloc: Global, met: &'m [Met]) -> Result<Stops<'m>, NoMemory>
        ensures met { IfOk result (λ stops. stops.met.now ≡ met.now) }
        ensures stops { IfOk result (λ stops. (address : ℕ) →
            is_stopped stops address ≡ is_stop (blocks_met met.now) address) }
    {
        let mut addresses = addresses_of(alloc, met)?;
        addresses.sort_unstable();
        Ok(Stops { met, addresses })
    }

    /// Whether one of the blocks has an address.
    pub fn has(&self, address: u64) -> bool
        ensures { result ≡ is_stopped self.now address }
    {
        self.addresses.binary_search(&address).is_ok()
    }

    // The block with a number in the order of the walk.
    pub(crate) fn at(&self, number: usize) -> Option<&Met>
        ensures stop { IfSome result (λ one.
            is_stopped self.now one.now.expect.address ≡ true) }
        ensures known { (pairs : Pairs) → AreMetBy pairs self.now.met.now →
            IfSome result (λ one. one.now.live ≡ pairs one.now.expect.tree one.now.expect.address) }
    {
        if number < self.met.len() {
            Some(&self.met[number])
        } else {
            None
        }
    }
}

// The addresses of blocks, in their order.
#[tactic(auto, using(tree_laws::proofs::Stopping::addresses_more))]
fn addresses_of(alloc: Global, met: &[Met]) -> Result<Vec<u64>, NoMemory>
    ensures { IfOk result (λ addresses. addresses.items ≡ addresses_of met.now) }
{
    let mut addresses = Vec::with_capacity(alloc, met.len())?;
    for one in met {
        addresses.push(one.expect.address)?;
    }
    Ok(addresses)
}
