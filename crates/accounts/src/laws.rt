//! A law on the definitions that contracts cite. The function does nothing.

ghost use Rattle.accounts.specs.Least.{LeastBrokenIsOne};

/// Of the accounts that some postings break there is one least at most: the relation by which a judge may find it holds
/// of the definition's account, and of no other.
#[tactic(auto, using(crate::proofs::First::least_broken_is_one))]
pub fn least_broken_law()
    ensures { LeastBrokenIsOne }
{}
