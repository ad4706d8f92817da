//! Laws on the definition of the checking machine. The functions do nothing.

ghost use Rattle.recon_core.specs.Law.{OrderDecidesNothing};
ghost use Rattle.recon_core.specs.Safe.{StopsAreSafe};

/// Pending writes may come in any order where their ranges do not meet. From one state, two runs of the same
/// such writes in different orders leave states of one image, and every list of events that follows has equal
/// answers, and equal images after each event. So how submitters take turns between two judged events decides
/// nothing where their writes do not overlap.
#[tactic(auto, using(crate::proofs::HeldOrder::order_decides_nothing))]
pub fn order_law()
    ensures { OrderDecidesNothing }
{}

/// Where an event writes over no live block of the image before it and moves none, each image that a stop in the
/// event may leave, such as a power cut, is accepted by the full check: it is the image before the event, the
/// judged one, or the one before with a part of the pending bytes, none of which belongs to a live block.
pub fn stop_law()
    ensures { StopsAreSafe }
{
    commit_judge::stop_law();
    commit_judge::known_law();
}
