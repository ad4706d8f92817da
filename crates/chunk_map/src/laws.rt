//! Laws on the definitions that the chunk map's contracts cite. The functions do nothing.

ghost use Rattle.chunk_map.specs.Laws.{OrdersByStart, PairsNeverRunOut};

/// The chunks of a list by start are the same chunks, ascend by start, and those of one start stand in
/// their old order.
pub fn order_by_start_law()
    ensures { OrdersByStart }
{}

/// The pairs of a system chunk array are all read: that there are fewer pairs than bytes is no bound
/// that a reader meets.
pub fn array_law()
    ensures { PairsNeverRunOut }
{}
