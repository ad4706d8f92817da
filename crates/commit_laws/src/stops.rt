//! The law of a stop while writes go out.

ghost use Rattle.commit_laws.specs.Stops.{StopLaw};

/// Where no live block is hot, an image that keeps each byte that is not written has the full check
/// of the first, and the same is known of it.
pub fn stop_law()
    ensures { StopLaw }
{}
