//! The law of where the spans of an image lie.

ghost use Rattle.lookup_bounds.specs.Housed.{HousedLaw};

use commit_laws::{held_law, items_law};

/// The extent of each span of an accepted image that an extent owns or a file shows lies whole in a chunk. Of the spans whose chunk the next
/// image does not keep, those that begin at one address and have no sector taken once, there are no more than spans to which a posting goes
/// that counts, and two for each such posting.
pub fn housed_law()
    ensures { HousedLaw }
{
    held_law();
    items_law();
}
