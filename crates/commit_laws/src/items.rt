//! Laws of the items of an image.

ghost use Rattle.commit_laws.specs.Blocks.{BlocksLaw};
ghost use Rattle.commit_laws.specs.Items.{ItemsLaw};

/// No two items of an image have one tree and key, and each keeps what its row asks.
pub fn items_law()
    ensures { ItemsLaw }
{}

/// The item of a tree block of an accepted image has the level of the live block at its address.
pub fn blocks_law()
    ensures { BlocksLaw }
{}
