//! Laws of what changes in trees. Each stands on a function that does nothing.

ghost use Rattle.tree_change.specs.Accepted.{AcceptedLaw};
ghost use Rattle.tree_change.specs.AllTrees.{AllTreesLaw, GoneLaw, NamedLaw};
ghost use Rattle.tree_change.specs.LooksLaw.{GoneLooksLaw, TreeLooksLaw};
ghost use Rattle.tree_change.specs.OneTree.{OneTreeLaw};
ghost use Rattle.tree_change.specs.Rising.{RisenLaw};

/// What the two walks of a tree give is what changes in it, and their first finding is that of the whole walk.
pub fn one_tree_law()
    ensures { OneTreeLaw }
{}

/// The first finding of the trees that are named now is that of their whole walks.
pub fn named_law()
    ensures { NamedLaw }
{}

/// The walks of trees that are gone have no finding.
pub fn gone_trees_law()
    ensures { GoneLaw }
{}

/// What changes in each tree of an image is all that changes.
pub fn all_trees_law()
    ensures { AllTreesLaw }
{}

/// What changes between two images, with the marked pairs that are left, is all that they do not share.
pub fn risen_law()
    ensures { RisenLaw }
{}

/// In an image whose walks have no finding no two chunks overlap, no two copies of chunks overlap on the device, and each live pair has a
/// place and is on a level below 8. No pair is shared with another image that pending writes touch, or that is above one, or of which the
/// block moved.
pub fn accepted_law()
    ensures { AcceptedLaw }
{}

/// The walks of a tree come to few blocks, by the pairs that change in it: to the first one, to one for each entry of the blocks that are
/// read, and to one for each of these blocks and each of seven levels.
pub fn tree_looks_law()
    ensures { TreeLooksLaw }
{}

/// The same of the walk of a tree that is gone.
pub fn gone_looks_law()
    ensures { GoneLooksLaw }
{}
