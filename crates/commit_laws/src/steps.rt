//! Laws of the step from one image to the next.

ghost use Rattle.commit_laws.specs.Steps.{PostsLaw, SpansLaw, StepLaw, WholeStepLaw};

/// Between two images that are read alike the records of blocks that are not shared and of named items are gone and came.
pub fn step_law()
    ensures { StepLaw }
{}

/// Between two images that are not read alike all records are gone, and all came.
pub fn whole_step_law()
    ensures { WholeStepLaw }
{}

/// A step changes what is posted, but to sectors, by what is gone, what came and what the context decides of the found items.
pub fn posts_law()
    ensures { PostsLaw }
{}

/// A step changes the spans by those of what is gone and what came.
pub fn spans_law()
    ensures { SpansLaw }
{}
