//! How many events were judged.

ghost use Rattle.std.specs.Prelude.{◌≡◌, ◌+◌, ◌<◌, ◌^◌};
ghost use Rattle.recon_cli.specs.Outcome.{counts_after};

use verdict::Answer;

/// How many judged events were let through, and how many were rejected.
#[derive(Clone, Copy, Debug, PartialEq, Eq)]
pub struct Counts {
    /// Those let through.
    pub passed: u64,
    /// Those rejected.
    pub rejected: u64,
}
