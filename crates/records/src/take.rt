//! What takes the records of walks.

ghost use Rattle.std.specs.Prelude.{◌≡◌, OnOk};
ghost use Rattle.records.specs.Seen.{IsLawfulSeen, Seen, seen};
ghost use Rattle.records.specs.Takes.{with_both};

use crate::Record;
use verdict::NoMemory;

/// One that takes records, and makes something of them.
pub trait Taker {
    /// What it makes of records.
    ghost Held: { Type 0 };
    /// What it has made so far.
    ghost held: { Self → Held };
    /// That, with one record more.
    ghost with: { Held → Seen → Held };

    /// Takes a record that a walk gave. Where memory runs out, it may have taken it or not.
    fn take(&mut self, one: &Record<'_>) -> Result<(), NoMemory>
        requires { IsLawfulSeen (seen one.now) }
        ensures { OnOk result (held self.new ≡ with (held self.old) (seen one.now)) };
}

/// One that makes nothing of records.
#[derive(Clone, Copy, Debug)]
pub struct Nothing;

impl Taker for Nothing {
    ghost Held = { Unit {0} };

    ghost held = { λ _. tt {0} };

    ghost with = { λ _ _. tt {0} };

    fn take(&mut self, _one: &Record<'_>) -> Result<(), NoMemory> {
        Ok(())
    }
}

/// Two that take the same records.
#[derive(Debug, Drop)]
pub struct Both<A, B> {
    /// The one that takes a record first.
    pub first: A,
    /// The other.
    pub second: B,
}

impl<A: Taker, B: Taker> Taker for Both<A, B> {
    ghost Held = { A.Held × B.Held };

    ghost held = { λ both. (A.held both.first, B.held both.second) };

    ghost with = { with_both A.with B.with };

    fn take(&mut self, one: &Record<'_>) -> Result<(), NoMemory> {
        self.first.take(one)?;
        self.second.take(one)
    }
}
