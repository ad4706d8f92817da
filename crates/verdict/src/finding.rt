//! Findings of the full check: the rule that an image breaks, and where.

ghost use Rattle.std.specs.Prelude.{◌≡◌};
ghost use Rattle.verdict.specs.Letter.{letter_of};
ghost use Rattle.verdict.specs.Rules.{image_finding};

use crate::Key;

/// The families of rules. A finding prints its rule as the family's letter and the rule's number.
#[derive(Clone, Copy, Debug, PartialEq, Eq, PartialOrd, Ord, Hash)]
pub enum Family {
    /// The superblock and the system chunk array.
    S,
    /// What lies outside the supported profile.
    U,
    /// Tree blocks, nodes and leaves.
    N,
    /// Items.
    I,
    /// The chunk map.
    M,
    /// The list of root items.
    X,
    /// Accounts over the whole image.
    A,
    /// File data against its checksums.
    D,
    /// The free space tree.
    F,
    /// The log tree.
    L,
}

impl Family {
    /// The ASCII code of the variant's name.
    pub fn letter(&self) -> u8
        ensures { result ≡ letter_of self.now }
    {
        match self {
            Family::S => b'S',
            Family::U => b'U',
            Family::N => b'N',
            Family::I => b'I',
            Family::M => b'M',
            Family::X => b'X',
            Family::A => b'A',
            Family::D => b'D',
            Family::F => b'F',
            Family::L => b'L',
        }
    }
}

/// A rule of the full check, as `N2`.
#[derive(Clone, Copy, Debug, PartialEq, Eq, PartialOrd, Ord, Hash)]
pub struct Rule {
    /// The family, printed as its letter.
    pub family: Family,
    /// The number in the family.
    pub number: u8,
}

/// What the full check finds in an image that it does not accept.
#[derive(Clone, Copy, Debug, PartialEq, Eq, PartialOrd, Ord, Hash)]
pub struct Finding {
    /// The rule that fails.
    pub rule: Rule,
    /// The id of the tree, 0 where the rule is of no tree.
    pub tree: u64,
    /// The logical address of the block in bytes, 0 where the rule is of no block.
    pub block: u64,
    /// The key of the item, (0, 0, 0) where the rule is of no item.
    pub key: Key,
    /// What the rule adds: a field's value, an offset in bytes or a place in a list.
    pub detail: u64,
}

/// What the full check says of an image.
#[derive(Clone, Copy, Debug, PartialEq, Eq)]
pub enum Verdict {
    /// The image is accepted.
    Accept {
        /// The generation of its superblock.
        generation: u64,
    },
    /// The first rule that fails.
    Found(Finding),
}

impl Finding {
    /// The finding of a rule on the whole image, which names no tree, no block and no key.
    pub fn of_image(family: Family, number: u8, detail: u64) -> Finding
        ensures { result ≡ image_finding family number detail }
    {
        Finding {
            rule: Rule { family, number },
            tree: 0,
            block: 0,
            key: Key::none(),
            detail,
        }
    }
}
