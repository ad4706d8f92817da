//! The superblock of a judged image.

ghost use Rattle.std.specs.Prelude.{◌≡◌, ℕ, ◌≤◌, List, length};
ghost use Rattle.verdict.specs.Image.{range};
ghost use Rattle.commit_judge.specs.Fresh.{IsFresh};

use super_reader::{Super, read_super};
use verdict::{Finding, SUPERBLOCK_AT};
use write_cache::WriteCache;

/// A superblock: the bytes of its place, and what they say.
#[derive(Clone, Copy)]
pub(crate) struct Fresh {
    // The bytes.
    pub(crate) raw: [u8; 4096],
    // What they say.
    pub(crate) sup: Super,
}

/// The superblock that pending writes make of that of an accepted image, whose bytes are given, or its first finding. The disk is not read.
pub(crate) fn fresh_of(raw: &[u8; 4096], cache: &WriteCache) -> Result<Fresh, Finding>
    ensures { (image : List ℕ) → 69632 ≤ length image → raw.now ≡ range 65536 4096 image →
        IsFresh image cache.now result }
{
    let mut fresh = *raw;
    cache.overlay(SUPERBLOCK_AT, &mut fresh);
    match read_super(&fresh) {
        Ok(sup) => Ok(Fresh { raw: fresh, sup }),
        Err(finding) => Err(finding),
    }
}
