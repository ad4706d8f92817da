//! Keys, by which Btrfs orders the items of a tree.

ghost use Rattle.std.specs.Prelude.{◌≡◌, ◌+◌, ◌≤◌, length, SomeIff};
ghost use Rattle.verdict.specs.OnDisk.{key_below, key_of};
ghost use Rattle.verdict.specs.Rules.{no_key};

use recon_bytes::u64_at;

/// A key of an item: 17 bytes on the disk, ordered by objectid, kind, offset.
#[derive(Clone, Copy, Debug, PartialEq, Eq, PartialOrd, Ord, Hash)]
pub struct Key {
    /// The object that the item belongs to, as an inode number or a logical address in bytes.
    pub objectid: u64,
    /// The item's kind, which the format calls its type.
    pub kind: u8,
    /// A third number, whose meaning the kind gives.
    pub offset: u64,
}

impl Key {
    /// The size of a key on the disk in bytes.
    pub const SIZE: usize = 17;

    /// The key (0, 0, 0), which findings have that speak of no item.
    pub fn none() -> Key
        ensures { result ≡ no_key }
    {
        Key {
            objectid: 0,
            kind: 0,
            offset: 0,
        }
    }

    /// Whether this key stands before another.
    pub fn is_below(&self, other: &Key) -> bool
        ensures { result ≡ key_below self.now other.now }
    {
        self < other
    }
}

/// The key in the 17 bytes at byte `at` of an on-disk structure, or `None` exactly where they pass
/// its end.
pub fn key_at(s: &[u8], at: usize) -> Option<Key>
    ensures { SomeIff result (at + 17 ≤ length s.now) (key_of s.now at) }
{
    if s.len() < 17 || at > s.len() - 17 {
        return None;
    }
    let objectid = u64_at(s, at)?;
    let kind = s[at + 8];
    let offset = u64_at(s, at + 9)?;
    Some(Key {
        objectid,
        kind,
        offset,
    })
}

/// The key in the 17 bytes at byte `at` of an on-disk structure that has them.
pub fn get_key(s: &[u8], at: usize) -> Key
    requires { at + 17 ≤ length s.now }
    ensures { result ≡ key_of s.now at }
{
    match key_at(s, at) {
        Some(key) => key,
        None => unreachable!(),
    }
}
