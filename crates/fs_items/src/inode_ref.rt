//! The names of files.

ghost use Rattle.std.specs.Prelude.{◌≡◌, ◌+◌, ◌≤◌, length, flat_map, SomeIff, IfOk, MatchResult, Ok, Err};
ghost use Rattle.std.specs.Result.{result_err};
ghost use Rattle.verdict.specs.Rules.{first_failing};
ghost use Rattle.fs_items.specs.InodeRefRow.{inode_ref_row, index_at, name_at, name_end, name_place, name_places, name_rows, name_size};
ghost use Rattle.fs_items.specs.Lent.{inode_ref_in, name_fields, names_left};

use recon_bytes::{get_u16, get_u64};
use verdict::kinds::INODE_EXTREF;
use verdict::{At, Family, Finding, Key};

/// The names of a file, INODE_REF or INODE_EXTREF, that keep their rules, in the bytes of their leaf.
#[derive(Clone, Copy, Debug)]
pub struct InodeRef<'a> {
    /// The item's key, whose objectid is the inode's number; of an INODE_REF the offset is the directory's.
    pub key: Key,
    /// The item's bytes, which `names` reads.
    pub bytes: &'a [u8],
}

/// One name of a file.
#[derive(Clone, Copy, Debug, PartialEq, Eq)]
pub struct NameAt<'a> {
    /// The inode's number of the directory that has the name.
    pub parent: u64,
    /// The index of the entry in that directory.
    pub index: u64,
    /// The bytes of the name, 1 to 255.
    pub name: &'a [u8],
}

/// The names of an item that are left, in the order of its bytes.
#[derive(Clone, Copy, Debug, Drop)]
pub struct Names<'a> {
    key: Key,
    bytes: &'a [u8],
    place: usize,
}

impl<'a> InodeRef<'a> {
    /// The names, in the order of the bytes.
    pub fn names(&self) -> Names<'a>
        ensures { names_left result ≡ (inode_ref_in self.now).names }
    {
        Names {
            key: self.key,
            bytes: self.bytes,
            place: 0,
        }
    }
}

impl<'a> Iterator for Names<'a> {
    ghost use Rattle.std.specs.Iterator.{YieldsFirstBy, item_count};
    ghost use Rattle.fs_items.specs.Lent.{name_fields, names_left};

    type Item = NameAt<'a>;

    ghost next_gives = { YieldsFirstBy name_fields names_left };

    ghost remaining = { item_count names_left };

    fn next(&mut self) -> Option<NameAt<'a>> {
        let (key, bytes, place) = (self.key, self.bytes, self.place);
        let Some(start) = name_start(key, bytes, place) else {
            return None;
        };
        let size = name_size(key, bytes, place);
        if size > bytes.len() - start {
            return None;
        }
        self.place = start + size;
        Some(name_at(key, bytes, place))
    }
}

/// The names of a file with this key in these bytes, or the finding of the first rule that they break: the
/// tree (U9), and name by name what stands before the name (I1), the name (I1) and its length (I3).
#[tactic(auto, unfolding(crate::specs::InodeRefRow::inode_ref_row))]
pub fn read_inode_ref<'a>(at: &At, key: Key, bytes: &'a [u8]) -> Result<InodeRef<'a>, Finding>
    ensures { MatchResult result
        (λ item. inode_ref_row at.now key bytes.now ≡ Ok (inode_ref_in item))
        (λ finding. inode_ref_row at.now key bytes.now ≡ Err finding) }
{
    if !at.sort.lists(key) {
        return Err(at.finding(key, Family::U, 9, u64::from(key.kind)));
    }
    match names_fault(at, key, bytes) {
        Some(found) => Err(found),
        None => Ok(InodeRef { key, bytes }),
    }
}

/// The first finding on the names of an item.
fn names_fault(at: &At, key: Key, bytes: &[u8]) -> Option<Finding>
    ensures { result ≡ first_failing
        (flat_map (name_rows at.now key bytes.now) (name_places key bytes.now 0)) }
{
    let mut place = 0;
    loop {
        let end = match after_name(at, key, bytes, place) {
            Ok(end) => end,
            Err(found) => return Some(found),
        };
        if end == bytes.len() {
            return None;
        }
        place = end;
    }
}

/// The byte behind the entry that begins at byte `place`, or the first finding on it.
#[tactic(auto, unfolding(crate::specs::InodeRefRow::name_rows))]
fn after_name(at: &At, key: Key, bytes: &[u8], place: usize) -> Result<usize, Finding>
    ensures found { result_err result ≡ first_failing (name_rows at.now key bytes.now place) }
    ensures end { IfOk result
        (λ end. (end ≡ name_end key bytes.now place) × (end ≤ length bytes.now)) }
{
    let Some(start) = name_start(key, bytes, place) else {
        return Err(at.finding(key, Family::I, 1, place as u64));
    };
    let left = bytes.len() - start;
    let size = name_size(key, bytes, place);
    if size > left {
        return Err(at.finding(key, Family::I, 1, start as u64));
    }
    if size == 0 || size > 255 {
        return Err(at.finding(key, Family::I, 3, start as u64 - 2));
    }
    Ok(start + size)
}

/// Where the name of the entry that begins at byte `place` begins, or `None` where what stands before it
/// passes the end of the item.
fn name_start(key: Key, bytes: &[u8], place: usize) -> Option<usize>
    ensures { SomeIff result (name_place key place ≤ length bytes.now) (name_place key place) }
{
    let before = index_at(key) + 10;
    if bytes.len() < before || place > bytes.len() - before {
        return None;
    }
    Some(place + before)
}

/// The length of the name of the entry that begins at byte `place`.
fn name_size(key: Key, bytes: &[u8], place: usize) -> usize
    requires { name_place key place ≤ length bytes.now }
    ensures { result ≡ name_size key bytes.now place }
{
    usize::from(get_u16(bytes, place + index_at(key) + 8))
}

/// The whole entry that begins at byte `place`.
fn name_at(key: Key, bytes: &[u8], place: usize) -> NameAt<'_>
    requires { name_end key bytes.now place ≤ length bytes.now }
    ensures { name_fields result ≡ name_at key bytes.now place }
{
    let parent = if key.kind == INODE_EXTREF {
        get_u64(bytes, place)
    } else {
        key.offset
    };
    let index = place + index_at(key);
    let start = index + 10;
    NameAt {
        parent,
        index: get_u64(bytes, index),
        name: &bytes[start..start + name_size(key, bytes, place)],
    }
}

/// Where the index stands in an entry: behind the parent in an INODE_EXTREF, first in an INODE_REF.
fn index_at(key: Key) -> usize
    ensures { result ≡ index_at key }
{
    if key.kind == INODE_EXTREF { 8 } else { 0 }
}
