//! Directory entries.

ghost use Rattle.std.specs.Prelude.{◌≡◌, ◌+◌, ◌<◌, ◌≤◌, ◌++◌, length, flat_map, IfOk, IsNone, MatchResult, Ok, Err};
ghost use Rattle.std.specs.Result.{result_err};
ghost use Rattle.verdict.specs.Rules.{first_failing};
ghost use Rattle.fs_items.specs.DirRow.{dir_row, entry_end, entry_head_rows, entry_name_rows, entry_places, entry_rows, index_rows, name_in, name_len, stands_before};
ghost use Rattle.fs_items.specs.Lent.{dir_in, entries_left};

use recon_bytes::get_u16;
use recon_crc::name_hash;
use verdict::kinds::{DIR_INDEX, DIR_ITEM, INODE_ITEM, ROOT_ITEM};
use verdict::{At, Family, Finding, Key, get_key};

/// Directory entries, DIR_ITEM or DIR_INDEX, that keep their rules, in the bytes of their leaf.
#[derive(Clone, Copy, Debug)]
pub struct DirItem<'a> {
    /// The item's key, whose objectid is the directory's inode number. The offset of a DIR_ITEM is the
    /// hash of its names, that of a DIR_INDEX the index of its entry.
    pub key: Key,
    /// The item's bytes, which `entries` reads.
    pub bytes: &'a [u8],
}

/// One entry of a directory.
#[derive(Clone, Copy, Debug, PartialEq, Eq)]
pub struct DirEntry<'a> {
    /// The key of what the entry names: of an inode's item, kind 1, or of a subvolume's root, kind 132.
    pub location: Key,
    /// The type of what it names, 1 to 7: regular, directory, char, block, fifo, socket, symlink.
    pub sort: u8,
    /// The bytes of the name, 1 to 255.
    pub name: &'a [u8],
}

/// The entries of an item that are left, in the order of its bytes.
#[derive(Clone, Copy, Debug, Drop)]
pub struct DirEntries<'a> {
    bytes: &'a [u8],
    place: usize,
}

/// The bytes of an entry before its name.
const HEAD_SIZE: usize = 30;

impl<'a> DirItem<'a> {
    /// The entries, in the order of the bytes.
    pub fn entries(&self) -> DirEntries<'a>
        ensures { entries_left result ≡ (dir_in self.now).entries }
    {
        DirEntries {
            bytes: self.bytes,
            place: 0,
        }
    }
}

impl<'a> Iterator for DirEntries<'a> {
    ghost use Rattle.std.specs.Iterator.{YieldsFirstBy, item_count};
    ghost use Rattle.fs_items.specs.Lent.{entry_fields, entries_left};

    type Item = DirEntry<'a>;

    ghost next_gives = { YieldsFirstBy entry_fields entries_left };

    ghost remaining = { item_count entries_left };

    fn next(&mut self) -> Option<DirEntry<'a>> {
        let (bytes, place) = (self.bytes, self.place);
        if bytes.len() < HEAD_SIZE || place > bytes.len() - HEAD_SIZE {
            return None;
        }
        let size = name_len(bytes, place);
        if size > bytes.len() - HEAD_SIZE - place {
            return None;
        }
        self.place = place + HEAD_SIZE + size;
        Some(DirEntry {
            location: get_key(bytes, place),
            sort: bytes[place + 29],
            name: name_in(bytes, place),
        })
    }
}

/// The directory entries with this key in these bytes, or the finding of the first rule that they break:
/// the tree (U9), and entry by entry its first 30 bytes (I1), location's kind, data_len, name_len, type
/// (I3), the name (I1), and in a DIR_ITEM the name's hash (I4), and that the name is new (I5). Last, that
/// no bytes stand behind the entry of a DIR_INDEX (I1).
#[tactic(auto, unfolding(crate::specs::DirRow::dir_row))]
pub fn read_dir<'a>(at: &At, key: Key, bytes: &'a [u8]) -> Result<DirItem<'a>, Finding>
    ensures { MatchResult result
        (λ item. dir_row at.now key bytes.now ≡ Ok (dir_in item))
        (λ finding. dir_row at.now key bytes.now ≡ Err finding) }
{
    if !at.sort.lists(key) {
        return Err(at.finding(key, Family::U, 9, u64::from(key.kind)));
    }
    let found = if key.kind == DIR_INDEX {
        index_fault(at, key, bytes)
    } else {
        entries_fault(at, key, bytes)
    };
    match found {
        Some(found) => Err(found),
        None => Ok(DirItem { key, bytes }),
    }
}

/// The first finding on the entries of a DIR_ITEM.
fn entries_fault(at: &At, key: Key, bytes: &[u8]) -> Option<Finding>
    ensures { result ≡ first_failing
        (flat_map (entry_rows at.now key bytes.now) (entry_places bytes.now 0)) }
{
    let mut place = 0;
    loop {
        let end = match after_entry(at, key, bytes, place) {
            Ok(end) => end,
            Err(found) => return Some(found),
        };
        if end == bytes.len() {
            return None;
        }
        place = end;
    }
}

/// The first finding on a DIR_INDEX.
#[tactic(auto, using(verdict::proofs::Tables::first_failing_joined))]
fn index_fault(at: &At, key: Key, bytes: &[u8]) -> Option<Finding>
    ensures { result ≡ first_failing (index_rows at.now key bytes.now) }
{
    let end = match after_entry(at, key, bytes, 0) {
        Ok(end) => end,
        Err(found) => return Some(found),
    };
    if end != bytes.len() {
        return Some(at.finding(key, Family::I, 1, bytes.len() as u64));
    }
    None
}

/// The byte behind the entry that begins at byte `place`, or the first finding on it.
#[tactic(auto, using(verdict::proofs::Tables::first_failing_joined))]
fn after_entry(at: &At, key: Key, bytes: &[u8], place: usize) -> Result<usize, Finding>
    requires { place ≤ length bytes.now }
    ensures found { result_err result ≡ first_failing (entry_rows at.now key bytes.now place) }
    ensures end { IfOk result
        (λ end. (end ≡ entry_end bytes.now place) × (end ≤ length bytes.now)) }
{
    if let Some(found) = head_fault(at, key, bytes, place) {
        return Err(found);
    }
    if let Some(found) = name_fault(at, key, bytes, place) {
        return Err(found);
    }
    Ok(place + HEAD_SIZE + name_len(bytes, place))
}

/// The first finding on what an entry has before its name.
#[tactic(auto, unfolding(crate::specs::DirRow::entry_head_rows))]
fn head_fault(at: &At, key: Key, bytes: &[u8], place: usize) -> Option<Finding>
    requires { place ≤ length bytes.now }
    ensures found { result ≡ first_failing (entry_head_rows at.now key bytes.now place) }
    ensures sized { IsNone result → place + 30 ≤ length bytes.now }
{
    let detail = place as u64;
    if bytes.len() - place < HEAD_SIZE {
        return Some(at.finding(key, Family::I, 1, detail));
    }
    if !matches!(bytes[place + 8], INODE_ITEM | ROOT_ITEM) {
        return Some(at.finding(key, Family::I, 3, detail + 8));
    }
    if get_u16(bytes, place + 25) != 0 {
        return Some(at.finding(key, Family::I, 3, detail + 25));
    }
    if !matches!(name_len(bytes, place), 1..=255) {
        return Some(at.finding(key, Family::I, 3, detail + 27));
    }
    if !matches!(bytes[place + 29], 1..=7) {
        return Some(at.finding(key, Family::I, 3, detail + 29));
    }
    None
}

/// The first finding on the name of an entry.
#[tactic(auto, unfolding(crate::specs::DirRow::entry_name_rows))]
fn name_fault(at: &At, key: Key, bytes: &[u8], place: usize) -> Option<Finding>
    requires { place + 30 ≤ length bytes.now }
    ensures found { result ≡ first_failing (entry_name_rows at.now key bytes.now place) }
    ensures sized { IsNone result → entry_end bytes.now place ≤ length bytes.now }
{
    if name_len(bytes, place) > bytes.len() - place - HEAD_SIZE {
        return Some(at.finding(key, Family::I, 1, place as u64 + 30));
    }
    if key.kind != DIR_ITEM {
        return None;
    }
    let hash = u64::from(name_hash(name_in(bytes, place)));
    if hash != key.offset {
        return Some(at.finding(key, Family::I, 4, hash));
    }
    if stands_before(bytes, place) {
        return Some(at.finding(key, Family::I, 5, place as u64));
    }
    None
}

/// Whether an earlier entry of the item has the name of the entry that begins at byte `place`.
///
/// It goes through all earlier entries, which takes no memory, and a leaf bounds it: their names are different
/// and have one hash, and of one hash there are few short names: at most one of four bytes and 256 of five. So
/// an item in a leaf of 65,536 bytes has fewer than 1,900 such entries, one in a leaf of 16,384 bytes fewer
/// than 480.
#[tactic(auto, using(crate::proofs::Entries::stands))]
fn stands_before(bytes: &[u8], place: usize) -> bool
    requires { place + 30 ≤ length bytes.now }
    ensures { result ≡ stands_before bytes.now place }
{
    let name = name_in(bytes, place);
    let mut earlier = 0;
    while earlier < place {
        let next = earlier + HEAD_SIZE + name_len(bytes, earlier);
        if name_in(bytes, earlier) == name {
            return true;
        }
        earlier = next;
    }
    false
}

/// The name of the entry that begins at byte `place`, as far as it stands in the item.
fn name_in(bytes: &[u8], place: usize) -> &[u8]
    requires { place + 30 ≤ length bytes.now }
    ensures { result.now ≡ name_in bytes.now place }
{
    let start = place + HEAD_SIZE;
    let size = name_len(bytes, place).min(bytes.len() - start);
    &bytes[start..start + size]
}

/// The length of the name of the entry that begins at byte `place`.
fn name_len(bytes: &[u8], place: usize) -> usize
    requires { place + 30 ≤ length bytes.now }
    ensures value { result ≡ name_len bytes.now place }
    ensures bound { result < 65536 }
{
    usize::from(get_u16(bytes, place + 27))
}
