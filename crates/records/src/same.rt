//! Whether the lists that two items lend are the same.

ghost use Rattle.std.specs.Prelude.{◌≡◌, ◌↔◌, IsTrue};
ghost use Rattle.volume_items.specs.ChunkItems.{fields_in, stripes_left};
ghost use Rattle.extent_items.specs.ExtentItems.{extent_fields_in, references_left};
ghost use Rattle.fs_items.specs.Lent.{dir_in, entries_left, inode_ref_in, names_left};

use extent_items::{ExtentItem, References};
use fs_items::{DirEntries, DirItem, InodeRef, Names};
use volume_items::{ChunkItem, Stripes};

// Whether two chunk items say the same: the uuids of the devices are not read.
pub(crate) fn same_chunk(one: ChunkItem<'_>, other: ChunkItem<'_>) -> bool
    ensures { IsTrue result ↔ (fields_in one.entry ≡ fields_in other.entry) }
{
    one.key == other.key
        && one.length == other.length
        && one.class == other.class
        && same_stripes(one.stripes(), other.stripes())
}

// Whether two extents say the same.
pub(crate) fn same_extent(one: ExtentItem<'_>, other: ExtentItem<'_>) -> bool
    ensures { IsTrue result ↔ (extent_fields_in one.entry ≡ extent_fields_in other.entry) }
{
    one.key == other.key
        && one.refs == other.refs
        && one.generation == other.generation
        && one.flags == other.flags
        && same_references(one.references(), other.references())
}

// Whether two items have the same names of a file.
pub(crate) fn same_names(one: InodeRef<'_>, other: InodeRef<'_>) -> bool
    ensures { IsTrue result ↔ (inode_ref_in one.entry ≡ inode_ref_in other.entry) }
{
    one.key == other.key && same_name_lists(one.names(), other.names())
}

// Whether two items have the same entries of a directory: the generations in them are not read.
pub(crate) fn same_entries(one: DirItem<'_>, other: DirItem<'_>) -> bool
    ensures { IsTrue result ↔ (dir_in one.entry ≡ dir_in other.entry) }
{
    one.key == other.key && same_entry_lists(one.entries(), other.entries())
}

// Whether two iterators have the same stripes left.
fn same_stripes(mut ones: Stripes<'_>, mut others: Stripes<'_>) -> bool
    ensures { IsTrue result ↔ (stripes_left ones.entry ≡ stripes_left others.entry) }
{
    while let Some(one) = ones.next() {
        match others.next() {
            Some(other) if other == one => {}
            _ => return false,
        }
    }
    others.next().is_none()
}

// Whether two iterators have the same references left.
fn same_references(mut ones: References<'_>, mut others: References<'_>) -> bool
    ensures { IsTrue result ↔ (references_left ones.entry ≡ references_left others.entry) }
{
    while let Some(one) = ones.next() {
        match others.next() {
            Some(other) if other == one => {}
            _ => return false,
        }
    }
    others.next().is_none()
}

// Whether two iterators have the same names left.
fn same_name_lists(mut ones: Names<'_>, mut others: Names<'_>) -> bool
    ensures { IsTrue result ↔ (names_left ones.entry ≡ names_left others.entry) }
{
    while let Some(one) = ones.next() {
        match others.next() {
            Some(other) if other == one => {}
            _ => return false,
        }
    }
    others.next().is_none()
}

// Whether two iterators have the same entries left.
fn same_entry_lists(mut ones: DirEntries<'_>, mut others: DirEntries<'_>) -> bool
    ensures { IsTrue result ↔ (entries_left ones.entry ≡ entries_left others.entry) }
{
    while let Some(one) = ones.next() {
        match others.next() {
            Some(other) if other == one => {}
            _ => return false,
        }
    }
    others.next().is_none()
}
