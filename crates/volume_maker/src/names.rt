//! The names in the directories.

ghost use Rattle.std.specs.Prelude.{◌≡◌, ◌++◌, ◌<◌, ◌≤◌, ◌^◌, length, IfOk, string_bytes, string_len};
ghost use Rattle.std.specs.Fmt.{decimal};

use crate::kinds::{FS_TREE, INODE_ITEM, ROOT_ITEM, TOP};
use crate::volume::{Volume, inode_of};
use std::alloc::Global;
use verdict::{Key, NoMemory};

/// A name in a directory of the file tree.
#[derive(Drop)]
pub struct Entry {
    /// The directory.
    pub dir: u64,
    /// What the name leads to.
    pub location: Key,
    /// The type of what it leads to: 1 a file, 2 a directory.
    pub sort: u8,
    /// The commit that made it.
    pub commit: u32,
    /// The name.
    pub name: String,
    ghost short: { string_len name < 2 ^ 16 },
}

// The name of what commit k makes: a letter and k in decimal.
fn name_of(alloc: Global, letter: &str, k: u32) -> Result<String, NoMemory>
    requires { length letter.now ≤ 1 }
    ensures name { IfOk result (λ name. string_bytes name ≡ letter.now ++ decimal k) }
    ensures short { IfOk result (λ name. string_len name < 2 ^ 16) }
{
    Ok(format!(in alloc; "{letter}{k}")?)
}

// The key of an inode.
fn inode_key(ino: u64) -> Key {
    Key {
        objectid: ino,
        kind: INODE_ITEM,
        offset: 0,
    }
}

/// The names of all that stands in the file tree.
pub fn entries_of(alloc: Global, volume: &Volume) -> Result<Vec<Entry>, NoMemory> {
    let mut entries = Vec::new(alloc);
    for commit in &volume.directories {
        let entry = Entry {
            dir: TOP,
            location: inode_key(inode_of(*commit)),
            sort: 2,
            commit: *commit,
            name: name_of(alloc, "d", *commit)?,
        };
        entries.push(entry)?;
    }
    for file in &volume.files {
        let entry = Entry {
            dir: file.dir,
            location: inode_key(inode_of(file.commit)),
            sort: 1,
            commit: file.commit,
            name: name_of(alloc, "f", file.commit)?,
        };
        entries.push(entry)?;
    }
    for subvolume in &volume.subvolumes {
        let location = Key {
            objectid: subvolume.id,
            kind: ROOT_ITEM,
            offset: u64::MAX,
        };
        let entry = Entry {
            dir: TOP,
            location,
            sort: 2,
            commit: subvolume.commit,
            name: name_of(alloc, "s", subvolume.commit)?,
        };
        entries.push(entry)?;
    }
    Ok(entries)
}

/// The size of a directory: each name in it counts twice.
pub fn directory_size(entries: &[Entry], dir: u64) -> u64 {
    let mut size = 0u64;
    for entry in entries {
        if entry.dir == dir {
            size = size.saturating_add(entry.name.len() as u64 * 2);
        }
    }
    size
}
