//! The readers of the items of files, directories and checksums.
#![tactic(auto)]

mod dir;
mod file_extent;
mod inode;
mod inode_ref;
mod orphan;
mod sums;
mod xattr;

pub use dir::{DirEntries, DirEntry, DirItem, read_dir};
pub use file_extent::{FileExtent, INLINE, read_file_extent};
pub use inode::{InodeItem, read_inode};
pub use inode_ref::{InodeRef, NameAt, Names, read_inode_ref};
pub use orphan::{Orphan, read_orphan};
pub use sums::{SumRun, read_sums};
pub use xattr::{Xattr, read_xattr};
