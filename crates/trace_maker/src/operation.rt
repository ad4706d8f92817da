//! The operations of a workload.

/// What a commit does. Inodes stand in the file tree 5; the inode that commit k makes has the number
/// 256 + k.
#[derive(Clone, Copy, Debug, PartialEq, Eq)]
pub enum Operation {
    /// Makes a subvolume in the top directory.
    Subvolume {
        /// The number of its tree.
        id: u64,
    },
    /// Makes a directory in the top directory.
    Directory {
        /// The number of its inode.
        ino: u64,
    },
    /// Makes an empty file.
    File {
        /// The number of its inode.
        ino: u64,
        /// The directory that it stands in.
        dir: u64,
    },
    /// Makes a file with one extent of data.
    Filled {
        /// The number of its inode.
        ino: u64,
        /// The directory that it stands in.
        dir: u64,
        /// The length of the extent in sectors of 4096 bytes, 1 to 8.
        sectors: u8,
        /// 3 for data with sums, 4 for a file without sums, 5 for a preallocated extent.
        sort: u8,
    },
    /// Makes a file that shares the whole extent of another.
    Shared {
        /// The number of its inode.
        ino: u64,
        /// The directory that it stands in.
        dir: u64,
        /// The file whose extent it shares.
        of: u64,
    },
    /// Removes a file.
    Removed {
        /// The number of its inode.
        ino: u64,
    },
}
