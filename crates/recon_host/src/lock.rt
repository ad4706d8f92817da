//! A lock on a file, which keeps other programs that take it away.

use std::fs::{File, TryLockError};

/// How a file is shared with other programs while it is open.
#[derive(Clone, Copy)]
pub enum Sharing {
    /// With programs that share it so too.
    Shared,
    /// With none.
    Exclusive,
}

/// A file that can be locked as a whole, from now until it is closed. The lock is advisory: it keeps away the
/// programs that ask for it.
pub trait LockFile {
    /// Locks the file at once. `WouldBlock` says that another open file holds a lock that excludes this one.
    fn lock_as(&self, sharing: Sharing) -> Result<(), TryLockError>;
}

impl LockFile for File {
    fn lock_as(&self, sharing: Sharing) -> Result<(), TryLockError> {
        match sharing {
            Sharing::Shared => self.try_lock_shared(),
            Sharing::Exclusive => self.try_lock(),
        }
    }
}
