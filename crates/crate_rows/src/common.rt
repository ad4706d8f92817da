//! What several tables of rows share.

use verdict::Key;

/// A key of these three numbers.
pub fn key(objectid: u64, kind: u8, offset: u64) -> Key {
    Key {
        objectid,
        kind,
        offset,
    }
}
