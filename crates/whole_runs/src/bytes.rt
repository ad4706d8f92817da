//! Bytes at places.

/// Puts bytes at a place, where they lie inside.
pub fn put(bytes: &mut [u8], at: usize, from: &[u8]) {
    if at < bytes.len() && from.len() <= bytes.len() - at {
        bytes[at..at + from.len()].copy_from_slice(from);
    }
}

/// At most so many bytes from a place on.
pub fn part(bytes: &[u8], at: u64, len: usize) -> &[u8] {
    let at = (at as usize).min(bytes.len());
    &bytes[at..at + len.min(bytes.len() - at)]
}

/// Whether each byte is the old or the new one.
pub fn is_in_part(left: &[u8], old: &[u8], new: &[u8]) -> bool {
    left.len() == old.len()
        && left
            .iter()
            .zip(old)
            .zip(new)
            .all(|((left, old), new)| left == old || left == new)
}

/// The superblock place.
pub fn superblock_in(image: &[u8]) -> &[u8] {
    part(image, 65_536, 4096)
}
