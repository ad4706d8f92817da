//! CRC-32C, the checksum of Btrfs's blocks and data, and the name hash of its directory entries.
#![tactic(auto)]

ghost use Rattle.std.specs.Prelude.{◌≡◌, ℕ, ◌+◌, ◌%◌, ◌^◌, ◌<◌, ◌≤◌, List, ◌++◌, length, drop, slice_index};
ghost use Rattle.std.specs.Fn.{iterate};
ghost use Rattle.recon_crc.specs.Checksum.{eight_steps, register_after, crc32c_of, name_hash_of};

mod tables;

use tables::TABLES;

/// The CRC-32C of the bytes `s`. Btrfs keeps it lowest byte first: a superblock or a tree block in its
/// first four bytes, over its bytes from 32 on, and a data sector in the checksum tree.
#[tactic(auto, unfolding(crate::specs::Checksum::crc32c_of))]
pub fn crc32c(s: &[u8]) -> u32
    ensures { result ≡ crc32c_of s.now }
{
    !register(0xFFFF_FFFF, s)
}

/// The hash of the name `s` of a directory entry. Btrfs has it, widened to 64 bits, as the offset of
/// the key of the entry's DIR_ITEM.
#[tactic(auto, unfolding(crate::specs::Checksum::name_hash_of))]
pub fn name_hash(s: &[u8]) -> u32
    ensures { result ≡ name_hash_of s.now }
{
    register(0xFFFF_FFFE, s)
}

/// Law: the register over a joined list goes on from where it stood after the first part.
#[tactic(auto, using(crate::specs::ChecksumLaws::register_after_joined))]
pub fn joined_law()
    ensures { (start : ℕ) (s t : List ℕ) →
        register_after start (s ++ t) ≡ register_after (register_after start s) t }
{}

/// Law: the sum of a block from byte 32 on does not depend on its first 32 bytes, where it stands.
#[tactic(auto, using(crate::specs::ChecksumLaws::crc32c_past_first_32))]
pub fn past_first_32_law()
    ensures { (a b rest : List ℕ) → length a ≡ 32 → length b ≡ 32 →
        crc32c_of (drop 32 (a ++ rest)) ≡ crc32c_of (drop 32 (b ++ rest)) }
{}

/// Law: a checksum and the name hash of bytes are numbers of 32 bits.
#[tactic(auto, using(crate::specs::ChecksumLaws::crc32c_of_fits, crate::specs::ChecksumLaws::name_hash_of_fits))]
pub fn fits_law()
    ensures checksum { (s : List ℕ) → crc32c_of s < 2 ^ 32 }
    ensures hash { (s : List ℕ) → ((i : ℕ) → slice_index s i < 256) → name_hash_of s < 2 ^ 32 }
{}

/// The register after the bytes `s`, from `start`.
fn register(start: u32, s: &[u8]) -> u32
    ensures { result ≡ register_after start s.now }
{
    let mut register = start;
    let mut rest = s;
    while rest.len() >= 16 {
        register = after_sixteen(register, &rest[..16]);
        rest = &rest[16..];
    }
    after_each(register, rest)
}

/// The register after the sixteen bytes, from `register`. Each four of them go in apart, through the
/// bytes behind them, and only the first four wait for the register.
#[inline(always)]
fn after_sixteen(register: u32, bytes: &[u8]) -> u32
    requires { length bytes.now ≡ 16 }
    ensures { result ≡ register_after register bytes.now }
{
    let later = after_four(0, &bytes[4..8], 8)
        ^ after_four(0, &bytes[8..12], 4)
        ^ after_four(0, &bytes[12..16], 0);
    after_four(register, &bytes[..4], 12) ^ later
}

/// The register after the four bytes, from `register`, and then after `behind` bytes of zero.
#[inline(always)]
fn after_four(register: u32, bytes: &[u8], behind: usize) -> u32
    requires four { length bytes.now ≡ 4 }
    requires rows { behind ≤ 12 }
    ensures { result ≡ iterate eight_steps behind (register_after register bytes.now) }
{
    through(behind + 3, register ^ u32::from(bytes[0]))
        ^ through(behind + 2, (register >> 8) ^ u32::from(bytes[1]))
        ^ through(behind + 1, (register >> 16) ^ u32::from(bytes[2]))
        ^ through(behind, (register >> 24) ^ u32::from(bytes[3]))
}

/// The register after the bytes `s`, from `start`, a byte a step.
#[tactic(auto, using(crate::specs::ChecksumLaws::register_after_all))]
fn after_each(start: u32, s: &[u8]) -> u32
    ensures { result ≡ register_after start s.now }
{
    let mut register = start;
    for byte in s {
        register = through(0, register ^ u32::from(*byte)) ^ (register >> 8);
    }
    register
}

/// The lowest byte of `register`, gone through itself and `behind` bytes of zero after it.
#[inline(always)]
fn through(behind: usize, register: u32) -> u32
    requires { behind < 16 }
    ensures { result ≡ iterate eight_steps (behind + 1) (register % 256) }
{
    TABLES[behind][(register % 256) as usize]
}
