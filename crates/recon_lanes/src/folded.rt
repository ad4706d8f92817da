//! The checksum of a run of bytes, most of which are added to those behind them before any goes through a table.

ghost use Rattle.std.specs.Prelude.{◌≡◌, ℕ, ◌≤◌, ◌<◌, length, slice_index};
ghost use Rattle.recon_crc.specs.Checksum.{crc32c_of};
ghost use Rattle.recon_lanes.specs.Folded.{Folds, inverted, laid, window};

use recon_crc::crc32c;

/// The last place to which a byte is sent lies so far behind it.
const REACH: usize = 418;

/// So many bytes are sent on at a time.
const TURN: usize = 4096;

/// From so many bytes on it is faster to send them on.
const LONG: usize = 1024;

/// The CRC-32C of the bytes, as `recon_crc::crc32c` gives it, and faster for some thousands of them. It takes no memory.
///
/// The polynomial of the checksum divides 1 + x^224 + x^624 + x^864 + x^2304 + x^3344. So a byte may be taken away if it is added, by
/// xor, 130, 310, 340, 390 and 418 bytes behind its place. That is done in lanes to all but the last 418 bytes, and only these go through
/// the tables.
pub fn folded_sum(bytes: &[u8]) -> u32
    ensures { result ≡ crc32c_of bytes.now }
{
    if bytes.len() < LONG {
        return crc32c(bytes);
    }
    let mut buffer = [0; REACH + TURN];
    invert(&mut buffer);
    let mut rest = bytes;
    while rest.len() >= REACH + TURN {
        let (turn, behind) = rest.split_at(TURN);
        send(&mut buffer, turn);
        keep_last(&mut buffer);
        rest = behind;
    }
    let last = rest.len() - REACH;
    send(&mut buffer, &rest[..last]);
    crc32c(&last_bytes(&buffer[last..last + REACH], &rest[last..]))
}

/// Inverts the first four bytes: where the register starts at all ones, that is as if it started at 0.
fn invert(bytes: &mut [u8])
    requires { 4 ≤ length bytes.old }
    ensures { bytes.new ≡ inverted bytes.old }
{
    bytes[0] ^= 255;
    bytes[1] ^= 255;
    bytes[2] ^= 255;
    bytes[3] ^= 255;
}

/// Sends each byte on to five places behind it. What the bytes before the first send stands in the front of the buffer, and what is
/// taken away stands behind that.
fn send(buffer: &mut [u8; 4514], bytes: &[u8])
    requires bytes { (place : ℕ) → slice_index buffer.old place < 256 }
    requires few { length bytes.now ≤ 4096 }
    ensures { Folds buffer.old buffer.new bytes.now (length bytes.now) }
{
    for i in 0..bytes.len() {
        buffer[REACH + i] = bytes[i]
            ^ buffer[288 + i]
            ^ buffer[108 + i]
            ^ buffer[78 + i]
            ^ buffer[28 + i]
            ^ buffer[i];
    }
}

/// Puts the last bytes of the buffer to its front, as many as send something on still.
fn keep_last(buffer: &mut [u8; 4514])
    requires { (place : ℕ) → slice_index buffer.old place < 256 }
    ensures last { window buffer.new 0 ≡ window buffer.old 4096 }
    ensures bytes { (place : ℕ) → slice_index buffer.new place < 256 }
{
    buffer.copy_within(TURN.., 0);
}

/// The last bytes, with what those before them send to their places. The first four are inverted, since the register starts at all ones
/// here too.
fn last_bytes(before: &[u8], bytes: &[u8]) -> [u8; 418]
    requires before { length before.now ≡ 418 }
    requires bytes { length bytes.now ≡ 418 }
    ensures { result ≡ laid (inverted before.now) bytes.now }
{
    let mut wide = [0; 2 * REACH];
    wide[..REACH].copy_from_slice(before);
    invert(&mut wide);
    with_sent(&wide, bytes)
}

/// The bytes, with what those before them send to their places.
fn with_sent(before: &[u8; 836], bytes: &[u8]) -> [u8; 418]
    requires { length bytes.now ≡ 418 }
    ensures { result ≡ laid before.now bytes.now }
{
    let mut sums = [0; REACH];
    for i in 0..REACH {
        sums[i] = bytes[i]
            ^ before[288 + i]
            ^ before[108 + i]
            ^ before[78 + i]
            ^ before[28 + i]
            ^ before[i];
    }
    sums
}
