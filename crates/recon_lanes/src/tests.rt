use super::{Eight, Refused, first_difference, folded_sum};
use recon_crc::crc32c;

/// The CRC-32C of the digits from 1 to 9, as it is published.
const DIGITS_SUM: u32 = 0xE306_9283;

#[test]
fn least_difference_of_two_blocks(rt: HostRuntime) {
    let mut other = [7; 70];
    other[63] = 8;
    other[69] = 8;
    assert_eq!(rt; first_difference(&[7; 70], &other), Some(63));
    assert_eq!(rt; first_difference(&[], &[]), None);
}

#[test]
fn a_long_run_has_the_sum_of_the_tables(rt: HostRuntime) {
    let mut bytes = [0; 10_000];
    for place in 0..10_000 {
        bytes[place] = (place % 251) as u8;
    }
    for len in [0, 9, 1023, 1024, 1025, 4513, 4514, 4515, 8610, 10_000] {
        assert_eq!(rt; folded_sum(&bytes[..len]), crc32c(&bytes[..len]));
    }
}

#[test]
fn three_blocks_have_three_sums(rt: HostRuntime) {
    let mut eight = Eight::new(9);
    assert_eq!(rt; eight.push(b"123456789"), Ok(()));
    assert_eq!(rt; eight.push(b"123456789"), Ok(()));
    assert_eq!(rt; eight.push(b"123456789"), Ok(()));
    let sums = eight.sums();
    assert_eq!(rt; sums.count, 3);
    assert_eq!(rt;
        sums.sums,
        [DIGITS_SUM, DIGITS_SUM, DIGITS_SUM, 0, 0, 0, 0, 0]
    );
}

#[test]
fn the_ninth_is_refused(rt: HostRuntime) {
    let mut eight = Eight::new(9);
    for _ in 0..8 {
        assert_eq!(rt; eight.push(b"123456789"), Ok(()));
    }
    let before = eight.sums();
    assert_eq!(rt; before.sums, [DIGITS_SUM; 8]);
    assert_eq!(rt; eight.push(b"987654321"), Err(Refused));
    assert_eq!(rt; eight.sums(), before);
    eight.clear();
    assert_eq!(rt; eight.sums().count, 0);
}
