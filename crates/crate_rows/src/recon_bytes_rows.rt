use recon_bytes::*;

// The bytes 0x10, 0x11 .. 0x1a.
const BYTES: [u8; 11] = [
    0x10, 0x11, 0x12, 0x13, 0x14, 0x15, 0x16, 0x17, 0x18, 0x19, 0x1a,
];

#[test]
fn the_lowest_byte_comes_first(rt: HostRuntime) {
    let s = BYTES.as_slice();
    for (at, two, four, eight) in [
        (
            0,
            Some(0x1110),
            Some(0x1312_1110),
            Some(0x1716_1514_1312_1110),
        ),
        (
            3,
            Some(0x1413),
            Some(0x1615_1413),
            Some(0x1a19_1817_1615_1413),
        ),
        (4, Some(0x1514), Some(0x1716_1514), None),
        (7, Some(0x1817), Some(0x1a19_1817), None),
        (8, Some(0x1918), None, None),
        (9, Some(0x1a19), None, None),
        (10, None, None, None),
        (usize::MAX, None, None, None),
    ] {
        assert_eq!(rt; u16_at(s, at), two, "two bytes at {at}");
        assert_eq!(rt; u32_at(s, at), four, "four bytes at {at}");
        assert_eq!(rt; u64_at(s, at), eight, "eight bytes at {at}");
    }
}

#[test]
fn a_field_that_is_put_changes_no_other_byte(rt: HostRuntime) {
    let mut s = [0xffu8; 16];
    put_u16(&mut s, 0, 0x0201);
    put_u32(&mut s, 3, 0x0605_0403);
    put_u64(&mut s, 8, 0x0e0d_0c0b_0a09_0807);
    let want = [1, 2, 0xff, 3, 4, 5, 6, 0xff, 7, 8, 9, 10, 11, 12, 13, 14];
    assert_eq!(rt; s.as_slice(), want.as_slice());
}
