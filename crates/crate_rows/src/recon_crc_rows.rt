use recon_crc::*;

/// Byte `i` of the pattern is 7 i i + 3 i + 1, modulo 256.
const PATTERN: [u8; 35] = [
    1, 11, 35, 73, 125, 191, 15, 109, 217, 83, 219, 113, 21, 199, 135, 85, 49, 27, 19, 25, 45, 79,
    127, 189, 9, 99, 203, 65, 197, 87, 247, 165, 97, 43, 3,
];

/// The checksum and the name hash of the first byte of the pattern, of its first two, and so on.
const SUMS: [(u32, u32); 35] = [
    (0xA016D052, 0xAD82ACAE),
    (0x7B4A449E, 0x97172316),
    (0x5F3B270F, 0x05854A8E),
    (0x35F89222, 0x1742C765),
    (0x5D7E4D34, 0x9A90DD67),
    (0x495FBD5F, 0x599029B9),
    (0x0311D63F, 0x94ED0508),
    (0xE260E8A3, 0x54A36A7B),
    (0x48E54F8C, 0x4324663B),
    (0xDFF56B91, 0xEB5CEFCB),
    (0x783B93BE, 0x10B59B80),
    (0xCF9B7222, 0x011559ED),
    (0xB69BE579, 0x79B622E3),
    (0x4CA6055A, 0xE75EAFE3),
    (0x3ECA582C, 0xA6BB5AD2),
    (0x5B6916C8, 0x569AE4C9),
    (0xD9FA8EFE, 0x79E1AD5E),
    (0x846515D9, 0x74F3E80D),
    (0xFA9638B8, 0xBC528BA0),
    (0x02A7F3CC, 0xCA1BFB8E),
    (0x4324DFBB, 0xB1D15DA9),
    (0x66CA8FE4, 0xC5209EAF),
    (0x593ACEF2, 0xD316C135),
    (0x4D4C4807, 0x08FC7576),
    (0xFE48A03E, 0x2F83945C),
    (0xBC8E8DF1, 0x6EDFF601),
    (0x09C0BC55, 0xA801D10A),
    (0x85B0C39D, 0xD85AB756),
    (0x8904618E, 0x81205554),
    (0xF9956D57, 0x13D1D3A1),
    (0xF0CF739A, 0x7797ECE8),
    (0x3C7DE9B7, 0xFE24C683),
    (0xA73328FB, 0x02F5FC2B),
    (0x810981D2, 0x0002F5FC),
    (0x73443878, 0xAD7D51A4),
];

#[test]
fn sums_of_known_bytes(rt: HostRuntime) {
    for (bytes, sum) in [
        (&b"123456789"[..], 0xE3069283),
        (&[][..], 0),
        (&[0; 32][..], 0x8A9136AA),
    ] {
        assert_eq!(rt; crc32c(bytes), sum, "of {bytes:?}");
    }
    assert_eq!(rt; name_hash(b"default"), 2378154706);
    for (index, (sum, hash)) in SUMS.into_iter().enumerate() {
        let bytes = &PATTERN[..index + 1];
        assert_eq!(rt; crc32c(bytes), sum, "of {bytes:?}");
        assert_eq!(rt; name_hash(bytes), hash, "of {bytes:?}");
    }
    joined_law();
    past_first_32_law();
    fits_law();
}
