//! Quota rows with known bytes.

use fx_quota::{Row, clear_row, row, set_row};

/// The second row of a volume's quota file: owner [1,4], who uses 13 of 1,088.
const SECOND: Row = Row {
    uic: 65540,
    usage: 13,
    quota: 1088,
    over: 0,
};

#[test]
fn second_row_has_known_bytes(rt: HostRuntime) {
    let mut b = [0; 512];
    set_row(&mut b, 1, &SECOND);
    let known = b"\x01\0\0\0\x04\0\x01\0\x0d\0\0\0\x40\x04\0\0\0\0\0\0";
    assert_eq!(rt; &b[32..52], &known[..]);
    assert_eq!(rt; row(&b, 0), None);
    assert_eq!(rt; row(&b, 1), Some(SECOND));
    clear_row(&mut b, 1);
    assert_eq!(rt; row(&b, 1), None);
    assert_eq!(rt; &b[33..52], &known[1..]);
}

#[test]
fn other_flags_and_reserved_bytes_stay(rt: HostRuntime) {
    let mut b = [0xfe; 512];
    for i in 0..16 {
        assert_eq!(rt; row(&b, i), None, "row {i}");
    }
    set_row(&mut b, 15, &SECOND);
    assert_eq!(rt; &b[479..484], &b"\xfe\xff\xfe\xfe\xfe"[..]);
    assert_eq!(rt; &b[496..501], &b"\0\0\0\0\xfe"[..]);
    assert_eq!(rt; b[511], 0xfe);
    clear_row(&mut b, 15);
    assert_eq!(rt; &b[479..484], &b"\xfe\xfe\xfe\xfe\xfe"[..]);
}
