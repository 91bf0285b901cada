// Edge values of each kind with what a C compiler makes of them; `bench/numbers.py` prints the rows.
use crate::shown::binary_row;
use dc_num::NumKind;
use std::test::Fail;

#[test]
fn truths(rt: HostRuntime) -> Result<(), Fail> {
    let rows: [(NumKind, i128, i128, &[u8]); 4] = [
        (
            NumKind::Bool,
            0,
            0,
            b"0 0 0 none none 0 0 0 0 0 0 1 0 1 1 0",
        ),
        (
            NumKind::Bool,
            0,
            1,
            b"1 1 0 0 0 none none 0 1 1 1 1 0 0 0 1",
        ),
        (
            NumKind::Bool,
            1,
            0,
            b"1 1 0 none none 1 1 0 1 1 0 0 1 1 0 1",
        ),
        (
            NumKind::Bool,
            1,
            1,
            b"0 0 1 1 0 none none 1 1 0 0 1 0 1 1 0",
        ),
    ];
    for (kind, a, b, wanted) in rows {
        let answer = binary_row(rt.alloc(), kind, a, b)?;
        assert_eq!(rt; answer.as_slice(), wanted);
    }
    Ok(())
}

#[test]
fn signed_8(rt: HostRuntime) -> Result<(), Fail> {
    let rows: [(NumKind, i128, i128, &[u8]); 17] = [
        (NumKind::S8, 0, 0, b"0 0 0 none none 0 0 0 0 0 0 1 0 1 1 0"),
        (
            NumKind::S8,
            127,
            1,
            b"none 126 127 127 0 none 63 1 127 126 0 0 1 1 0 1",
        ),
        (
            NumKind::S8,
            -128,
            1,
            b"-127 none -128 -128 0 none -64 0 -127 -127 1 1 0 0 0 1",
        ),
        (
            NumKind::S8,
            -128,
            -1,
            b"none -127 none none none none none -128 -1 127 1 1 0 0 0 1",
        ),
        (
            NumKind::S8,
            -1,
            -128,
            b"none 127 none 0 -1 none none -128 -1 127 0 0 1 1 0 1",
        ),
        (
            NumKind::S8,
            127,
            127,
            b"none 0 none 1 0 none none 127 127 0 0 1 0 1 1 0",
        ),
        (
            NumKind::S8,
            -128,
            -128,
            b"none 0 none 1 0 none none -128 -128 0 0 1 0 1 1 0",
        ),
        (
            NumKind::S8,
            127,
            -1,
            b"126 none -127 -127 0 none none 127 -1 -128 0 0 1 1 0 1",
        ),
        (
            NumKind::S8,
            -7,
            2,
            b"-5 -9 -14 -3 -1 none -2 0 -5 -5 1 1 0 0 0 1",
        ),
        (
            NumKind::S8,
            7,
            -2,
            b"5 9 -14 -3 1 none none 6 -1 -7 0 0 1 1 0 1",
        ),
        (
            NumKind::S8,
            -8,
            1,
            b"-7 -9 -8 -8 0 none -4 0 -7 -7 1 1 0 0 0 1",
        ),
        (NumKind::S8, 3, 6, b"9 -3 18 0 3 none 0 2 7 5 1 1 0 0 0 1"),
        (NumKind::S8, 1, 6, b"7 -5 6 0 1 64 0 0 7 7 1 1 0 0 0 1"),
        (NumKind::S8, 1, 7, b"8 -6 7 0 1 none 0 1 7 6 1 1 0 0 0 1"),
        (NumKind::S8, 1, 8, b"9 -7 8 0 1 none none 0 9 9 1 1 0 0 0 1"),
        (NumKind::S8, 0, 7, b"7 -7 0 0 0 0 0 0 7 7 1 1 0 0 0 1"),
        (
            NumKind::S8,
            -1,
            7,
            b"6 -8 -7 0 -1 none -1 7 -1 -8 1 1 0 0 0 1",
        ),
    ];
    for (kind, a, b, wanted) in rows {
        let answer = binary_row(rt.alloc(), kind, a, b)?;
        assert_eq!(rt; answer.as_slice(), wanted);
    }
    Ok(())
}

#[test]
fn unsigned_8(rt: HostRuntime) -> Result<(), Fail> {
    let rows: [(NumKind, i128, i128, &[u8]); 12] = [
        (NumKind::U8, 0, 0, b"0 0 0 none none 0 0 0 0 0 0 1 0 1 1 0"),
        (NumKind::U8, 0, 1, b"1 255 0 0 0 0 0 0 1 1 1 1 0 0 0 1"),
        (
            NumKind::U8,
            255,
            1,
            b"0 254 255 255 0 254 127 1 255 254 0 0 1 1 0 1",
        ),
        (
            NumKind::U8,
            1,
            255,
            b"0 2 255 0 1 none none 1 255 254 1 1 0 0 0 1",
        ),
        (
            NumKind::U8,
            255,
            255,
            b"254 0 1 1 0 none none 255 255 0 0 1 0 1 1 0",
        ),
        (NumKind::U8, 7, 2, b"9 5 14 3 1 28 1 2 7 5 0 0 1 1 0 1"),
        (
            NumKind::U8,
            254,
            3,
            b"1 251 250 84 2 240 31 2 255 253 0 0 1 1 0 1",
        ),
        (NumKind::U8, 3, 7, b"10 252 21 0 3 128 0 3 7 4 1 1 0 0 0 1"),
        (NumKind::U8, 1, 7, b"8 250 7 0 1 128 0 1 7 6 1 1 0 0 0 1"),
        (
            NumKind::U8,
            1,
            8,
            b"9 249 8 0 1 none none 0 9 9 1 1 0 0 0 1",
        ),
        (
            NumKind::U8,
            128,
            1,
            b"129 127 128 128 0 0 64 0 129 129 0 0 1 1 0 1",
        ),
        (
            NumKind::U8,
            128,
            2,
            b"130 126 0 64 0 0 32 0 130 130 0 0 1 1 0 1",
        ),
    ];
    for (kind, a, b, wanted) in rows {
        let answer = binary_row(rt.alloc(), kind, a, b)?;
        assert_eq!(rt; answer.as_slice(), wanted);
    }
    Ok(())
}

#[test]
fn signed_16(rt: HostRuntime) -> Result<(), Fail> {
    let rows: [(NumKind, i128, i128, &[u8]); 17] = [
        (NumKind::S16, 0, 0, b"0 0 0 none none 0 0 0 0 0 0 1 0 1 1 0"),
        (
            NumKind::S16,
            32767,
            1,
            b"none 32766 32767 32767 0 none 16383 1 32767 32766 0 0 1 1 0 1",
        ),
        (
            NumKind::S16,
            -32768,
            1,
            b"-32767 none -32768 -32768 0 none -16384 0 -32767 -32767 1 1 0 0 0 1",
        ),
        (
            NumKind::S16,
            -32768,
            -1,
            b"none -32767 none none none none none -32768 -1 32767 1 1 0 0 0 1",
        ),
        (
            NumKind::S16,
            -1,
            -32768,
            b"none 32767 none 0 -1 none none -32768 -1 32767 0 0 1 1 0 1",
        ),
        (
            NumKind::S16,
            32767,
            32767,
            b"none 0 none 1 0 none none 32767 32767 0 0 1 0 1 1 0",
        ),
        (
            NumKind::S16,
            -32768,
            -32768,
            b"none 0 none 1 0 none none -32768 -32768 0 0 1 0 1 1 0",
        ),
        (
            NumKind::S16,
            32767,
            -1,
            b"32766 none -32767 -32767 0 none none 32767 -1 -32768 0 0 1 1 0 1",
        ),
        (
            NumKind::S16,
            -7,
            2,
            b"-5 -9 -14 -3 -1 none -2 0 -5 -5 1 1 0 0 0 1",
        ),
        (
            NumKind::S16,
            7,
            -2,
            b"5 9 -14 -3 1 none none 6 -1 -7 0 0 1 1 0 1",
        ),
        (
            NumKind::S16,
            -8,
            1,
            b"-7 -9 -8 -8 0 none -4 0 -7 -7 1 1 0 0 0 1",
        ),
        (
            NumKind::S16,
            3,
            14,
            b"17 -11 42 0 3 none 0 2 15 13 1 1 0 0 0 1",
        ),
        (
            NumKind::S16,
            1,
            14,
            b"15 -13 14 0 1 16384 0 0 15 15 1 1 0 0 0 1",
        ),
        (
            NumKind::S16,
            1,
            15,
            b"16 -14 15 0 1 none 0 1 15 14 1 1 0 0 0 1",
        ),
        (
            NumKind::S16,
            1,
            16,
            b"17 -15 16 0 1 none none 0 17 17 1 1 0 0 0 1",
        ),
        (NumKind::S16, 0, 15, b"15 -15 0 0 0 0 0 0 15 15 1 1 0 0 0 1"),
        (
            NumKind::S16,
            -1,
            15,
            b"14 -16 -15 0 -1 none -1 15 -1 -16 1 1 0 0 0 1",
        ),
    ];
    for (kind, a, b, wanted) in rows {
        let answer = binary_row(rt.alloc(), kind, a, b)?;
        assert_eq!(rt; answer.as_slice(), wanted);
    }
    Ok(())
}

#[test]
fn unsigned_16(rt: HostRuntime) -> Result<(), Fail> {
    let rows: [(NumKind, i128, i128, &[u8]); 12] = [
        (NumKind::U16, 0, 0, b"0 0 0 none none 0 0 0 0 0 0 1 0 1 1 0"),
        (NumKind::U16, 0, 1, b"1 65535 0 0 0 0 0 0 1 1 1 1 0 0 0 1"),
        (
            NumKind::U16,
            65535,
            1,
            b"0 65534 65535 65535 0 65534 32767 1 65535 65534 0 0 1 1 0 1",
        ),
        (
            NumKind::U16,
            1,
            65535,
            b"0 2 65535 0 1 none none 1 65535 65534 1 1 0 0 0 1",
        ),
        (
            NumKind::U16,
            65535,
            65535,
            b"65534 0 1 1 0 none none 65535 65535 0 0 1 0 1 1 0",
        ),
        (NumKind::U16, 7, 2, b"9 5 14 3 1 28 1 2 7 5 0 0 1 1 0 1"),
        (
            NumKind::U16,
            65534,
            3,
            b"1 65531 65530 21844 2 65520 8191 2 65535 65533 0 0 1 1 0 1",
        ),
        (
            NumKind::U16,
            3,
            15,
            b"18 65524 45 0 3 32768 0 3 15 12 1 1 0 0 0 1",
        ),
        (
            NumKind::U16,
            1,
            15,
            b"16 65522 15 0 1 32768 0 1 15 14 1 1 0 0 0 1",
        ),
        (
            NumKind::U16,
            1,
            16,
            b"17 65521 16 0 1 none none 0 17 17 1 1 0 0 0 1",
        ),
        (
            NumKind::U16,
            32768,
            1,
            b"32769 32767 32768 32768 0 0 16384 0 32769 32769 0 0 1 1 0 1",
        ),
        (
            NumKind::U16,
            32768,
            2,
            b"32770 32766 0 16384 0 0 8192 0 32770 32770 0 0 1 1 0 1",
        ),
    ];
    for (kind, a, b, wanted) in rows {
        let answer = binary_row(rt.alloc(), kind, a, b)?;
        assert_eq!(rt; answer.as_slice(), wanted);
    }
    Ok(())
}

#[test]
fn signed_32(rt: HostRuntime) -> Result<(), Fail> {
    let rows: [(NumKind, i128, i128, &[u8]); 17] = [
        (NumKind::S32, 0, 0, b"0 0 0 none none 0 0 0 0 0 0 1 0 1 1 0"),
        (
            NumKind::S32,
            2147483647,
            1,
            b"none 2147483646 2147483647 2147483647 0 none 1073741823 1 2147483647 2147483646 0 0 1 1 0 1",
        ),
        (
            NumKind::S32,
            -2147483648,
            1,
            b"-2147483647 none -2147483648 -2147483648 0 none -1073741824 0 -2147483647 -2147483647 1 1 0 0 0 1",
        ),
        (
            NumKind::S32,
            -2147483648,
            -1,
            b"none -2147483647 none none none none none -2147483648 -1 2147483647 1 1 0 0 0 1",
        ),
        (
            NumKind::S32,
            -1,
            -2147483648,
            b"none 2147483647 none 0 -1 none none -2147483648 -1 2147483647 0 0 1 1 0 1",
        ),
        (
            NumKind::S32,
            2147483647,
            2147483647,
            b"none 0 none 1 0 none none 2147483647 2147483647 0 0 1 0 1 1 0",
        ),
        (
            NumKind::S32,
            -2147483648,
            -2147483648,
            b"none 0 none 1 0 none none -2147483648 -2147483648 0 0 1 0 1 1 0",
        ),
        (
            NumKind::S32,
            2147483647,
            -1,
            b"2147483646 none -2147483647 -2147483647 0 none none 2147483647 -1 -2147483648 0 0 1 1 0 1",
        ),
        (
            NumKind::S32,
            -7,
            2,
            b"-5 -9 -14 -3 -1 none -2 0 -5 -5 1 1 0 0 0 1",
        ),
        (
            NumKind::S32,
            7,
            -2,
            b"5 9 -14 -3 1 none none 6 -1 -7 0 0 1 1 0 1",
        ),
        (
            NumKind::S32,
            -8,
            1,
            b"-7 -9 -8 -8 0 none -4 0 -7 -7 1 1 0 0 0 1",
        ),
        (
            NumKind::S32,
            3,
            30,
            b"33 -27 90 0 3 none 0 2 31 29 1 1 0 0 0 1",
        ),
        (
            NumKind::S32,
            1,
            30,
            b"31 -29 30 0 1 1073741824 0 0 31 31 1 1 0 0 0 1",
        ),
        (
            NumKind::S32,
            1,
            31,
            b"32 -30 31 0 1 none 0 1 31 30 1 1 0 0 0 1",
        ),
        (
            NumKind::S32,
            1,
            32,
            b"33 -31 32 0 1 none none 0 33 33 1 1 0 0 0 1",
        ),
        (NumKind::S32, 0, 31, b"31 -31 0 0 0 0 0 0 31 31 1 1 0 0 0 1"),
        (
            NumKind::S32,
            -1,
            31,
            b"30 -32 -31 0 -1 none -1 31 -1 -32 1 1 0 0 0 1",
        ),
    ];
    for (kind, a, b, wanted) in rows {
        let answer = binary_row(rt.alloc(), kind, a, b)?;
        assert_eq!(rt; answer.as_slice(), wanted);
    }
    Ok(())
}

#[test]
fn unsigned_32(rt: HostRuntime) -> Result<(), Fail> {
    let rows: [(NumKind, i128, i128, &[u8]); 12] = [
        (NumKind::U32, 0, 0, b"0 0 0 none none 0 0 0 0 0 0 1 0 1 1 0"),
        (
            NumKind::U32,
            0,
            1,
            b"1 4294967295 0 0 0 0 0 0 1 1 1 1 0 0 0 1",
        ),
        (
            NumKind::U32,
            4294967295,
            1,
            b"0 4294967294 4294967295 4294967295 0 4294967294 2147483647 1 4294967295 4294967294 0 0 1 1 0 1",
        ),
        (
            NumKind::U32,
            1,
            4294967295,
            b"0 2 4294967295 0 1 none none 1 4294967295 4294967294 1 1 0 0 0 1",
        ),
        (
            NumKind::U32,
            4294967295,
            4294967295,
            b"4294967294 0 1 1 0 none none 4294967295 4294967295 0 0 1 0 1 1 0",
        ),
        (NumKind::U32, 7, 2, b"9 5 14 3 1 28 1 2 7 5 0 0 1 1 0 1"),
        (
            NumKind::U32,
            4294967294,
            3,
            b"1 4294967291 4294967290 1431655764 2 4294967280 536870911 2 4294967295 4294967293 0 0 1 1 0 1",
        ),
        (
            NumKind::U32,
            3,
            31,
            b"34 4294967268 93 0 3 2147483648 0 3 31 28 1 1 0 0 0 1",
        ),
        (
            NumKind::U32,
            1,
            31,
            b"32 4294967266 31 0 1 2147483648 0 1 31 30 1 1 0 0 0 1",
        ),
        (
            NumKind::U32,
            1,
            32,
            b"33 4294967265 32 0 1 none none 0 33 33 1 1 0 0 0 1",
        ),
        (
            NumKind::U32,
            2147483648,
            1,
            b"2147483649 2147483647 2147483648 2147483648 0 0 1073741824 0 2147483649 2147483649 0 0 1 1 0 1",
        ),
        (
            NumKind::U32,
            2147483648,
            2,
            b"2147483650 2147483646 0 1073741824 0 0 536870912 0 2147483650 2147483650 0 0 1 1 0 1",
        ),
    ];
    for (kind, a, b, wanted) in rows {
        let answer = binary_row(rt.alloc(), kind, a, b)?;
        assert_eq!(rt; answer.as_slice(), wanted);
    }
    Ok(())
}

#[test]
fn signed_64(rt: HostRuntime) -> Result<(), Fail> {
    let rows: [(NumKind, i128, i128, &[u8]); 17] = [
        (NumKind::S64, 0, 0, b"0 0 0 none none 0 0 0 0 0 0 1 0 1 1 0"),
        (
            NumKind::S64,
            9223372036854775807,
            1,
            b"none 9223372036854775806 9223372036854775807 9223372036854775807 0 none 4611686018427387903 1 9223372036854775807 9223372036854775806 0 0 1 1 0 1",
        ),
        (
            NumKind::S64,
            -9223372036854775808,
            1,
            b"-9223372036854775807 none -9223372036854775808 -9223372036854775808 0 none -4611686018427387904 0 -9223372036854775807 -9223372036854775807 1 1 0 0 0 1",
        ),
        (
            NumKind::S64,
            -9223372036854775808,
            -1,
            b"none -9223372036854775807 none none none none none -9223372036854775808 -1 9223372036854775807 1 1 0 0 0 1",
        ),
        (
            NumKind::S64,
            -1,
            -9223372036854775808,
            b"none 9223372036854775807 none 0 -1 none none -9223372036854775808 -1 9223372036854775807 0 0 1 1 0 1",
        ),
        (
            NumKind::S64,
            9223372036854775807,
            9223372036854775807,
            b"none 0 none 1 0 none none 9223372036854775807 9223372036854775807 0 0 1 0 1 1 0",
        ),
        (
            NumKind::S64,
            -9223372036854775808,
            -9223372036854775808,
            b"none 0 none 1 0 none none -9223372036854775808 -9223372036854775808 0 0 1 0 1 1 0",
        ),
        (
            NumKind::S64,
            9223372036854775807,
            -1,
            b"9223372036854775806 none -9223372036854775807 -9223372036854775807 0 none none 9223372036854775807 -1 -9223372036854775808 0 0 1 1 0 1",
        ),
        (
            NumKind::S64,
            -7,
            2,
            b"-5 -9 -14 -3 -1 none -2 0 -5 -5 1 1 0 0 0 1",
        ),
        (
            NumKind::S64,
            7,
            -2,
            b"5 9 -14 -3 1 none none 6 -1 -7 0 0 1 1 0 1",
        ),
        (
            NumKind::S64,
            -8,
            1,
            b"-7 -9 -8 -8 0 none -4 0 -7 -7 1 1 0 0 0 1",
        ),
        (
            NumKind::S64,
            3,
            62,
            b"65 -59 186 0 3 none 0 2 63 61 1 1 0 0 0 1",
        ),
        (
            NumKind::S64,
            1,
            62,
            b"63 -61 62 0 1 4611686018427387904 0 0 63 63 1 1 0 0 0 1",
        ),
        (
            NumKind::S64,
            1,
            63,
            b"64 -62 63 0 1 none 0 1 63 62 1 1 0 0 0 1",
        ),
        (
            NumKind::S64,
            1,
            64,
            b"65 -63 64 0 1 none none 0 65 65 1 1 0 0 0 1",
        ),
        (NumKind::S64, 0, 63, b"63 -63 0 0 0 0 0 0 63 63 1 1 0 0 0 1"),
        (
            NumKind::S64,
            -1,
            63,
            b"62 -64 -63 0 -1 none -1 63 -1 -64 1 1 0 0 0 1",
        ),
    ];
    for (kind, a, b, wanted) in rows {
        let answer = binary_row(rt.alloc(), kind, a, b)?;
        assert_eq!(rt; answer.as_slice(), wanted);
    }
    Ok(())
}

#[test]
fn unsigned_64(rt: HostRuntime) -> Result<(), Fail> {
    let rows: [(NumKind, i128, i128, &[u8]); 12] = [
        (NumKind::U64, 0, 0, b"0 0 0 none none 0 0 0 0 0 0 1 0 1 1 0"),
        (
            NumKind::U64,
            0,
            1,
            b"1 18446744073709551615 0 0 0 0 0 0 1 1 1 1 0 0 0 1",
        ),
        (
            NumKind::U64,
            18446744073709551615,
            1,
            b"0 18446744073709551614 18446744073709551615 18446744073709551615 0 18446744073709551614 9223372036854775807 1 18446744073709551615 18446744073709551614 0 0 1 1 0 1",
        ),
        (
            NumKind::U64,
            1,
            18446744073709551615,
            b"0 2 18446744073709551615 0 1 none none 1 18446744073709551615 18446744073709551614 1 1 0 0 0 1",
        ),
        (
            NumKind::U64,
            18446744073709551615,
            18446744073709551615,
            b"18446744073709551614 0 1 1 0 none none 18446744073709551615 18446744073709551615 0 0 1 0 1 1 0",
        ),
        (NumKind::U64, 7, 2, b"9 5 14 3 1 28 1 2 7 5 0 0 1 1 0 1"),
        (
            NumKind::U64,
            18446744073709551614,
            3,
            b"1 18446744073709551611 18446744073709551610 6148914691236517204 2 18446744073709551600 2305843009213693951 2 18446744073709551615 18446744073709551613 0 0 1 1 0 1",
        ),
        (
            NumKind::U64,
            3,
            63,
            b"66 18446744073709551556 189 0 3 9223372036854775808 0 3 63 60 1 1 0 0 0 1",
        ),
        (
            NumKind::U64,
            1,
            63,
            b"64 18446744073709551554 63 0 1 9223372036854775808 0 1 63 62 1 1 0 0 0 1",
        ),
        (
            NumKind::U64,
            1,
            64,
            b"65 18446744073709551553 64 0 1 none none 0 65 65 1 1 0 0 0 1",
        ),
        (
            NumKind::U64,
            9223372036854775808,
            1,
            b"9223372036854775809 9223372036854775807 9223372036854775808 9223372036854775808 0 0 4611686018427387904 0 9223372036854775809 9223372036854775809 0 0 1 1 0 1",
        ),
        (
            NumKind::U64,
            9223372036854775808,
            2,
            b"9223372036854775810 9223372036854775806 0 4611686018427387904 0 0 2305843009213693952 0 9223372036854775810 9223372036854775810 0 0 1 1 0 1",
        ),
    ];
    for (kind, a, b, wanted) in rows {
        let answer = binary_row(rt.alloc(), kind, a, b)?;
        assert_eq!(rt; answer.as_slice(), wanted);
    }
    Ok(())
}
