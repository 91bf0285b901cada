// Numbers in decimal, read and put.
use dc_text::{put_decimal, read_decimal};
use std::test::Fail;

#[test]
fn reads_one_spelling_of_a_number(rt: HostRuntime) {
    for (text, wanted) in [
        ("0", Some(0)),
        ("7", Some(7)),
        ("10", Some(10)),
        ("18446744073709551615", Some(18446744073709551615)),
        ("18446744073709551616", None),
        ("184467440737095516150", None),
        ("100000000000000000000000000000000000000000", None),
        ("", None),
        ("07", None),
        ("00", None),
        ("-1", None),
        ("+1", None),
        (" 1", None),
        ("1 ", None),
        ("1a", None),
        ("/", None),
        (":", None),
        ("0x1", None),
    ] {
        assert_eq!(rt; read_decimal(text.as_bytes()), wanted, "{text}");
    }
}

#[test]
fn puts_a_number_behind_what_stands_there(rt: HostRuntime) -> Result<(), Fail> {
    for (number, wanted) in [
        (-3, "at -3"),
        (0, "at 0"),
        (42, "at 42"),
        (i128::MAX, "at 170141183460469231731687303715884105727"),
        (i128::MIN, "at -170141183460469231731687303715884105728"),
    ] {
        let mut out = Vec::from_slice(rt.alloc(), b"at ")?;
        put_decimal(&mut out, number)?;
        assert_eq!(rt; out.as_slice(), wanted.as_bytes(), "{wanted}");
    }
    Ok(())
}
