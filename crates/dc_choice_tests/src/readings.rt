// Lists of choices, read from JSON.
use dc_choice::read_choices;
use std::alloc::{AllocError, Global};
use std::test::Fail;

// The numbers of the list that was read, or what the fault says.
fn answer(alloc: Global, bytes: &[u8]) -> Result<String, AllocError> {
    match read_choices(alloc, bytes) {
        Ok(list) => format!(in alloc; "{:?}", list.as_slice()),
        Err(fault) => fault.to_string(alloc),
    }
}

// Arrays in one another, as many as this.
fn nested(alloc: Global, depth: usize) -> Result<Vec<u8>, AllocError> {
    let mut bytes = Vec::new(alloc);
    for _ in 0..depth {
        bytes.push(b'[')?;
    }
    for _ in 0..depth {
        bytes.push(b']')?;
    }
    Ok(bytes)
}

const NOT_JSON: &str = "choices not JSON";

const NOT_AN_ARRAY: &str = "choices not an array";

#[test]
fn reads_arrays_of_numbers_of_64_bits(rt: HostRuntime) -> Result<(), Fail> {
    for (text, wanted) in [
        ("[]", "[]"),
        ("[0,0,0,0,0,41]", "[0, 0, 0, 0, 0, 41]"),
        ("[18446744073709551615]", "[18446744073709551615]"),
        (" \t\r\n[ 1 ,\n2 ] ", "[1, 2]"),
        ("[1, -1]", "choices at 1"),
        ("[18446744073709551616]", "choices at 0"),
        ("[1.0]", "choices at 0"),
        ("[1e2]", "choices at 0"),
        ("[-0]", "choices at 0"),
        ("[\"1\"]", "choices at 0"),
        ("[[1]]", "choices at 0"),
        ("[0, 1, null, 1.5]", "choices at 2"),
        ("{}", NOT_AN_ARRAY),
        ("7", NOT_AN_ARRAY),
        ("null", NOT_AN_ARRAY),
        ("\"[]\"", NOT_AN_ARRAY),
        ("", NOT_JSON),
        ("[", NOT_JSON),
        ("[1,]", NOT_JSON),
        ("[01]", NOT_JSON),
        ("[+1]", NOT_JSON),
        ("[1] 2", NOT_JSON),
        ("[1e400]", NOT_JSON),
        ("[1, x]", NOT_JSON),
    ] {
        let said = answer(rt.alloc(), text.as_bytes())?;
        assert_eq!(rt; said.as_str(), wanted, "{text}");
    }
    Ok(())
}

#[test]
fn bytes_that_are_not_utf8_are_not_json(rt: HostRuntime) -> Result<(), Fail> {
    for bytes in [
        b"\xff".as_slice(),
        b"[\"\xff\"]".as_slice(),
        b"[1]\x80".as_slice(),
    ] {
        let said = answer(rt.alloc(), bytes)?;
        assert_eq!(rt; said.as_str(), NOT_JSON);
    }
    Ok(())
}

#[test]
fn arrays_nest_up_to_a_depth_of_127(rt: HostRuntime) -> Result<(), Fail> {
    for (depth, wanted) in [
        (1, "[]"),
        (127, "choices at 0"),
        (128, NOT_JSON),
        (100000, NOT_JSON),
    ] {
        let said = answer(rt.alloc(), &nested(rt.alloc(), depth)?)?;
        assert_eq!(rt; said.as_str(), wanted, "{depth}");
    }
    Ok(())
}
