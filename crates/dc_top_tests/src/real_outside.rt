// The real shelf and the real sink, which no contract describes whole.
use crate::harness::words_of;
use dc_outside::{ReadAll, read_all, write_all};
use dc_top::{RealShelf, RealSink, say};
use std::fs;
use std::test::Fail;

// A file that takes several reads is given whole, and a missing file and a directory are faults.
#[test]
fn a_real_shelf(rt: HostRuntime) -> Result<(), Fail> {
    let name = "dc_top_tests_shelf.c";
    let mut text = Vec::new(rt.alloc());
    for k in 0..10_000u32 {
        text.push((k % 251) as u8)?;
    }
    fs::write(&rt, name, text.as_slice())?;
    let words = words_of(rt.alloc(), &["instrument", "dc_top_tests_shelf.c"])?;
    let mut shelf = RealShelf::new(&rt, &words.names);
    let bytes = read_all(rt.alloc(), &mut shelf, 1, 10_000)?;
    assert!(rt; bytes.as_slice() == text.as_slice());
    assert!(rt;
        matches!(
            &read_all(rt.alloc(), &mut shelf, 1, 9_999),
            Err(ReadAll::TooLong)
        )
    );
    fs::remove_file(&rt, name)?;
    assert!(rt;
        matches!(
            &read_all(rt.alloc(), &mut shelf, 1, 10_000),
            Err(ReadAll::Fault)
        )
    );
    let folder = words_of(rt.alloc(), &["instrument", "."])?;
    let mut shelf = RealShelf::new(&rt, &folder.names);
    assert!(rt;
        matches!(
            &read_all(rt.alloc(), &mut shelf, 1, 10_000),
            Err(ReadAll::Fault)
        )
    );
    Ok(())
}

// A stream with little room takes a front of a piece, and no room is a fault.
#[test]
fn a_real_sink(rt: HostRuntime) -> Result<(), Fail> {
    let mut room = [0u8; 8];
    let mut sink = RealSink::new(room.as_mut_slice());
    assert!(rt; write_all(&mut sink, b"abcde").is_ok());
    assert!(rt; write_all(&mut sink, b"fghij").is_err());
    assert_eq!(rt; room.as_slice(), b"abcdefgh".as_slice());
    let mut room = [0u8; 2];
    let mut line = [0u8; 17];
    let mut out = RealSink::new(room.as_mut_slice());
    let mut err = RealSink::new(line.as_mut_slice());
    assert_eq!(rt; say(b"abc", &mut out, &mut err), 7);
    assert_eq!(rt; line.as_slice(), b"dcc: write fault\n".as_slice());
    Ok(())
}
