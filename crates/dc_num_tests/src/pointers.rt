// Pointers are numbers of 64 bits that are tested for equality.
use dc_num::{BinOp, NumKind, binary, convert};
use std::test::Fail;

#[test]
fn equality(rt: HostRuntime) -> Result<(), Fail> {
    assert_eq!(rt;
        binary(BinOp::Eq, NumKind::Ptr, 281474976710656, 281474976710656),
        Some(1)
    );
    assert_eq!(rt;
        binary(BinOp::Eq, NumKind::Ptr, 281474976710656, 0),
        Some(0)
    );
    assert_eq!(rt;
        binary(BinOp::Ne, NumKind::Ptr, 18446744073709551615, 0),
        Some(1)
    );
    assert_eq!(rt; binary(BinOp::Ne, NumKind::Ptr, 7, 7), Some(0));
    Ok(())
}

#[test]
fn conversion(rt: HostRuntime) -> Result<(), Fail> {
    assert_eq!(rt; convert(NumKind::Ptr, -1), 18446744073709551615);
    assert_eq!(rt; convert(NumKind::Ptr, 18446744073709551616), 0);
    assert_eq!(rt; convert(NumKind::Ptr, 281474976710656), 281474976710656);
    Ok(())
}
