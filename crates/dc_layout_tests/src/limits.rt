// Types at the limit of 16,777,216 bytes, and above it.
use crate::made::{Member, add, check, offset, refuse};
use dc_layout::{CType, LayKind, Layout, StructTable, all_sized};
use std::test::Fail;

#[test]
fn arrays(rt: HostRuntime) -> Result<(), Fail> {
    let table = StructTable::new(rt.alloc());
    let most = CType::array(rt.alloc(), CType::Num(LayKind::S32), 4_194_304)?;
    check(&rt, &table, most, Ok(16_777_216), Ok(4));
    let above = CType::array(rt.alloc(), CType::Num(LayKind::S32), 4_194_305)?;
    refuse(&rt, &table, above, Layout::TooLarge);
    let bytes = CType::array(rt.alloc(), CType::Num(LayKind::U8), 16_777_217)?;
    refuse(&rt, &table, bytes, Layout::TooLarge);
    let one = CType::array(rt.alloc(), CType::Num(LayKind::S16), 1)?;
    check(&rt, &table, one, Ok(2), Ok(2));
    Ok(())
}

// No count makes a size that goes around.
#[test]
fn endless(rt: HostRuntime) -> Result<(), Fail> {
    let table = StructTable::new(rt.alloc());
    let pairs = CType::array(rt.alloc(), CType::Num(LayKind::S16), 1 << 63)?;
    refuse(&rt, &table, pairs, Layout::TooLarge);
    let bytes = CType::array(rt.alloc(), CType::Num(LayKind::S8), u64::MAX)?;
    refuse(&rt, &table, bytes, Layout::TooLarge);
    let most = CType::array(rt.alloc(), CType::Num(LayKind::S8), 16_777_216)?;
    let all = CType::array(rt.alloc(), most, u64::MAX)?;
    refuse(&rt, &table, all, Layout::TooLarge);
    Ok(())
}

// The members of a struct have sizes within the limit, and the whole may be above it.
#[test]
fn structs(rt: HostRuntime) -> Result<(), Fail> {
    let mut table = StructTable::new(rt.alloc());
    let most = add(
        &rt,
        rt.alloc(),
        &mut table,
        &[
            Member::Array(LayKind::S8, 16_777_214),
            Member::Num(LayKind::S16),
        ],
    )?;
    check(&rt, &table, CType::Struct(most), Ok(16_777_216), Ok(2));
    assert_eq!(rt; offset(&rt, &table, most, 1), Ok(16_777_214));
    let above = add(
        &rt,
        rt.alloc(),
        &mut table,
        &[
            Member::Array(LayKind::S8, 16_777_215),
            Member::Num(LayKind::S16),
        ],
    )?;
    refuse(&rt, &table, CType::Struct(above), Layout::TooLarge);
    assert_eq!(rt; offset(&rt, &table, above, 0), Err(Layout::TooLarge));
    assert_eq!(rt; offset(&rt, &table, above, 1), Err(Layout::TooLarge));
    let padded = add(
        &rt,
        rt.alloc(),
        &mut table,
        &[
            Member::Num(LayKind::S64),
            Member::Array(LayKind::S8, 16_777_209),
        ],
    )?;
    refuse(&rt, &table, CType::Struct(padded), Layout::TooLarge);
    let many = add(
        &rt,
        rt.alloc(),
        &mut table,
        &[
            Member::Struct(most),
            Member::Struct(most),
            Member::Struct(most),
        ],
    )?;
    refuse(&rt, &table, CType::Struct(many), Layout::TooLarge);
    assert!(rt; all_sized(&table, &[CType::Struct(most), CType::Num(LayKind::Bool)]));
    assert!(rt; !all_sized(&table, &[CType::Num(LayKind::Bool), CType::Struct(above)]));
    let several = CType::array(rt.alloc(), CType::Struct(above), 2)?;
    refuse(&rt, &table, several, Layout::TooLarge);
    Ok(())
}
