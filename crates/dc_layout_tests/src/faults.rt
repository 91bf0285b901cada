// Types without a size, and with a part that has none.
use crate::made::{Member, add, check, complete, declare, offset, refuse, types_of};
use dc_layout::{CType, LayKind, Layout, StructTable, all_sized};
use sqlite_items::Items;
use std::test::Fail;

#[test]
fn forms(rt: HostRuntime) -> Result<(), Fail> {
    let table = StructTable::new(rt.alloc());
    refuse(&rt, &table, CType::Void, Layout::Incomplete);
    let plain = CType::constant(rt.alloc(), CType::Void)?;
    refuse(&rt, &table, plain, Layout::Incomplete);
    let parameters = types_of(rt.alloc(), &[Member::Num(LayKind::S32), Member::Pointer])?;
    let function = CType::function(rt.alloc(), CType::Num(LayKind::S32), parameters)?;
    refuse(&rt, &table, function, Layout::Incomplete);
    let function = CType::function(rt.alloc(), CType::Void, Items::new(rt.alloc()))?;
    let pointer = CType::pointer(rt.alloc(), function)?;
    check(&rt, &table, pointer, Ok(8), Ok(8));
    let pointer = CType::pointer(rt.alloc(), CType::Void)?;
    let fixed = CType::constant(rt.alloc(), pointer)?;
    check(&rt, &table, fixed, Ok(8), Ok(8));
    check(&rt, &table, CType::Num(LayKind::Ptr), Ok(8), Ok(8));
    Ok(())
}

// An array without a length has no size, whatever its elements have; behind a pointer it may be.
#[test]
fn without_a_length(rt: HostRuntime) -> Result<(), Fail> {
    let table = StructTable::new(rt.alloc());
    let open = CType::array(rt.alloc(), CType::Num(LayKind::S32), 0)?;
    refuse(&rt, &table, open, Layout::Incomplete);
    let row = CType::array(rt.alloc(), CType::Num(LayKind::S64), 0)?;
    let rows = CType::array(rt.alloc(), row, 2)?;
    refuse(&rt, &table, rows, Layout::Incomplete);
    let most = CType::array(rt.alloc(), CType::Num(LayKind::S32), u64::MAX)?;
    let several = CType::array(rt.alloc(), most, 0)?;
    refuse(&rt, &table, several, Layout::Incomplete);
    let member = CType::array(rt.alloc(), CType::Num(LayKind::S8), 0)?;
    assert!(rt; !all_sized(&table, &[member]));
    let behind = CType::array(rt.alloc(), CType::Num(LayKind::S32), 0)?;
    check(
        &rt,
        &table,
        CType::pointer(rt.alloc(), behind)?,
        Ok(8),
        Ok(8),
    );
    Ok(())
}

// A part without a size comes before a whole that is too large.
#[test]
fn arrays(rt: HostRuntime) -> Result<(), Fail> {
    let table = StructTable::new(rt.alloc());
    let some = CType::array(rt.alloc(), CType::Void, 3)?;
    refuse(&rt, &table, some, Layout::Incomplete);
    let none = CType::array(rt.alloc(), CType::Void, 0)?;
    refuse(&rt, &table, none, Layout::Incomplete);
    let all = CType::array(rt.alloc(), CType::Void, u64::MAX)?;
    refuse(&rt, &table, all, Layout::Incomplete);
    Ok(())
}

#[test]
fn structs(rt: HostRuntime) -> Result<(), Fail> {
    let mut table = StructTable::new(rt.alloc());
    refuse(&rt, &table, CType::Struct(0), Layout::Incomplete);
    let outer = declare(&rt, &mut table)?;
    let inner = declare(&rt, &mut table)?;
    assert_eq!(rt; outer, 0);
    assert_eq!(rt; inner, 1);
    assert_eq!(rt; table.count(), 2);
    refuse(&rt, &table, CType::Struct(outer), Layout::Incomplete);
    assert_eq!(rt; offset(&rt, &table, outer, 7), Err(Layout::Incomplete));
    let several = CType::array(rt.alloc(), CType::Struct(inner), 0)?;
    refuse(&rt, &table, several, Layout::Incomplete);
    assert!(rt; !all_sized(&table, &[CType::Num(LayKind::S8), CType::Struct(outer)]));
    assert!(rt; table.members(inner).is_none());

    // The struct with the greater number gets its members first.
    complete(
        &rt,
        &mut table,
        inner,
        types_of(rt.alloc(), &[Member::Num(LayKind::S64)])?,
    );
    assert!(rt; !all_sized(&table, &[CType::Struct(outer)]));
    complete(
        &rt,
        &mut table,
        outer,
        types_of(
            rt.alloc(),
            &[Member::Num(LayKind::S8), Member::Struct(inner)],
        )?,
    );
    check(&rt, &table, CType::Struct(outer), Ok(16), Ok(8));
    assert_eq!(rt; offset(&rt, &table, outer, 1), Ok(8));
    refuse(&rt, &table, CType::Struct(2), Layout::Incomplete);
    Ok(())
}

// A struct that has itself behind a pointer.
#[test]
fn lists(rt: HostRuntime) -> Result<(), Fail> {
    let mut table = StructTable::new(rt.alloc());
    let node = declare(&rt, &mut table)?;
    let mut members = Items::new(rt.alloc());
    members.push(CType::pointer(rt.alloc(), CType::Struct(node))?)?;
    members.push(CType::Num(LayKind::S32))?;
    complete(&rt, &mut table, node, members);
    check(&rt, &table, CType::Struct(node), Ok(16), Ok(8));
    assert_eq!(rt; offset(&rt, &table, node, 0), Ok(0));
    assert_eq!(rt; offset(&rt, &table, node, 1), Ok(8));
    let pair = add(&rt, rt.alloc(), &mut table, &[Member::Structs(node, 2)])?;
    check(&rt, &table, CType::Struct(pair), Ok(32), Ok(8));
    Ok(())
}
