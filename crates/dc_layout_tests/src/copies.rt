// Copies of types and of tables, and what a table tells of its structs.
use crate::made::{Member, add, check, declare, offset, refuse};
use dc_layout::{CType, LayKind, Layout, StructTable, all_sized};
use sqlite_items::Items;
use std::test::Fail;

#[test]
fn types(rt: HostRuntime) -> Result<(), Fail> {
    let table = StructTable::new(rt.alloc());
    let mut parameters = Items::new(rt.alloc());
    parameters.push(CType::pointer(rt.alloc(), CType::Struct(7))?)?;
    let function = CType::function(rt.alloc(), CType::Void, parameters)?;
    refuse(
        &rt,
        &table,
        function.duplicate(rt.alloc())?,
        Layout::Incomplete,
    );
    let row = CType::array(
        rt.alloc(),
        CType::constant(rt.alloc(), CType::Num(LayKind::U16))?,
        5,
    )?;
    let grid = CType::array(rt.alloc(), row, 3)?;
    check(&rt, &table, grid.duplicate(rt.alloc())?, Ok(30), Ok(2));
    let pointer = CType::pointer(rt.alloc(), grid)?;
    check(&rt, &table, pointer.duplicate(rt.alloc())?, Ok(8), Ok(8));
    Ok(())
}

#[test]
fn tables(rt: HostRuntime) -> Result<(), Fail> {
    let mut table = StructTable::new(rt.alloc());
    let open = declare(&rt, &mut table)?;
    let pair = add(
        &rt,
        rt.alloc(),
        &mut table,
        &[Member::Num(LayKind::S8), Member::Num(LayKind::S32)],
    )?;
    let mut copy = table.duplicate(rt.alloc())?;
    let three = add(
        &rt,
        rt.alloc(),
        &mut copy,
        &[Member::Structs(pair, 3), Member::Num(LayKind::S8)],
    )?;
    assert_eq!(rt; table.count(), 2);
    assert_eq!(rt; copy.count(), 3);
    check(&rt, &copy, CType::Struct(three), Ok(28), Ok(4));
    check(&rt, &copy, CType::Struct(pair), Ok(8), Ok(4));
    assert_eq!(rt; offset(&rt, &copy, pair, 1), Ok(4));
    refuse(&rt, &copy, CType::Struct(open), Layout::Incomplete);
    refuse(&rt, &table, CType::Struct(three), Layout::Incomplete);
    Ok(())
}

#[test]
fn members(rt: HostRuntime) -> Result<(), Fail> {
    let mut table = StructTable::new(rt.alloc());
    let pair = add(
        &rt,
        rt.alloc(),
        &mut table,
        &[Member::Num(LayKind::S8), Member::Pointer],
    )?;
    let members = table.members(pair).ok_or("no members")?;
    assert_eq!(rt; members.len(), 2);
    assert!(rt; matches!(members[0], CType::Num(LayKind::S8)));
    assert!(rt; matches!(members[1], CType::Pointer(_)));
    assert!(rt; table.members(1).is_none());
    assert!(rt; all_sized(&table, &[]));
    Ok(())
}
