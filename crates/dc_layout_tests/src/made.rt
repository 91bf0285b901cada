// Types and structs as the tests write them down.
use dc_layout::{CType, LayKind, Layout, StructTable, align_of, all_sized, offset_of, size_of};
use sqlite_items::Items;
use std::alloc::{AllocError, Global};
use std::process::Abort;

/// The type of a member.
#[derive(Clone, Copy)]
pub enum Member {
    Num(LayKind),
    Const(LayKind),
    Pointer,
    Array(LayKind, u64),
    Grid(LayKind, u64, u64),
    Struct(u32),
    Structs(u32, u64),
}

pub fn type_of(alloc: Global, member: Member) -> Result<CType, AllocError> {
    match member {
        Member::Num(kind) => Ok(CType::Num(kind)),
        Member::Const(kind) => CType::constant(alloc, CType::Num(kind)),
        Member::Pointer => CType::pointer(alloc, CType::Void),
        Member::Array(kind, count) => CType::array(alloc, CType::Num(kind), count),
        Member::Grid(kind, rows, columns) => {
            let row = CType::array(alloc, CType::Num(kind), columns)?;
            CType::array(alloc, row, rows)
        }
        Member::Struct(s) => Ok(CType::Struct(s)),
        Member::Structs(s, count) => CType::array(alloc, CType::Struct(s), count),
    }
}

pub fn types_of(alloc: Global, members: &[Member]) -> Result<Items<CType>, AllocError> {
    let mut types = Items::new(alloc);
    for member in members {
        types.push(type_of(alloc, *member)?)?;
    }
    Ok(types)
}

pub fn declare(rt: &impl Abort, table: &mut StructTable) -> Result<u32, AllocError> {
    assert!(rt; table.count() < 1000);
    table.add()
}

pub fn complete(rt: &impl Abort, table: &mut StructTable, s: u32, members: Items<CType>) {
    assert!(rt; (s as usize) < table.count());
    assert!(rt; table.members(s).is_none());
    assert!(rt; !members.is_empty());
    assert!(rt; all_sized(table, members.as_slice()));
    table.complete(s, members);
}

pub fn add(
    rt: &impl Abort,
    alloc: Global,
    table: &mut StructTable,
    members: &[Member],
) -> Result<u32, AllocError> {
    let types = types_of(alloc, members)?;
    let s = declare(rt, table)?;
    complete(rt, table, s, types);
    Ok(s)
}

pub fn offset(rt: &impl Abort, table: &StructTable, s: u32, member: usize) -> Result<u64, Layout> {
    if let Some(members) = table.members(s) {
        assert!(rt; member < members.len());
    }
    offset_of(table, s, member)
}

/// The answers for one type.
pub fn check(
    rt: &impl Abort,
    table: &StructTable,
    t: CType,
    size: Result<u64, Layout>,
    align: Result<u64, Layout>,
) {
    assert_eq!(rt; size_of(table, &t), size);
    assert_eq!(rt; align_of(table, &t), align);
}

/// A type with neither size nor alignment.
pub fn refuse(rt: &impl Abort, table: &StructTable, t: CType, fault: Layout) {
    check(rt, table, t, Err(fault), Err(fault));
}
