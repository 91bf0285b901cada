// Structs with what a C compiler makes of them: size, alignment and the offset of each member; `bench/layout.py` prints the
// rows. A row's struct has the row's number.
use crate::made::Member::*;
use crate::made::{Member, add, offset};
use dc_layout::LayKind::*;
use dc_layout::{CType, StructTable, align_of, size_of};
use std::test::Fail;

#[test]
fn structs(rt: HostRuntime) -> Result<(), Fail> {
    let rows: [(&[Member], &[u64]); 16] = [
        (&[Num(S8), Num(S32), Num(S16)], &[12, 4, 0, 4, 8]),
        (&[Num(S8), Array(S8, 3), Pointer], &[16, 8, 0, 1, 8]),
        (&[Num(Bool)], &[1, 1, 0]),
        (&[Num(S64), Num(S8)], &[16, 8, 0, 8]),
        (&[Num(S8), Num(S64)], &[16, 8, 0, 8]),
        (&[Struct(0), Num(S8)], &[16, 4, 0, 12]),
        (&[Num(S8), Struct(4), Num(S8)], &[32, 8, 0, 8, 24]),
        (&[Structs(0, 3), Num(S16)], &[40, 4, 0, 36]),
        (&[Const(S32), Const(S8), Const(U16)], &[8, 4, 0, 4, 6]),
        (
            &[Array(S16, 5), Num(S8), Structs(2, 3), Num(S32)],
            &[20, 4, 0, 10, 11, 16],
        ),
        (
            &[Num(U8), Num(U16), Num(U8), Num(U32), Num(U8), Num(U64)],
            &[24, 8, 0, 2, 4, 8, 12, 16],
        ),
        (
            &[Num(Bool), Num(Ptr), Num(Bool), Num(Bool)],
            &[24, 8, 0, 8, 16, 17],
        ),
        (&[Num(S8), Grid(S32, 2, 3), Num(S8)], &[32, 4, 0, 4, 28]),
        (&[Structs(6, 2), Struct(1), Num(Bool)], &[88, 8, 0, 64, 80]),
        (&[Num(S8), Array(S32, 1), Num(S8)], &[12, 4, 0, 4, 8]),
        (
            &[Array(S8, 16777210), Num(S32)],
            &[16777216, 4, 0, 16777212],
        ),
    ];
    let mut table = StructTable::new(rt.alloc());
    for (members, wanted) in rows {
        let s = add(&rt, rt.alloc(), &mut table, members)?;
        assert!(rt; wanted.len() >= 2);
        assert_eq!(rt; size_of(&table, &CType::Struct(s)), Ok(wanted[0]));
        assert_eq!(rt; align_of(&table, &CType::Struct(s)), Ok(wanted[1]));
        assert_eq!(rt; wanted.len() - 2, members.len());
        for (at, begin) in wanted[2..].iter().enumerate() {
            assert_eq!(rt; offset(&rt, &table, s, at), Ok(*begin));
        }
    }
    Ok(())
}
