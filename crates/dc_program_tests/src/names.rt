// Kinds and rules by their names.
use dc_layout::LayKind;
use dc_memory::MemKind;
use dc_program::{NumKind, Rule, lay_kind, mem_kind, num_kind};
use std::test::Fail;

#[test]
fn kinds(rt: HostRuntime) -> Result<(), Fail> {
    let rows = [
        (LayKind::Bool, NumKind::Bool, MemKind::Bool),
        (LayKind::S8, NumKind::S8, MemKind::S8),
        (LayKind::U8, NumKind::U8, MemKind::U8),
        (LayKind::S16, NumKind::S16, MemKind::S16),
        (LayKind::U16, NumKind::U16, MemKind::U16),
        (LayKind::S32, NumKind::S32, MemKind::S32),
        (LayKind::U32, NumKind::U32, MemKind::U32),
        (LayKind::S64, NumKind::S64, MemKind::S64),
        (LayKind::U64, NumKind::U64, MemKind::U64),
        (LayKind::Ptr, NumKind::Ptr, MemKind::Ptr),
    ];
    for (layout, number, memory) in rows {
        assert!(rt; num_kind(layout) == number);
        assert!(rt; lay_kind(number) == layout);
        assert!(rt; mem_kind(number) == memory);
    }
    Ok(())
}

#[test]
fn rules(rt: HostRuntime) -> Result<(), Fail> {
    let rows = [
        (Rule::Undeclared, 1),
        (Rule::Incomplete, 5),
        (Rule::LiteralTooLarge, 11),
        (Rule::NotAssignable, 20),
        (Rule::EffectInside, 28),
        (Rule::WrongLoopClauses, 43),
        (Rule::NoContract, 44),
    ];
    for (rule, number) in rows {
        assert_eq!(rt; rule.number(), number);
    }
    Ok(())
}
