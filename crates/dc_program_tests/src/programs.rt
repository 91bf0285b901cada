// Programs that are sound.
use dc_program::{Program, StructTable};
use sqlite_items::Items;
use std::test::Fail;

#[test]
fn empty(rt: HostRuntime) -> Result<(), Fail> {
    let program = Program::new(
        Items::new(rt.alloc()),
        Items::new(rt.alloc()),
        StructTable::new(rt.alloc()),
    );
    let copy = program.duplicate(rt.alloc())?;
    assert_eq!(rt; copy.functions().len(), 0);
    assert_eq!(rt; copy.statics().len(), 0);
    assert_eq!(rt; copy.structs().count(), 0);
    Ok(())
}
