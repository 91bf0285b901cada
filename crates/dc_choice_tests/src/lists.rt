// Names, and lists of names and of numbers.
use dc_text::{Choices, Name, Names};
use std::test::Fail;

#[test]
fn a_list_of_names_keeps_their_order(rt: HostRuntime) -> Result<(), Fail> {
    let alloc = rt.alloc();
    let mut names = Names::new(alloc);
    names.push(Name::copied(alloc, b"f.precondition.1")?)?;
    names.push(Name::of(Vec::new(alloc)))?;
    let copy = names.duplicate(alloc)?;
    assert_eq!(rt; copy.len(), 2);
    if let [first, second] = copy.as_slice() {
        assert!(rt; first.is(b"f.precondition.1"));
        assert!(rt; second.is(b""));
        assert!(rt; !first.is(second.as_slice()));
    }
    Ok(())
}

#[test]
fn a_list_of_choices_keeps_their_order(rt: HostRuntime) -> Result<(), Fail> {
    let alloc = rt.alloc();
    let mut choices = Choices::of(Vec::from_slice(alloc, &[3, 18446744073709551615])?);
    choices.push(0)?;
    let copy = choices.duplicate(alloc)?;
    assert_eq!(rt; copy.len(), 3);
    assert_eq!(rt; copy.as_slice(), [3, 18446744073709551615, 0].as_slice());
    assert_eq!(rt; choices.into_vec().as_slice(), copy.as_slice());
    Ok(())
}
