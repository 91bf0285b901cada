// The members of structs, by name.
ghost use Rattle.std.specs.Prelude.{◌≡◌};
ghost use Rattle.dc_scope.specs.Scopes.{file_scope};

use dc_scope::Scopes;
use dc_text::Name;
use std::alloc::{AllocError, Global};
use std::test::Fail;

// Whether a struct has a member at this place; none where it has no such member.
fn stands(
    alloc: Global,
    scopes: &Scopes,
    number: u32,
    name: &[u8],
    place: Option<usize>,
) -> Result<bool, AllocError> {
    let name = Name::copied(alloc, name)?;
    Ok(scopes.member(number, &name) == place)
}

// Whether struct 0 has a and b as its members, behind this call.
fn a_and_b(alloc: Global, scopes: &mut Scopes) -> Result<bool, AllocError>
    requires { scopes.old ≡ file_scope }
{
    let mut names = Vec::new(alloc);
    names.push(Name::copied(alloc, b"a")?)?;
    names.push(Name::copied(alloc, b"b")?)?;
    scopes.name_members(0, names)?;
    Ok(
        scopes.count_of_members(0) == Some(2)
            && stands(alloc, scopes, 0, b"a", Some(0))?
            && stands(alloc, scopes, 0, b"b", Some(1))?
            && stands(alloc, scopes, 0, b"c", None)?
            && stands(alloc, scopes, 1, b"a", None)?,
    )
}

#[test]
fn members_have_their_places(rt: HostRuntime) -> Result<(), Fail> {
    let mut scopes = Scopes::new(rt.alloc());
    assert_eq!(rt; scopes.count_of_members(0), None);
    assert!(rt; a_and_b(rt.alloc(), &mut scopes)?);
    Ok(())
}

// Whether two structs with members of the same name have each its own, behind this call.
fn two_structs(alloc: Global, scopes: &mut Scopes) -> Result<bool, AllocError>
    requires { scopes.old ≡ file_scope }
{
    let mut names = Vec::new(alloc);
    names.push(Name::copied(alloc, b"a")?)?;
    scopes.name_members(7, names)?;
    let mut names = Vec::new(alloc);
    names.push(Name::copied(alloc, b"b")?)?;
    names.push(Name::copied(alloc, b"a")?)?;
    scopes.name_members(4000000000, names)?;
    Ok(
        scopes.count_of_members(4000000000) == Some(2)
            && stands(alloc, scopes, 7, b"a", Some(0))?
            && stands(alloc, scopes, 7, b"b", None)?
            && stands(alloc, scopes, 4000000000, b"a", Some(1))?
            && stands(alloc, scopes, 4000000000, b"b", Some(0))?,
    )
}

#[test]
fn structs_have_members_of_the_same_names(rt: HostRuntime) -> Result<(), Fail> {
    let mut scopes = Scopes::new(rt.alloc());
    assert!(rt; two_structs(rt.alloc(), &mut scopes)?);
    Ok(())
}

// Whether a struct has no members, behind the scope in which it is given none.
fn no_members(alloc: Global, scopes: &mut Scopes) -> Result<bool, AllocError>
    requires { scopes.old ≡ file_scope }
{
    scopes.enter()?;
    scopes.name_members(2, Vec::new(alloc))?;
    scopes.leave();
    Ok(scopes.count_of_members(2) == Some(0) && stands(alloc, scopes, 2, b"a", None)?)
}

#[test]
fn a_struct_without_members(rt: HostRuntime) -> Result<(), Fail> {
    let mut scopes = Scopes::new(rt.alloc());
    assert!(rt; no_members(rt.alloc(), &mut scopes)?);
    Ok(())
}
