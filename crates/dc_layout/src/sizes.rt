// Sizes, alignments and offsets (C11 6.2.8, 6.5.3.4, 6.7.2.1).
ghost use Rattle.std.specs.Prelude.{◌≡◌, ◌<◌, ◌↔◌, length, IsTrue, IfSome};
ghost use Rattle.std.specs.Option.{option_map};
ghost use Rattle.dc_layout.specs.Types.{type_view, structs_view, members_of};
ghost use Rattle.dc_layout.specs.Layout.{extent_of, size_answer, align_answer, offset_answer, HasMember};
ghost use Rattle.dc_layout.specs.Sized.{AllSized};
ghost use Rattle.dc_layout.specs.Kept.{capped, within_limit as within, IsSmall};
ghost use Rattle.dc_layout.specs.Members.{placed_of, whole_of, begin_of};

use crate::capped::{Capped, LIMIT};
use crate::ctype::CType;
use crate::fault::Layout;
use crate::table::StructTable;

/// The size and the alignment of a type; none where a part has no size.
fn extent(table: &StructTable, t: &CType) -> Option<Capped>
    ensures value { result ≡ option_map capped (extent_of (structs_view table.now) (type_view t.now)) }
    ensures small { IfSome result IsSmall }
{
    match t {
        CType::Void | CType::Func(..) => None,
        CType::Num(kind) => Some(Capped::scalar(kind.bytes())),
        CType::Pointer(_) => Some(Capped::scalar(8)),
        CType::Array(element, count) => match extent(table, element.get()) {
            None => None,
            Some(element) => element.repeated(*count),
        },
        CType::Struct(s) => table.kept(*s),
        CType::Const(of) => extent(table, of.get()),
    }
}

/// Where members end that stand one behind the other, and their largest alignment; none where one has no size.
fn placed(table: &StructTable, members: &[CType]) -> Option<Capped>
    ensures value { result ≡ placed_of (structs_view table.now) members.now }
    ensures small { IfSome result IsSmall }
{
    let mut placed = Capped::NOTHING;
    for member in members {
        match extent(table, member) {
            None => return None,
            Some(member) => placed = placed.with(member),
        }
    }
    Some(placed)
}

/// Where member `at` begins, behind those before it; none where one of them, or it, has no size.
fn begin(table: &StructTable, members: &[CType], at: usize) -> Option<u64>
    requires { at < length members.now }
    ensures { result ≡ begin_of (structs_view table.now) members.now at }
{
    match (placed(table, &members[..at]), extent(table, &members[at])) {
        (Some(before), Some(member)) => Some(before.size.next_multiple_of(member.align)),
        _ => None,
    }
}

/// The size and the alignment of a struct of these members; none where one has no size.
pub fn whole(table: &StructTable, members: &[CType]) -> Option<Capped>
    ensures value { result ≡ whole_of (structs_view table.now) members.now }
    ensures small { IfSome result IsSmall }
{
    match placed(table, members) {
        None => None,
        Some(placed) => Some(placed.rounded()),
    }
}

/// What is there and has at most the limit's bytes, or why there is no answer.
fn within_limit(extent: Option<Capped>) -> Result<Capped, Layout>
    ensures { result ≡ within extent }
{
    match extent {
        None => Err(Layout::Incomplete),
        Some(extent) if LIMIT < extent.size => Err(Layout::TooLarge),
        Some(extent) => Ok(extent),
    }
}

/// How many bytes a type has (C11 6.5.3.4): `Incomplete` exactly where a part has no size (void, a function, a struct
/// without members, an array of 0 elements, which is one without a length), else `TooLarge` exactly where it has above 16,777,216 bytes. It takes no memory.
#[tactic(auto, unfolding(crate::specs::Layout::size_answer))]
pub fn size_of(table: &StructTable, t: &CType) -> Result<u64, Layout>
    ensures { result ≡ size_answer (structs_view table.now) (type_view t.now) }
{
    match within_limit(extent(table, t)) {
        Ok(extent) => Ok(extent.size),
        Err(fault) => Err(fault),
    }
}

/// The alignment of a type in bytes: 1, 2, 4 or 8 (C11 6.2.8). `Incomplete` and `TooLarge` come as for `size_of`. It takes
/// no memory.
#[tactic(auto, unfolding(crate::specs::Layout::align_answer))]
pub fn align_of(table: &StructTable, t: &CType) -> Result<u64, Layout>
    ensures { result ≡ align_answer (structs_view table.now) (type_view t.now) }
{
    match within_limit(extent(table, t)) {
        Ok(extent) => Ok(extent.align),
        Err(fault) => Err(fault),
    }
}

/// Where a member of struct `s` begins, in bytes from the struct's own begin (C11 6.7.2.1); members are numbered from 0.
/// `Incomplete` exactly where the struct has no members, else `TooLarge` exactly where the whole struct has above 16,777,216
/// bytes. It takes no memory.
#[tactic(auto, unfolding(crate::specs::Layout::offset_answer))]
pub fn offset_of(table: &StructTable, s: u32, member: usize) -> Result<u64, Layout>
    requires { HasMember (members_of table.now s) member }
    ensures { result ≡ offset_answer (structs_view table.now) s member }
{
    let Some(members) = table.members(s) else {
        return Err(Layout::Incomplete);
    };
    if let Err(fault) = within_limit(table.kept(s)) {
        return Err(fault);
    }
    match begin(table, members, member) {
        None => Err(Layout::Incomplete),
        Some(offset) => Ok(offset),
    }
}

/// Whether each of the types has a size within the limit, as the members of a struct must.
pub fn all_sized(table: &StructTable, types: &[CType]) -> bool
    ensures { IsTrue result ↔ AllSized table.now types.now }
{
    types.iter().all(|t| size_of(table, t).is_ok())
}
