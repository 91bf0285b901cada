// The table of structs.
ghost use Rattle.std.specs.Prelude.{◌≡◌, ◌<◌, ◌∷◌, [], ◌++◌, ◌-◌, ◌^◌, length, slice_set, None, Some, IfOk, OnOk, OnErr, OnSome, IfSome, IsSome};
ghost use Rattle.std.specs.Option.{option_copied};
ghost use Rattle.dc_layout.specs.Types.{members_of, structs_view};
ghost use Rattle.dc_layout.specs.Layout.{laid_members};

use crate::capped::Capped;
use crate::ctype::{CType, duplicates};
use crate::sizes::whole;
use sqlite_items::Items;
use std::alloc::{AllocError, Global};
use std::marker::Model;

/// The types of a struct's members, with the size and the alignment that they give it.
#[derive(Drop)]
struct Complete {
    members: Items<CType>,
    whole: Capped,
}

/// The structs, numbered from 0, each with the types of its members, or with none yet (C11 6.7.2.1). A struct's size is
/// computed once, when it gets its members; no struct has itself as a part.
#[derive(Drop)]
pub struct StructTable {
    structs: Vec<Option<Complete>>,
}

impl Model for StructTable {
    ghost use Rattle.std.specs.Prelude.{List, Option};
    ghost use Rattle.std.specs.Coded.{codes};
    ghost use Rattle.dc_layout.specs.contracts.ctype.CType as ctype;
    ghost use Rattle.dc_layout.specs.declared.ctype.CType.{CType};
    ghost use Rattle.dc_layout.specs.Kept.{all_members, IsKept};

    ghost Value = { List (Option (List CType)) };

    ghost coded = { Prim.hlevel (codes, ctype.the_row.coded) };

    ghost view = { λ t. all_members t.structs.items };

    ghost invariant = { λ t. IsKept t.structs.items };
}

impl StructTable {
    ghost use Rattle.dc_layout.specs.Kept.{to_keep, IsSmall};
    ghost use Rattle.dc_layout.specs.Sized.{AllSized};

    /// No structs. It takes no memory.
    pub fn new(alloc: Global) -> StructTable
        ensures { result ≡ [] }
    {
        StructTable {
            structs: Vec::new(alloc),
        }
    }

    /// How many structs there are.
    pub fn count(&self) -> usize
        ensures { result ≡ length self.now }
    {
        self.structs.len()
    }

    /// The types of the members of struct `s`; none where it has none yet, and where there is no such struct. Where there
    /// are members, each of them has a place in the struct.
    pub fn members(&self, s: u32) -> Option<&[CType]>
        ensures value { option_copied result ≡ members_of self.now s }
        ensures laid { OnSome result (IsSome (laid_members (structs_view self.now) s)) }
    {
        match self.structs.get(s as usize) {
            Some(Some(complete)) => Some(complete.members.as_slice()),
            _ => None,
        }
    }

    /// The size and the alignment that are kept of struct `s`, where it has members.
    pub(crate) fn kept(&self, s: u32) -> Option<Capped>
        ensures value { result ≡ to_keep self.now s }
        ensures small { IfSome result IsSmall }
    {
        match self.structs.get(s as usize) {
            Some(Some(complete)) => Some(complete.whole),
            _ => None,
        }
    }

    /// A struct without members, and its number. A refused call leaves the table as it was.
    pub fn add(&mut self) -> Result<u32, AllocError>
        requires { length self.old < 2 ^ 32 - 1 }
        ensures added { OnOk result (self.new ≡ self.old ++ None ∷ []) }
        ensures number { IfOk result (λ s. s ≡ length self.old) }
        ensures refused { OnErr result (self.new ≡ self.old) }
    {
        let number = self.structs.len() as u32;
        self.structs.push(None)?;
        Ok(number)
    }

    /// Gives struct `s`, which has no members yet, these members, one at least, each of which has a size within the limit
    /// (C11 6.7.2.1). It takes no memory.
    pub fn complete(&mut self, s: u32, members: Items<CType>)
        requires number { s < length self.old }
        requires incomplete { members_of self.old s ≡ None }
        requires some { 0 < length members }
        requires sized { AllSized self.old members }
        ensures { self.new ≡ slice_set self.old s (Some members) }
    {
        let Some(whole) = whole(self, members.as_slice()) else {
            unreachable!()
        };
        self.structs[s as usize] = Some(Complete { members, whole });
    }

    /// A table of the same structs, on memory of its own.
    pub fn duplicate(&self, alloc: Global) -> Result<StructTable, AllocError>
        ensures { IfOk result (λ copy. copy ≡ self.now) }
    {
        let mut structs = Vec::new(alloc);
        for one in &self.structs {
            let copy = match one {
                None => None,
                Some(complete) => Some(complete.duplicate(alloc)?),
            };
            structs.push(copy)?;
        }
        Ok(StructTable { structs })
    }
}

impl Complete {
    fn duplicate(&self, alloc: Global) -> Result<Complete, AllocError>
        ensures { IfOk result (λ copy. copy ≡ self.now) }
    {
        Ok(Complete {
            members: duplicates(alloc, self.members.as_slice())?,
            whole: self.whole,
        })
    }
}
