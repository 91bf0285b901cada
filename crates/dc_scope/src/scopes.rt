// The scopes at a place in a source, and the members of structs.
ghost use Rattle.std.specs.Prelude.{◌≡◌, ◌<◌, ◌+◌, length, reverse, None, true, OnErr, OnOk};
ghost use Rattle.std.specs.Option.{option_copied, option_map};
ghost use Rattle.dc_scope.specs.Declaring.{Declares};
ghost use Rattle.dc_scope.specs.Entities.{entity_view};
ghost use Rattle.dc_scope.specs.Scopes.{all_differ, depth_of, entered, file_scope, found, found_among, found_inner, left, member_of, members_of, with_members};

use crate::declare::Declare;
use crate::entity::Entity;
use crate::member_names::MemberNames;
use crate::scope::Scope;
use crate::second::declare_second;
use crate::space::Space;
use dc_text::Name;
use indexmap::IndexMap;
use std::alloc::{AllocError, Global};
use std::marker::Model;
use std::mem;

/// The scopes at a place in a source (C11 6.2.1), the innermost one and those around it, and the names of the members of
/// structs, which have numbers. Scopes keep the allocator that they are made with.
#[derive(Drop)]
pub struct Scopes {
    // The scopes around the innermost one, the file's first.
    outer: Vec<Scope>,
    inner: Scope,
    members: IndexMap<u32, MemberNames>,
}

impl Model for Scopes {
    ghost use Rattle.std.specs.Prelude.{reverse};
    ghost use Rattle.dc_scope.specs.Scopes.{PlainScopes};
    ghost use Rattle.dc_scope.specs.Codes.{code_scopes};

    ghost Value = { PlainScopes };

    ghost coded = { code_scopes };

    ghost view = { λ s. record { inner = s.inner; outer = reverse s.outer.items; members = s.members.entries } };
}

impl Scopes {
    /// The file's scope alone, without names. It takes no memory.
    pub fn new(alloc: Global) -> Scopes
        ensures { result ≡ file_scope }
    {
        Scopes {
            outer: Vec::new(alloc),
            inner: Scope::new(alloc),
            members: IndexMap::new(alloc),
        }
    }

    /// How many scopes are around the innermost one: 0 where it is the file's.
    pub fn depth(&self) -> usize
        ensures { result ≡ depth_of self.now }
    {
        self.outer.len()
    }

    /// Opens a scope inside the innermost one, without names. A refused call leaves the scopes as they were.
    pub fn enter(&mut self) -> Result<(), AllocError>
        ensures ok { OnOk result (self.new ≡ entered self.old) }
        ensures refused { OnErr result (self.new ≡ self.old) }
    {
        self.outer.try_reserve(1)?;
        let empty = Scope::new(*self.outer.allocator());
        let around = mem::replace(&mut self.inner, empty);
        self.outer.push_reserved(around);
        Ok(())
    }

    /// Closes the innermost scope, which isn't the file's, and forgets its names. It takes no memory.
    pub fn leave(&mut self)
        requires { 0 < depth_of self.old }
        ensures left { self.new ≡ left self.old }
        ensures depth { depth_of self.new + 1 ≡ depth_of self.old }
    {
        if let Some(around) = self.outer.pop() {
            self.inner = around;
        }
    }

    /// What the name stands for: its entity in the innermost scope that has it in this name space (C11 6.2.1, 6.2.3). It
    /// takes no memory.
    pub fn find(&self, space: Space, name: &Name) -> Option<&Entity>
        ensures { option_map entity_view (option_copied result) ≡ found self.now space name.now }
    {
        if let Some(entity) = self.inner.find(space, name) {
            return Some(entity);
        }
        find_around(&self.outer, space, name)
    }

    /// What the name stands for in the innermost scope alone. It takes no memory.
    pub fn find_inner(&self, space: Space, name: &Name) -> Option<&Entity>
        ensures { option_map entity_view (option_copied result) ≡ found_inner self.now space name.now }
    {
        self.inner.find(space, name)
    }

    /// Declares the name in the innermost scope. Where that scope has it already in this name space, two functions, two
    /// variables of file scope or two typedefs of the same type are permitted (C11 6.2.2, 6.2.7, 6.7 p3), and the first
    /// stands as it was. Types are the same with their qualifiers, but for a parameter's own.
    ///
    /// `Twice` and `Differs` are answered where a second declaration isn't permitted, and `Memory` where there is no
    /// memory; the scopes are then as before.
    pub fn declare(&mut self, space: Space, name: &Name, what: Entity) -> Result<(), Declare>
        ensures declared { Declares result self.old space name.now (entity_view what) self.new }
        ensures depth { depth_of self.new ≡ depth_of self.old }
    {
        if let Some(first) = self.inner.find(space, name) {
            return declare_second(first, &what);
        }
        self.inner.add(space, name, what).map_err(Declare::Memory)
    }

    /// Names the members of the struct with this number, in order. They all differ, and the struct has no names yet. A
    /// refused call leaves everything as it was.
    pub fn name_members(&mut self, number: u32, names: Vec<Name>) -> Result<(), AllocError>
        requires differ { all_differ names.items ≡ true }
        requires unnamed { members_of self.old number ≡ None }
        ensures ok { OnOk result (self.new ≡ with_members self.old number names.items) }
        ensures refused { OnErr result (self.new ≡ self.old) }
    {
        let names = MemberNames::of(*self.outer.allocator(), names)?;
        if self.members.insert(number, names).is_err() {
            return Err(AllocError);
        }
        Ok(())
    }

    /// The place of the name among the members of the struct with this number, from 0; none where it has no such member
    /// (C11 6.2.3). It takes no memory.
    pub fn member(&self, number: u32, name: &Name) -> Option<usize>
        ensures { result ≡ member_of self.now number name.now }
    {
        match self.members.get(&number) {
            None => None,
            Some(names) => names.place(name),
        }
    }

    /// How many members the struct with this number has; none where they aren't named yet.
    pub fn count_of_members(&self, number: u32) -> Option<usize>
        ensures { result ≡ option_map length (members_of self.now number) }
    {
        match self.members.get(&number) {
            None => None,
            Some(names) => Some(names.len()),
        }
    }
}

// The entity of the name in the last of these scopes that has it.
fn find_around<'a>(scopes: &'a [Scope], space: Space, name: &Name) -> Option<&'a Entity>
    ensures { option_map entity_view (option_copied result) ≡ found_among (reverse scopes.now) space name.now }
{
    let mut at = scopes.len();
    while at > 0 {
        at -= 1;
        if let Some(entity) = scopes[at].find(space, name) {
            return Some(entity);
        }
    }
    None
}
