// A goto program with what the machine looks up.
ghost use Rattle.std.specs.Prelude.{◌≡◌, List, ℕ, Some, map, option_map, IfOk};
ghost use Rattle.std.specs.Option.{option_copied};
ghost use Rattle.dc_goto.specs.Acts.{called as called_in, called_at as name_at_signature, function_at as sig_at, kind_number as number_of_kind, same_kinds as are_same_kinds, same_result as is_same_result, static_sizes};
ghost use Rattle.dc_goto.specs.Machine.{function_number as number_of_function};
ghost use Rattle.dc_goto.specs.View.{goto_view, sig_view, body_view};
ghost use Rattle.dc_machine.specs.Linked.{IsIndex, linked_view, IsLinked};

use crate::index::Index;
use dc_core::NumKind;
use dc_goto::{Body, GotoProgram, Sig};
use dc_memory::{object_number, offset};
use sqlite_items::at;
use std::alloc::{AllocError, Global};

/// A goto program with the sizes of its variables, and with where its functions and bodies stand by their names.
#[derive(Drop)]
pub struct Linked<'p> {
    pub goto: &'p GotoProgram,
    pub sizes: Vec<u64>,
    pub functions: Index<'p>,
    pub bodies: Index<'p>,
}

// Where the functions stand.
fn functions<'p>(alloc: Global, sigs: &'p [Sig]) -> Result<Index<'p>, AllocError>
    ensures { IfOk result (λ index. IsIndex (map (λ sig. sig.name) (map sig_view sigs.now)) index) }
{
    let mut index = Index::new(alloc);
    for (place, sig) in sigs.iter().enumerate() {
        index.add(sig.name.as_slice(), place)?;
    }
    Ok(index)
}

// Where the bodies stand.
fn bodies<'p>(alloc: Global, bodies: &'p [Body]) -> Result<Index<'p>, AllocError>
    ensures { IfOk result (λ index. IsIndex (map (λ body. body.name) (map body_view bodies.now)) index) }
{
    let mut index = Index::new(alloc);
    for (place, body) in bodies.iter().enumerate() {
        index.add(body.name.as_slice(), place)?;
    }
    Ok(index)
}

// The sizes of the variables.
fn sizes(alloc: Global, goto: &GotoProgram) -> Result<Vec<u64>, AllocError>
    ensures { IfOk result (λ sizes. sizes.items ≡ static_sizes (goto_view goto.now)) }
{
    let mut sizes = Vec::new(alloc);
    for variable in goto.statics.as_slice() {
        sizes.push(variable.size)?;
    }
    Ok(sizes)
}

impl<'p> Linked<'p> {
    /// The program with what is looked up.
    pub fn new(alloc: Global, goto: &'p GotoProgram) -> Result<Linked<'p>, AllocError>
        ensures linked { IfOk result (λ p. IsLinked p) }
        ensures goto { IfOk result (λ p. linked_view p ≡ goto_view goto.now) }
    {
        let sizes = sizes(alloc, goto)?;
        let functions = functions(alloc, goto.functions.as_slice())?;
        let bodies = bodies(alloc, goto.bodies.as_slice())?;
        Ok(Linked {
            goto,
            sizes,
            functions,
            bodies,
        })
    }

    /// The object of a function: its number in the order of the functions, from 1 on.
    pub fn function_number(&self, name: &[u8]) -> u64
        requires { IsLinked self.now }
        ensures { result ≡ number_of_function 1 (linked_view self.now).functions name.now }
    {
        let count = self.goto.functions.as_slice().len() as u64;
        match self.functions.find(name) {
            None => count + 1,
            Some(place) => place as u64 + 1,
        }
    }

    // The function of an object: functions are the first objects, in their order.
    fn function_at(&self, object: u64) -> Option<&Sig>
        ensures { option_map (λ sig. sig_view sig.now) result ≡ sig_at (linked_view self.now).functions object }
    {
        if object == 0 {
            return None;
        }
        at(self.goto.functions.as_slice(), (object - 1) as usize)
    }

    /// The name of the function whose start the pointer is, where it has a result of this kind, if any, and parameters of these.
    pub fn called(
        &self,
        result_kind: Option<NumKind>,
        params: &[NumKind],
        pointer: u64,
    ) -> Option<&[u8]>
        ensures { option_copied result ≡ called_in (linked_view self.now) result_kind params.now pointer }
    {
        if offset(pointer) != 0 {
            return None;
        }
        match self.function_at(object_number(pointer)) {
            None => None,
            Some(sig) => called_at(result_kind, params, sig),
        }
    }
}

// The name of a function, where it has a result of this kind, if any, and parameters of these.
fn called_at<'s>(result_kind: Option<NumKind>, params: &[NumKind], sig: &'s Sig) -> Option<&'s [u8]>
    ensures { option_copied result ≡ name_at_signature result_kind params.now (Some (sig_view sig.now)) }
{
    if same_result(result_kind, sig.result) && same_kinds(params, sig.params.as_slice()) {
        Some(sig.name.as_slice())
    } else {
        None
    }
}

// The number of a kind in an order of their own.
fn kind_number(kind: NumKind) -> u8
    ensures { result ≡ number_of_kind kind }
{
    match kind {
        NumKind::Bool => 0,
        NumKind::S8 => 1,
        NumKind::U8 => 2,
        NumKind::S16 => 3,
        NumKind::U16 => 4,
        NumKind::S32 => 5,
        NumKind::U32 => 6,
        NumKind::S64 => 7,
        NumKind::U64 => 8,
        NumKind::Ptr => 9,
    }
}

// Whether the results are of the same kind, or there are none.
fn same_result(a: Option<NumKind>, b: Option<NumKind>) -> bool
    ensures { result ≡ is_same_result a b }
{
    match (a, b) {
        (None, None) => true,
        (Some(a), Some(b)) => kind_number(a) == kind_number(b),
        _ => false,
    }
}

// Whether the kinds are the same, one by one.
fn same_kinds(a: &[NumKind], b: &[NumKind]) -> bool
    ensures { result ≡ are_same_kinds a.now b.now }
{
    if a.len() != b.len() {
        return false;
    }
    for place in 0..a.len() {
        if kind_number(a[place]) != kind_number(b[place]) {
            return false;
        }
    }
    true
}
