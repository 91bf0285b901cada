// Clauses, and what may be written.
ghost use Rattle.std.specs.Prelude.{◌≡◌, ◌≤◌, length, map, Some, true, IfOk, OnOk};
ghost use Rattle.dc_core.specs.Contract.{holds as holds_value, all_hold as all_of_them_hold, denoted, with_ranges, set_of};
ghost use Rattle.dc_core.specs.View.{clause_view, target_view};
ghost use Rattle.dc_world.specs.Sets.{set_view};
ghost use Rattle.dc_run.specs.View.{scope_view};

use crate::value::{Scope, target_place, value};
use dc_memory::Store;
use dc_program::{Clause, Target};
use dc_world::WriteSet;
use std::alloc::{AllocError, Global};

/// Whether a test holds: it has a value, and the value isn't 0.
pub fn holds(value: Option<i128>) -> bool
    ensures { result ≡ holds_value value }
{
    match value {
        None => false,
        Some(z) => z != 0,
    }
}

/// Whether all clauses hold.
pub fn all_hold(scope: &Scope, memory: &Store, clauses: &[Clause]) -> bool
    requires { length memory.now ≤ 65535 }
    ensures { result ≡ all_of_them_hold (scope_view scope.now) memory.now (map clause_view clauses.now) }
{
    for clause in clauses {
        if !holds(value(scope, memory, &clause.condition)) {
            return false;
        }
    }
    true
}

// Adds what an int target of that number denotes. There are too few objects for a place from 2^64 on.
fn add_target(
    set: &mut WriteSet,
    memory: &Store,
    tag: u64,
    place: Option<u128>,
) -> Result<(), AllocError>
    requires { length memory.now ≤ 65535 }
    ensures { OnOk result (set_view set.new ≡ with_ranges (denoted tag memory.now true place (Some 4)) (set_view set.old)) }
{
    let Some(place) = place else {
        return Ok(());
    };
    if place >= 1 << 64 {
        return Ok(());
    }
    set.add(memory, tag, true, Some(place as u64), Some(4))
}

/// What a call may write by these targets, and the objects that come later.
pub fn target_set(
    alloc: Global,
    scope: &Scope,
    memory: &Store,
    targets: &[Target],
) -> Result<WriteSet, AllocError>
    requires { length memory.now ≤ 65535 }
    ensures { IfOk result (λ set. set_view set ≡ set_of (map target_view targets.now) (scope_view scope.now) memory.now) }
{
    let mut set = WriteSet::new(alloc, memory);
    let mut tag = 0;
    for target in targets {
        tag += 1;
        add_target(&mut set, memory, tag, target_place(scope, target))?;
    }
    Ok(set)
}
