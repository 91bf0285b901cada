// Objects that die before the function is left.
ghost use Rattle.std.specs.Prelude.{◌∷◌, []};

use crate::build::{load, start_program};
use crate::runs::{run, word};
use dc_choice::{ListChooser, Watch};
use dc_core::Term;
use dc_goto::{Bytes, GotoProgram, Instr};
use dc_machine::run_goto;
use dc_text::{Choices, Counts, Event};
use sqlite_items::Items;
use std::alloc::{AllocError, Global};
use std::test::Fail;

// A watch that keeps the last digits of the objects that die, in their order.
#[derive(Drop)]
struct KillWatch {
    counts: Counts,
    digits: u64,
}

impl Watch for KillWatch {
    ghost records = { λ watch. record { counts = watch.counts; room = 0; heard = [] } ∷ [] };

    fn hear(&mut self, event: &Event) {
        self.counts.hear(event);
        if let Event::Kill(object) = event {
            self.digits = self.digits % 1000000 * 10 + *object % 10;
        }
    }

    fn counts(&self) -> Counts {
        self.counts
    }
}

// A start of three objects, of which those beyond the first so many die before it is left.
fn killing_program(alloc: Global, first: u64) -> Result<GotoProgram, AllocError> {
    let mut code = Items::new(alloc);
    for register in 0..3 {
        code.push(Instr::Local(register, 4, Bytes::Zero))?;
    }
    code.push(Instr::Kill(first))?;
    code.push(Instr::Return(None))?;
    start_program(alloc, 3, code)
}

// The objects that die in so many steps, in their order.
fn killed(alloc: Global, p: &GotoProgram, steps: u64) -> Result<u64, AllocError> {
    let mut chooser = ListChooser::new(Choices::of(Vec::new(alloc)));
    let mut watch = KillWatch {
        counts: Counts::new(),
        digits: 0,
    };
    run_goto(alloc, p, &mut chooser, &mut watch, steps)?;
    Ok(watch.digits)
}

// How many live on, and the objects that die before the function is left and in all. They are the objects 3 to 5.
const KILLED: [(u64, u64, u64); 5] = [
    (0, 543, 543),
    (1, 54, 543),
    (2, 5, 543),
    (3, 0, 543),
    (18446744073709551615, 0, 543),
];

#[test]
fn the_newest_die_first(rt: HostRuntime) -> Result<(), Fail> {
    for (first, before, all) in &KILLED {
        let p = killing_program(rt.alloc(), *first)?;
        assert_eq!(rt; killed(rt.alloc(), &p, 4)?, *before, "{}", first);
        assert_eq!(rt; killed(rt.alloc(), &p, 5)?, *all, "{}", first);
    }
    Ok(())
}

// A start that reads its one object after those beyond the first so many died.
fn reading_program(alloc: Global, first: u64) -> Result<GotoProgram, AllocError> {
    let value = load(alloc, Term::Register(0))?;
    let mut code = Items::new(alloc);
    code.push(Instr::Local(0, 4, Bytes::Zero))?;
    code.push(Instr::Kill(first))?;
    code.push(Instr::Return(Some(value)))?;
    start_program(alloc, 1, code)
}

#[test]
fn a_dead_object_has_no_value(rt: HostRuntime) -> Result<(), Fail> {
    for (first, end) in [(0, "undefined"), (1, "returned")] {
        let p = reading_program(rt.alloc(), first)?;
        let report = run(rt.alloc(), &p, &[], 10)?;
        assert_eq!(rt; word(&report.end), end, "{}", first);
    }
    Ok(())
}
