// Objects where there are nearly 65,535, which is as many as there may be.
use crate::build::{int, start_program, wide};
use crate::runs::{counted, run, word};
use dc_core::Term;
use dc_goto::{Bytes, GotoProgram, Instr};
use dc_world::End;
use sqlite_items::Items;
use std::alloc::{AllocError, Global};
use std::test::Fail;

// The instruction behind the outside objects.
#[derive(Clone, Copy)]
enum Last {
    Local(Bytes),
    Heap(i128, Bytes),
    Drawn,
}

fn instruction(last: Last) -> Instr {
    match last {
        Last::Local(bytes) => Instr::Local(0, 1, bytes),
        Last::Heap(size, bytes) => Instr::Alloc(0, int(1), wide(size), bytes),
        Last::Drawn => Instr::NewObjects,
    }
}

// A start that draws outside objects, and returns what is in its register behind the instruction.
fn last_program(alloc: Global, last: Last) -> Result<GotoProgram, AllocError> {
    let mut code = Items::new(alloc);
    code.push(Instr::OutsideObjects)?;
    code.push(instruction(last))?;
    code.push(Instr::Return(Some(Term::Register(0))))?;
    start_program(alloc, 1, code)
}

// How many outside objects there are, the instruction, the choices for it, and the end, the result and the events of the run. A
// function and a variable are there before.
struct Row {
    outside: usize,
    last: Last,
    choices: &'static [u64],
    end: &'static str,
    value: Option<i128>,
    counts: [u128; 8],
}

const ROWS: [Row; 8] = [
    Row {
        outside: 65532,
        last: Last::Local(Bytes::Zero),
        choices: &[],
        end: "returned",
        value: Some(18446462598732840960),
        counts: [65533, 65533, 1, 0, 0, 0, 0, 0],
    },
    Row {
        outside: 65533,
        last: Last::Local(Bytes::Zero),
        choices: &[],
        end: "objects",
        value: None,
        counts: [65534, 65533, 0, 0, 0, 0, 0, 0],
    },
    Row {
        outside: 65533,
        last: Last::Local(Bytes::Chosen),
        choices: &[1],
        end: "objects",
        value: None,
        counts: [65534, 65533, 0, 0, 0, 0, 0, 0],
    },
    Row {
        outside: 65532,
        last: Last::Heap(1, Bytes::Chosen),
        choices: &[1, 1],
        end: "returned",
        value: Some(18446462598732840960),
        counts: [65535, 65533, 0, 0, 0, 0, 0, 0],
    },
    Row {
        outside: 65533,
        last: Last::Heap(1, Bytes::Chosen),
        choices: &[1, 1],
        end: "objects",
        value: None,
        counts: [65535, 65533, 0, 0, 0, 0, 0, 0],
    },
    Row {
        outside: 65533,
        last: Last::Heap(1, Bytes::Zero),
        choices: &[0],
        end: "returned",
        value: Some(0),
        counts: [65535, 65533, 0, 0, 0, 0, 0, 0],
    },
    Row {
        outside: 65533,
        last: Last::Heap(16777217, Bytes::Zero),
        choices: &[1],
        end: "returned",
        value: Some(0),
        counts: [65534, 65533, 0, 0, 0, 0, 0, 0],
    },
    Row {
        outside: 65533,
        last: Last::Drawn,
        choices: &[7],
        end: "returned",
        value: Some(0),
        counts: [65535, 65533, 0, 0, 0, 0, 0, 0],
    },
];

// The choices of so many outside objects, each of them dead, and others behind them.
fn choices(alloc: Global, outside: usize, others: &[u64]) -> Result<Vec<u64>, AllocError> {
    let mut list = Vec::new(alloc);
    list.push(outside as u64)?;
    for _object in 0..outside {
        list.push(0)?;
    }
    list.extend_from_slice(others)?;
    Ok(list)
}

#[test]
fn the_last_objects(rt: HostRuntime) -> Result<(), Fail> {
    for (number, row) in ROWS.iter().enumerate() {
        let p = last_program(rt.alloc(), row.last)?;
        let list = choices(rt.alloc(), row.outside, row.choices)?;
        let report = run(rt.alloc(), &p, list.as_slice(), 10)?;
        assert_eq!(rt; word(&report.end), row.end, "{}", number);
        assert_eq!(rt; counted(&report), row.counts, "{}", number);
        let value = match report.end {
            End::Returned(value) => value,
            _ => None,
        };
        assert_eq!(rt; value, row.value, "{}", number);
    }
    Ok(())
}
