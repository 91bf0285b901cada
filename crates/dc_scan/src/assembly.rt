// A program from its lines.
ghost use Rattle.std.specs.Prelude.{◌≡◌, IfOk, OnOk, map};
ghost use Rattle.dc_goto.specs.View.{goto_view};
ghost use Rattle.dc_scan.specs.Assembling.{added, added_all, closed, none_added, program_of};
ghost use Rattle.dc_scan.specs.View.{assembly_view, line_view};

use crate::lines::{BodyHead, Line};
use dc_goto::{Body, GotoProgram, Instr, Sig, StaticVar};
use sqlite_items::Items;
use std::alloc::{AllocError, Global};
use std::mem::replace;

// What the lines so far make: functions, variables, whole bodies, and the head and code of a body that isn't whole yet.
#[derive(Drop)]
struct Assembly {
    functions: Items<Sig>,
    statics: Items<StaticVar>,
    bodies: Items<Body>,
    head: Option<BodyHead>,
    code: Items<Instr>,
}

impl Assembly {
    // Before the first line.
    fn new(alloc: Global) -> Assembly
        ensures { assembly_view result ≡ none_added }
    {
        Assembly {
            functions: Items::new(alloc),
            statics: Items::new(alloc),
            bodies: Items::new(alloc),
            head: None,
            code: Items::new(alloc),
        }
    }

    // Ends the body.
    fn close(&mut self, alloc: Global) -> Result<(), AllocError>
        ensures { OnOk result (assembly_view self.new ≡ closed (assembly_view self.old)) }
    {
        let Some(head) = replace(&mut self.head, None) else {
            return Ok(());
        };
        let BodyHead { name, params, regs } = head;
        let code = replace(&mut self.code, Items::new(alloc));
        self.bodies.push(Body {
            name,
            params,
            regs,
            code,
        })
    }

    // Adds one more line.
    fn add(&mut self, alloc: Global, line: Line) -> Result<(), AllocError>
        ensures { OnOk result (assembly_view self.new ≡ added (assembly_view self.old) (line_view line)) }
    {
        match line {
            Line::Version => Ok(()),
            Line::Function(sig) => self.functions.push(sig),
            Line::Static(var) => self.statics.push(var),
            Line::Opening(head) => {
                self.head = Some(head);
                Ok(())
            }
            Line::Instruction(instr) => self.code.push(instr),
            Line::End => self.close(alloc),
        }
    }
}

/// The program whose lines these are, where they keep the rules.
pub fn assemble(alloc: Global, lines: Vec<Line>) -> Result<GotoProgram, AllocError>
    ensures { IfOk result (λ p. goto_view p ≡ program_of (added_all none_added (map line_view lines.items))) }
{
    let mut assembly = Assembly::new(alloc);
    for line in lines {
        assembly.add(alloc, line)?;
    }
    let Assembly {
        functions,
        statics,
        bodies,
        ..
    } = assembly;
    Ok(GotoProgram {
        functions,
        statics,
        bodies,
    })
}
