// The lines of a goto program.
ghost use Rattle.std.specs.Prelude.{◌≡◌, ◌++◌, [], ◌∷◌, IfOk, OnOk, map, flat_map, codes};
ghost use Rattle.std.specs.Fmt.{decimal};
ghost use Rattle.dc_goto.specs.View.{instr_view, sig_view, static_view, body_view, goto_view};
ghost use Rattle.dc_goto.specs.Text.{spaced, instr_line, sig_line, static_line, body_lines, lines_of, line_bytes};

use crate::instructions::put_instr;
use crate::words::{put_kinds, put_result, put_spaced, put_spaced_decimal};
use dc_goto::{Body, GotoProgram, Instr, Sig, StaticVar};
use sqlite_items::Items;
use std::alloc::{AllocError, Global};

/// Lines, each with its newline.
pub type Lines = Items<Items<u8>>;

// One more line, from its bytes without the newline.
fn put_line(lines: &mut Lines, line: Vec<u8>) -> Result<(), AllocError>
    ensures ok { OnOk result (lines.new ≡ lines.old ++ line_bytes line.items ∷ []) }
{
    let mut line = line;
    line.push(b'\n')?;
    lines.push(Items::from_vec(line))
}

// The line of a function.
fn sig_bytes(alloc: Global, sig: &Sig) -> Result<Vec<u8>, AllocError>
    ensures { IfOk result (λ line. line.items ≡ sig_line (sig_view sig.now)) }
{
    let mut line = Vec::from_slice(alloc, b"function")?;
    put_spaced(&mut line, sig.name.as_slice())?;
    put_result(&mut line, &sig.result)?;
    put_kinds(&mut line, sig.params.as_slice())?;
    Ok(line)
}

// The line of a variable.
fn static_bytes(alloc: Global, var: &StaticVar) -> Result<Vec<u8>, AllocError>
    ensures { IfOk result (λ line. line.items ≡ static_line (static_view var.now)) }
{
    let mut line = Vec::from_slice(alloc, b"static")?;
    put_spaced(&mut line, var.name.as_slice())?;
    put_spaced_decimal(alloc, &mut line, var.size)?;
    Ok(line)
}

// The line of an instruction.
fn instr_bytes(alloc: Global, instr: &Instr) -> Result<Vec<u8>, AllocError>
    ensures { IfOk result (λ line. line.items ≡ instr_line (instr_view instr.now)) }
{
    let mut line = Vec::new(alloc);
    put_instr(alloc, &mut line, instr)?;
    Ok(line)
}

// The first line of a body.
fn head_bytes(alloc: Global, body: &Body) -> Result<Vec<u8>, AllocError>
    ensures { IfOk result (λ line. line.items ≡ codes "body" ++ spaced (body.now.name ∷ decimal body.now.params ∷ decimal body.now.regs ∷ [])) }
{
    let mut line = Vec::from_slice(alloc, b"body")?;
    put_spaced(&mut line, body.name.as_slice())?;
    put_spaced_decimal(alloc, &mut line, body.params)?;
    put_spaced_decimal(alloc, &mut line, body.regs)?;
    Ok(line)
}

// A line for each function.
fn put_sigs(alloc: Global, lines: &mut Lines, sigs: &[Sig]) -> Result<(), AllocError>
    ensures ok { OnOk result (lines.new ≡ lines.old ++ map line_bytes (map sig_line (map sig_view sigs.now))) }
{
    for sig in sigs {
        put_line(lines, sig_bytes(alloc, sig)?)?;
    }
    Ok(())
}

// A line for each variable.
fn put_statics(alloc: Global, lines: &mut Lines, vars: &[StaticVar]) -> Result<(), AllocError>
    ensures ok { OnOk result (lines.new ≡ lines.old ++ map line_bytes (map static_line (map static_view vars.now))) }
{
    for var in vars {
        put_line(lines, static_bytes(alloc, var)?)?;
    }
    Ok(())
}

// A line for each instruction.
fn put_code(alloc: Global, lines: &mut Lines, code: &[Instr]) -> Result<(), AllocError>
    ensures ok { OnOk result (lines.new ≡ lines.old ++ map line_bytes (map instr_line (map instr_view code.now))) }
{
    for instr in code {
        put_line(lines, instr_bytes(alloc, instr)?)?;
    }
    Ok(())
}

// The lines of a body.
fn put_body(alloc: Global, lines: &mut Lines, body: &Body) -> Result<(), AllocError>
    ensures ok { OnOk result (lines.new ≡ lines.old ++ map line_bytes (body_lines (body_view body.now))) }
{
    put_line(lines, head_bytes(alloc, body)?)?;
    put_code(alloc, lines, body.code.as_slice())?;
    put_line(lines, Vec::from_slice(alloc, b"end")?)
}

// The lines of all bodies.
fn put_bodies(alloc: Global, lines: &mut Lines, bodies: &[Body]) -> Result<(), AllocError>
    ensures ok { OnOk result (lines.new ≡ lines.old ++ map line_bytes (flat_map body_lines (map body_view bodies.now))) }
{
    for body in bodies {
        put_body(alloc, lines, body)?;
    }
    Ok(())
}

/// The lines of the program's text. It fails only where memory is refused.
pub fn text_lines(alloc: Global, p: &GotoProgram) -> Result<Lines, AllocError>
    ensures { IfOk result (λ lines. lines ≡ map line_bytes (lines_of (goto_view p.now))) }
{
    let mut lines = Items::new(alloc);
    put_line(&mut lines, Vec::from_slice(alloc, b"dcc 1")?)?;
    put_sigs(alloc, &mut lines, p.functions.as_slice())?;
    put_statics(alloc, &mut lines, p.statics.as_slice())?;
    put_bodies(alloc, &mut lines, p.bodies.as_slice())?;
    Ok(lines)
}
