// Lines of a text.
ghost use Rattle.std.specs.Prelude.{◌≡◌, ◌++◌, ◌∷◌, ℕ, IfOk, IsErrOf, OnOk, None, codes, map, []};
ghost use Rattle.dc_text.specs.Words.{is_word};
ghost use Rattle.dc_goto.specs.Lines.{AreLines, FirstFormless, Instruction, Version, is_body_name};
ghost use Rattle.dc_goto.specs.Reading.{function_line, got, literal, opening_line, read_form as form_read, read_instr as instr_read, read_kind, read_line as line_read, read_list, read_name, read_number, read_one, read_three, read_two, read_word, result_of, static_line_of, then_read};
ghost use Rattle.dc_scan.specs.View.{line_view};
ghost use Rattle.dc_scan.specs.declared.fault.Scan.TheVariants.{Line as LineFault, Shape as ShapeFault};
ghost use Rattle.dc_scan.specs.declared.form.Form.TheVariants.{NoForm};

use crate::cursor::Cursor;
use crate::fault::Scan;
use crate::form::Form;
use crate::instructions::read_instr;
use crate::pieces::{expect_word, next_body_name, next_name, next_number, next_result};
use crate::sequence::followed;
use crate::signatures::read_params;
use dc_core::Name;
use dc_goto::{Instr, Sig, StaticVar};
use std::alloc::{AllocError, Global};

/// The first line of a body: its name, and the numbers of its parameters and registers.
#[derive(Drop)]
pub struct BodyHead {
    pub name: Name,
    pub params: u64,
    pub regs: u64,
}

/// What a line says.
#[derive(Drop)]
pub enum Line {
    /// The version, which stands first.
    Version,
    /// A function.
    Function(Sig),
    /// A variable of file scope.
    Static(StaticVar),
    /// A body begins.
    Opening(BodyHead),
    /// An instruction of the body.
    Instruction(Instr),
    /// The body ends.
    End,
}

// The version, behind its first word.
fn read_version(cursor: &mut Cursor) -> Result<Line, Form>
    ensures found { IfOk result (λ line. read_one (read_word (literal (codes "1"))) (λ one. Version) cursor.old ≡ got (line_view line) cursor.new) }
    ensures none { IsErrOf result NoForm → read_one (read_word (literal (codes "1"))) (λ one. Version) cursor.old ≡ None }
{
    expect_word(cursor, b"1")?;
    Ok(Line::Version)
}

// A function, behind its first word.
fn read_function(alloc: Global, cursor: &mut Cursor) -> Result<Line, Form>
    ensures found { IfOk result (λ line. read_list (read_name is_word) (read_word result_of) read_kind function_line cursor.old ≡ got (line_view line) cursor.new) }
    ensures none { IsErrOf result NoForm → read_list (read_name is_word) (read_word result_of) read_kind function_line cursor.old ≡ None }
{
    let name = next_name(alloc, cursor)?;
    let result = next_result(cursor)?;
    let params = read_params(alloc, cursor)?;
    Ok(Line::Function(Sig {
        name,
        result,
        params,
    }))
}

// A variable, behind its first word.
fn read_static(alloc: Global, cursor: &mut Cursor) -> Result<Line, Form>
    ensures found { IfOk result (λ line. read_two (read_name is_word) read_number static_line_of cursor.old ≡ got (line_view line) cursor.new) }
    ensures none { IsErrOf result NoForm → read_two (read_name is_word) read_number static_line_of cursor.old ≡ None }
{
    let name = next_name(alloc, cursor)?;
    let size = next_number(cursor)?;
    Ok(Line::Static(StaticVar { name, size }))
}

// The first line of a body, behind its first word.
fn read_opening(alloc: Global, cursor: &mut Cursor) -> Result<Line, Form>
    ensures found { IfOk result (λ line. read_three (read_name is_body_name) read_number read_number opening_line cursor.old ≡ got (line_view line) cursor.new) }
    ensures none { IsErrOf result NoForm → read_three (read_name is_body_name) read_number read_number opening_line cursor.old ≡ None }
{
    let name = next_body_name(alloc, cursor)?;
    let params = next_number(cursor)?;
    let regs = next_number(cursor)?;
    Ok(Line::Opening(BodyHead { name, params, regs }))
}

// An instruction's line, behind its first word.
fn read_instruction(alloc: Global, word: &[u8], cursor: &mut Cursor) -> Result<Line, Form>
    ensures found { IfOk result (λ line. then_read (instr_read word.now cursor.old) (λ i. got (Instruction i)) ≡ got (line_view line) cursor.new) }
    ensures none { IsErrOf result NoForm → then_read (instr_read word.now cursor.old) (λ i. got (Instruction i)) ≡ None }
{
    let instr = read_instr(alloc, word, cursor)?;
    Ok(Line::Instruction(instr))
}

// What a line says, behind its first word.
fn read_form(alloc: Global, word: &[u8], cursor: &mut Cursor) -> Result<Line, Form>
    ensures found { IfOk result (λ line. form_read word.now cursor.old ≡ got (line_view line) cursor.new) }
    ensures none { IsErrOf result NoForm → form_read word.now cursor.old ≡ None }
{
    if word == b"dcc".as_slice() {
        read_version(cursor)
    } else if word == b"function".as_slice() {
        read_function(alloc, cursor)
    } else if word == b"static".as_slice() {
        read_static(alloc, cursor)
    } else if word == b"body".as_slice() {
        read_opening(alloc, cursor)
    } else if word == b"end".as_slice() {
        Ok(Line::End)
    } else {
        read_instruction(alloc, word, cursor)
    }
}

// A line form with its newline.
fn read_line(alloc: Global, cursor: &mut Cursor) -> Result<Line, Form>
    ensures found { IfOk result (λ line. line_read cursor.old ≡ got (line_view line) cursor.new) }
    ensures none { IsErrOf result NoForm → line_read cursor.old ≡ None }
{
    let word = cursor.word();
    let line = read_form(alloc, word, cursor)?;
    followed(line, cursor.expect(b'\n'))
}

// One more line behind the others.
fn push_line(lines: &mut Vec<Line>, line: Line) -> Result<(), AllocError>
    ensures ok { OnOk result (lines.new.items ≡ lines.old.items ++ line ∷ []) }
{
    lines.push(line)?;
    Ok(())
}

/// The lines of the text, if each is a line form. Otherwise the number of the first that isn't one, counted from 1.
pub fn read_lines(alloc: Global, bytes: &[u8]) -> Result<Vec<Line>, Scan>
    ensures found { IfOk result (λ lines. AreLines bytes.now (map line_view lines.items)) }
    ensures formless { (k : ℕ) → IsErrOf result (LineFault k) → FirstFormless bytes.now k }
    ensures no_shape { (k : ℕ) → IsErrOf result (ShapeFault k) → ⊥ }
{
    let mut lines = Vec::new(alloc);
    let mut cursor = Cursor::new(bytes);
    'each: while !cursor.is_empty() {
        match read_line(alloc, &mut cursor) {
            Ok(line) => push_line(&mut lines, line)?,
            Err(Form::NoForm) => return Err(Scan::Line(lines.len() as u64 + 1)),
            Err(Form::Memory(error)) => return Err(Scan::Memory(error)),
        }
    }
    Ok(lines)
}
