// The rules for the lines of a text.
ghost use Rattle.std.specs.Prelude.{◌≡◌, ◌++◌, [], IfOk, OnOk, drop, length, map, None, Some};
ghost use Rattle.std.specs.Option.{option_map};
ghost use Rattle.dc_goto.specs.Shape.{first_misshapen as misshapen, code_front, function_in, goes_on as instr_goes_on, is_behind as behind_is, is_end as end_is, is_start as start_is, may_act_in as acts_in, may_follow as follows, may_name as names_rule, may_open as opens, name_in, params_of as params_in, sig_of};
ghost use Rattle.dc_goto.specs.View.{instr_view};
ghost use Rattle.dc_scan.specs.Judging.{IsNewIn, count_behind, head_behind, keeps_among, may_say_among, whole_among};
ghost use Rattle.dc_scan.specs.View.{head_view, line_view};

use crate::functions::Functions;
use crate::lines::{BodyHead, Line};
use crate::rules::{leaves, may_act};
use crate::term_rules::is_size;
use dc_core::Name;
use dc_goto::Instr;
use dc_names::Names;
use sqlite_items::at;
use std::alloc::{AllocError, Global};

// Functions and variables together are at most that many.
const NAMES_LIMIT: usize = 32767;

// What stands before a line: the functions, the names of functions and variables, the last body, how many instructions that
// has, and the line in front.
#[derive(Drop)]
struct Front<'a> {
    functions: Functions<'a>,
    names: Names<'a>,
    head: Option<&'a BodyHead>,
    count: u64,
    line: Option<&'a Line>,
}

// How many instructions stand in lines from a place on, before any other line.
fn code_from(lines: &[Line], from: usize) -> u64
    ensures { result ≡ code_front (drop from (map line_view lines.now)) }
{
    let mut end = from;
    'each: while goes_on(at(lines, end)) {
        end += 1;
    }
    (end - from) as u64
}

impl<'a> Front<'a> {
    // Before these lines.
    fn new(alloc: Global, lines: &[Line]) -> Front<'a>
        ensures functions { result.functions ≡ [] }
        ensures names { result.names ≡ [] }
        ensures head { result.head ≡ None }
        ensures count { result.count ≡ code_front (drop 0 (map line_view lines.now)) }
        ensures line { result.line ≡ None }
    {
        Front {
            functions: Functions::new(alloc),
            names: Names::new(alloc),
            head: None,
            count: code_from(lines, 0),
            line: None,
        }
    }

    // Behind one more line, with those from the next place on behind it.
    fn push(&mut self, line: &'a Line, lines: &[Line], next: usize) -> Result<(), AllocError>
        requires { IsNewIn self.old.functions self.old.names (line_view line.now) }
        ensures functions { OnOk result (self.new.functions ≡ self.old.functions ++ function_in (line_view line.now)) }
        ensures names { OnOk result (self.new.names ≡ self.old.names ++ name_in (line_view line.now)) }
        ensures head { OnOk result (option_map (λ head. head_view head.now) self.new.head ≡ head_behind (option_map (λ head. head_view head.now) self.old.head) (line_view line.now)) }
        ensures count { OnOk result (self.new.count ≡ count_behind self.old.count (line_view line.now) (drop next (map line_view lines.now))) }
        ensures line { OnOk result (option_map (λ line. line_view line.now) self.new.line ≡ Some (line_view line.now)) }
    {
        self.line = Some(line);
        if !matches!(line, Line::Instruction(_)) {
            self.count = code_from(lines, next);
        }
        match line {
            Line::Function(sig) => {
                self.functions.push(sig)?;
                self.names.push(sig.name.as_slice())?;
                Ok(())
            }
            Line::Static(var) => {
                self.names.push(var.name.as_slice())?;
                Ok(())
            }
            Line::Opening(head) => {
                self.head = Some(head);
                Ok(())
            }
            Line::Version | Line::Instruction(_) | Line::End => Ok(()),
        }
    }

    // Whether nothing is missing behind the last line.
    fn is_whole(&self) -> bool
        ensures { result ≡ whole_among (option_map (λ head. head_view head.now) self.now.head) (option_map (λ line. line_view line.now) self.now.line) }
    {
        is_end(self.line) && is_start(self.head)
    }
}

// Whether the line may stand directly behind the other, or first.
fn may_follow(before: Option<&Line>, line: &Line) -> bool
    ensures { result ≡ follows (option_map (λ line. line_view line.now) before.entry) (line_view line.now) }
{
    let Some(before) = before else {
        return matches!(line, Line::Version);
    };
    match before {
        Line::Version => matches!(line, Line::Function(_) | Line::Static(_) | Line::Opening(_)),
        Line::Function(_) => matches!(line, Line::Function(_) | Line::Static(_) | Line::Opening(_)),
        Line::Static(_) => matches!(line, Line::Static(_) | Line::Opening(_)),
        Line::Opening(_) => matches!(line, Line::Instruction(_)),
        Line::Instruction(_) => matches!(line, Line::Instruction(_) | Line::End),
        Line::End => matches!(line, Line::Opening(_)),
    }
}

// Whether another instruction stands there.
fn goes_on(line: Option<&Line>) -> bool
    ensures { result ≡ instr_goes_on (option_map (λ line. line_view line.now) line.entry) }
{
    match line {
        Some(line) => matches!(line, Line::Instruction(_)),
        None => false,
    }
}

// Whether this is the end of a body.
fn is_end(line: Option<&Line>) -> bool
    ensures { result ≡ end_is (option_map (λ line. line_view line.now) line.entry) }
{
    match line {
        Some(line) => matches!(line, Line::End),
        None => false,
    }
}

// Whether this is the start's body.
fn is_start(head: Option<&BodyHead>) -> bool
    ensures { result ≡ start_is (option_map (λ head. head_view head.now) head.entry) }
{
    match head {
        Some(head) => head.name.is(b".start"),
        None => false,
    }
}

// Whether the place is behind that of the last body.
fn is_behind<'a>(functions: &Functions<'a>, head: Option<&'a BodyHead>, place: usize) -> bool
    ensures { result ≡ behind_is functions.now (option_map (λ head. head_view head.now) head.entry) place }
{
    match head {
        Some(head) => functions.place(head.name.as_slice()) < place,
        None => true,
    }
}

// How many parameters the function of that name has; the start has none.
fn params_of<'a>(functions: &Functions<'a>, name: &[u8]) -> usize
    ensures { result ≡ params_in (sig_of functions.now name.now) }
{
    match functions.find(name) {
        Some(sig) => sig.params.len(),
        None => 0,
    }
}

// Whether a body may begin.
fn may_open<'a>(functions: &Functions<'a>, before: Option<&'a BodyHead>, head: &'a BodyHead) -> bool
    ensures { result ≡ opens functions.now (option_map (λ head. head_view head.now) before.entry) (head_view head.now) }
{
    let name = head.name.as_slice();
    let place = functions.place(name);
    (place < functions.len() || head.name.is(b".start"))
        && is_behind(functions, before, place)
        && head.params == params_of(functions, name) as u64
        && head.params <= head.regs
}

// Whether a function or a variable may have the name.
#[tactic(auto, unfolding(dc_goto::specs::Shape::names_limit))]
fn may_name<'a>(names: &Names<'a>, name: &'a Name) -> bool
    ensures { result ≡ names_rule names.now name.now }
{
    !names.has(name.as_slice()) && names.len() < NAMES_LIMIT
}

// Whether an instruction keeps the rules in the last body.
fn may_act_in<'a>(front: &Front<'a>, instr: &'a Instr) -> bool
    ensures { result ≡ acts_in front.now.functions (length front.now.names) (option_map (λ head. head_view head.now) front.now.head) front.now.count (instr_view instr.now) }
{
    match front.head {
        Some(head) => may_act(
            &front.functions,
            front.names.len() as u64,
            head,
            front.count,
            instr,
        ),
        None => false,
    }
}

// Whether a line may say that, between what stands before it and the line behind it.
fn may_say<'a>(front: &Front<'a>, line: &'a Line, next: Option<&'a Line>) -> bool
    ensures { result ≡ may_say_among front.now.functions front.now.names (option_map (λ head. head_view head.now) front.now.head) front.now.count (line_view line.now) (option_map (λ line. line_view line.now) next.entry) }
{
    match line {
        Line::Version => true,
        Line::Function(sig) => may_name(&front.names, &sig.name),
        Line::Static(var) => may_name(&front.names, &var.name) && is_size(var.size),
        Line::Opening(head) => may_open(&front.functions, front.head, head),
        Line::Instruction(instr) => { may_act_in(front, instr) && (leaves(instr) || goes_on(next)) }
        Line::End => true,
    }
}

// Whether a line keeps the rules, between what stands before it and the line behind it.
fn keeps<'a>(front: &Front<'a>, line: &'a Line, next: Option<&'a Line>) -> bool
    ensures { result ≡ keeps_among front.now.functions front.now.names (option_map (λ head. head_view head.now) front.now.head) front.now.count (option_map (λ line. line_view line.now) front.now.line) (line_view line.now) (option_map (λ line. line_view line.now) next.entry) }
{
    may_follow(front.line, line) && may_say(front, line, next)
}

/// The number, counted from 1, of the first line that breaks a rule, or one past the last where something is missing.
pub fn first_misshapen(alloc: Global, lines: &[Line]) -> Result<Option<u64>, AllocError>
    ensures { IfOk result (λ number. number ≡ misshapen (map line_view lines.now)) }
{
    let mut front = Front::new(alloc, lines);
    for (i, line) in lines.iter().enumerate() {
        if !keeps(&front, line, at(lines, i + 1)) {
            return Ok(Some(i as u64 + 1));
        }
        front.push(line, lines, i + 1)?;
    }
    if front.is_whole() {
        Ok(None)
    } else {
        Ok(Some(lines.len() as u64 + 1))
    }
}
