// Runs.
ghost use Rattle.std.specs.Prelude.{◌≡◌, ◌≤◌, [], map, length, true, IfOk, IfSome, OnErr};
ghost use Rattle.dc_core.specs.Event.{ChoicesEnded};
ghost use Rattle.dc_core.specs.Program as plain;
ghost use Rattle.dc_core.specs.Run.{contract_run, plain_report};
ghost use Rattle.dc_core.specs.View.{function_view, program_view};
ghost use Rattle.dc_core.specs.Whole.{Says};
ghost use Rattle.dc_program.specs.ProgramView.{program_view as whole_view};
ghost use Rattle.dc_choice.specs.Chosen.{Used};
ghost use Rattle.dc_choice.specs.Heard.{hears_all};
ghost use Rattle.dc_text.specs.Counted.{all_counted, no_counts, raised};
ghost use Rattle.dc_world.specs.Log.{hearing};
ghost use Rattle.dc_world.specs.Report.{end_view};
ghost use Rattle.dc_world.specs.Reported.{IsCutShort, IsReport, dry_at};
ghost use Rattle.dc_world.specs.Told.{supply, spoken};
ghost use Rattle.dc_run.specs.Entry.{admitted_if, admitted};
ghost use Rattle.dc_run.specs.Part.{IsPart};
ghost use Rattle.dc_run.specs.Report.{IsRun};
ghost use Rattle.dc_run.specs.View.{state_view};

use crate::clause::{all_hold, target_set};
use crate::entry::{Entry, draw_entry};
use crate::state::{Flow, State};
use crate::value::Scope;
use dc_choice::{Chooser, Watch};
use dc_core::{assigned, function, required};
use dc_program::{Function, Program};
use dc_text::Choices;
use dc_world::{End, Log, RunReport};
use std::alloc::{AllocError, Global};

impl State {
    // The call with its ensures.
    fn call_and_ensure<W: Watch>(
        &mut self,
        alloc: Global,
        f: &Function,
        arguments: &[i128],
        watch: &mut W,
        log: &mut Log,
    ) -> Result<Flow, AllocError>
        requires { length self.old.memory ≤ 65535 }
        ensures { IsPart (λ choices. admitted_if (function_view f.now) arguments.now (state_view self.old choices) true) (state_view self.new) result
            (hearing (W.records watch.old) (W.parts watch.old) log.old)
            (hearing (W.records watch.new) (W.parts watch.new) log.new) }
    {
        let scope = Scope::Clause(arguments, None);
        let set = target_set(alloc, &scope, &self.memory, assigned(f))?;
        let flow = self.call(alloc, f, &set, arguments, watch, log)?;
        self.ensure(alloc, f, arguments, &flow, watch, log)?;
        Ok(flow)
    }

    // The call with its ensures, where what it requires holds.
    fn admit<W: Watch>(
        &mut self,
        alloc: Global,
        f: &Function,
        arguments: &[i128],
        watch: &mut W,
        log: &mut Log,
    ) -> Result<Flow, AllocError>
        requires { length self.old.memory ≤ 65535 }
        ensures { IsPart (λ choices. admitted (function_view f.now) arguments.now (state_view self.old choices)) (state_view self.new) result
            (hearing (W.records watch.old) (W.parts watch.old) log.old)
            (hearing (W.records watch.new) (W.parts watch.new) log.new) }
    {
        let scope = Scope::Clause(arguments, None);
        if !all_hold(&scope, &self.memory, required(f)) {
            return Ok(Flow::Ended(End::Blocked));
        }
        self.call_and_ensure(alloc, f, arguments, watch, log)
    }
}

// The run of a program with its function, up to its end.
fn run_to_end<C: Chooser, W: Watch>(
    alloc: Global,
    p: &Program,
    f: &Function,
    steps: u64,
    chooser: &mut C,
    used: &mut Vec<u64>,
    watch: &mut W,
    log: &mut Log,
) -> Result<End, AllocError>
    requires function { (program_view p.now).function ≡ function_view f.now }
    requires few { length p.now.1.0 ≤ 65534 }
    ensures { IsRun (contract_run (program_view p.now) steps) result
        (supply (C.left chooser.old) (C.given chooser.old) (C.dry chooser.old) used.old.items)
        (supply (C.left chooser.new) (C.given chooser.new) (C.dry chooser.new) used.new.items)
        (hearing (W.records watch.old) (W.parts watch.old) log.old)
        (hearing (W.records watch.new) (W.parts watch.new) log.new) }
{
    if steps == 0 {
        return Ok(End::Cut);
    }
    let Some(entry) = draw_entry(alloc, p, chooser, used, watch, log)? else {
        return Ok(End::ChoicesEnded);
    };
    let Entry { memory, arguments } = entry;
    let mut state = State {
        memory,
        locals: Vec::new(alloc),
        left: steps - 1,
    };
    let flow = state.admit(alloc, f, arguments.as_slice(), watch, log)?;
    Ok(flow.end())
}

// The run of a program, up to its end. One without a function is cut.
fn run_function<C: Chooser, W: Watch>(
    alloc: Global,
    p: &Program,
    steps: u64,
    chooser: &mut C,
    used: &mut Vec<u64>,
    watch: &mut W,
    log: &mut Log,
) -> Result<End, AllocError>
    ensures run { (q : plain.Program) → Says q (whole_view p.now) → IsRun (contract_run q steps) result
        (supply (C.left chooser.old) (C.given chooser.old) (C.dry chooser.old) used.old.items)
        (supply (C.left chooser.new) (C.given chooser.new) (C.dry chooser.new) used.new.items)
        (hearing (W.records watch.old) (W.parts watch.old) log.old)
        (hearing (W.records watch.new) (W.parts watch.new) log.new) }
    ensures parts { W.parts watch.new ≡ W.parts watch.old }
{
    match function(p) {
        None => Ok(End::Cut),
        Some(f) => run_to_end(alloc, p, f, steps, chooser, used, watch, log),
    }
}

// The report of a program's run.
fn run_program<C: Chooser, W: Watch>(
    alloc: Global,
    p: &Program,
    chooser: &mut C,
    watch: &mut W,
    steps: u64,
) -> Result<RunReport, AllocError>
    ensures report { (q : plain.Program) → Says q (whole_view p.now) → IfOk result (λ r. IsReport (contract_run q steps) r (C.left chooser.old) (C.left chooser.new) (C.given chooser.old) (C.given chooser.new) (C.dry chooser.old) (C.dry chooser.new) (W.records watch.old) (W.records watch.new)) }
    ensures parts { W.parts watch.new ≡ W.parts watch.old }
    ensures refused { (q : plain.Program) → Says q (whole_view p.now) → OnErr result (IsCutShort (contract_run q steps) (C.left chooser.old) (C.left chooser.new) (W.records watch.old) (W.records watch.new)) }
{
    let mut used = Vec::new(alloc);
    let mut log = Log::new(alloc);
    let end = run_function(alloc, p, steps, chooser, &mut used, watch, &mut log)?;
    let Log { counts, failed } = log;
    Ok(RunReport {
        failed,
        end,
        used: Choices::of(used),
        counts,
    })
}

/// Runs a program of the first form with its contract for at most that many steps, on the numbers that a chooser gives,
/// and tells a watch what happens.
///
/// The memory and the arguments are drawn. Where a `requires` clause doesn't hold the run is blocked; else the function
/// is called, and its body runs statement by statement, as C11 6.8 and 6.9.1 say. A write that no target of the `assigns`
/// clause allows fails the write's name, and after a return each `ensures` clause that doesn't hold fails its own, as the
/// manual of CBMC's code contracts says. The call with its clauses is a step, and so is each statement.
///
/// The report is the run on the numbers that it took; where the chooser tells the numbers to come, the run on all of them
/// is the same. The call takes memory. The room for a number is taken before the number, so that none is lost where memory
/// is wanting: then the watch has heard the first events of the run on those that were taken.
pub fn run_contract<C: Chooser, W: Watch>(
    alloc: Global,
    p: &Program,
    chooser: &mut C,
    watch: &mut W,
    steps: u64,
) -> Result<RunReport, AllocError>
    ensures failed { (q : plain.Program) → Says q (whole_view p.now) → IfOk result (λ r. r.failed ≡ (contract_run q steps r.used).names) }
    ensures end { (q : plain.Program) → Says q (whole_view p.now) → IfOk result (λ r. end_view r.end ≡ (contract_run q steps r.used).end) }
    ensures length { (q : plain.Program) → Says q (whole_view p.now) → IfOk result (λ r. length r.used ≡ (contract_run q steps r.used).used) }
    ensures counts { (q : plain.Program) → Says q (whole_view p.now) → IfOk result (λ r. r.counts ≡ all_counted (map spoken (contract_run q steps r.used).events) no_counts) }
    ensures whole { (q : plain.Program) → Says q (whole_view p.now) → IfOk result (λ r. IfSome (C.left chooser.old) (λ list. contract_run q steps list ≡ contract_run q steps r.used)) }
    ensures used { (q : plain.Program) → Says q (whole_view p.now) → IfOk result (λ r. Used (C.left chooser.old) (C.left chooser.new) r.used) }
    ensures given { (q : plain.Program) → Says q (whole_view p.now) → IfOk result (λ r. C.given chooser.new ≡ raised (C.given chooser.old) (length r.used)) }
    ensures dry { (q : plain.Program) → Says q (whole_view p.now) → IfOk result (λ r. C.dry chooser.new ≡ raised (C.dry chooser.old) (dry_at (end_view r.end))) }
    ensures ended { (q : plain.Program) → Says q (whole_view p.now) → IfOk result (λ r. end_view r.end ≡ ChoicesEnded → IfSome (C.left chooser.new) (λ rest. rest ≡ [])) }
    ensures heard { (q : plain.Program) → Says q (whole_view p.now) → IfOk result (λ r. W.records watch.new ≡ map (hears_all (map spoken (contract_run q steps r.used).events)) (W.records watch.old)) }
    ensures parts { W.parts watch.new ≡ W.parts watch.old }
    ensures refused { (q : plain.Program) → Says q (whole_view p.now) → OnErr result (IsCutShort (contract_run q steps) (C.left chooser.old) (C.left chooser.new) (W.records watch.old) (W.records watch.new)) }
{
    run_program(alloc, p, chooser, watch, steps)
}

/// Runs a program of the first form as it stands for at most that many steps, on the numbers that a chooser gives, tells a
/// watch what happens, and judges the run by the contract afterwards.
///
/// The memory and the arguments are drawn, and the body of the function runs statement by statement, as C11 6.8 and 6.9.1
/// say. The names of the report are the clauses that the run broke, by the manual of CBMC's code contracts: the writes
/// that no target of the `assigns` clause allows, and the `ensures` clauses that don't hold at the return. A run that
/// doesn't meet the `requires` clauses is blocked. The plain run so judged is the contract run, so this is one run and not
/// two.
///
/// The call takes memory, and leaves a chooser and a watch as [`run_contract`] does, after a refusal too.
pub fn run_plain<C: Chooser, W: Watch>(
    alloc: Global,
    p: &Program,
    chooser: &mut C,
    watch: &mut W,
    steps: u64,
) -> Result<RunReport, AllocError>
    ensures failed { (q : plain.Program) → Says q (whole_view p.now) → IfOk result (λ r. r.failed ≡ (plain_report q steps r.used).names) }
    ensures end { (q : plain.Program) → Says q (whole_view p.now) → IfOk result (λ r. end_view r.end ≡ (plain_report q steps r.used).end) }
    ensures length { (q : plain.Program) → Says q (whole_view p.now) → IfOk result (λ r. length r.used ≡ (plain_report q steps r.used).used) }
    ensures counts { (q : plain.Program) → Says q (whole_view p.now) → IfOk result (λ r. r.counts ≡ all_counted (map spoken (plain_report q steps r.used).events) no_counts) }
    ensures whole { (q : plain.Program) → Says q (whole_view p.now) → IfOk result (λ r. IfSome (C.left chooser.old) (λ list. plain_report q steps list ≡ plain_report q steps r.used)) }
    ensures used { (q : plain.Program) → Says q (whole_view p.now) → IfOk result (λ r. Used (C.left chooser.old) (C.left chooser.new) r.used) }
    ensures given { (q : plain.Program) → Says q (whole_view p.now) → IfOk result (λ r. C.given chooser.new ≡ raised (C.given chooser.old) (length r.used)) }
    ensures dry { (q : plain.Program) → Says q (whole_view p.now) → IfOk result (λ r. C.dry chooser.new ≡ raised (C.dry chooser.old) (dry_at (end_view r.end))) }
    ensures ended { (q : plain.Program) → Says q (whole_view p.now) → IfOk result (λ r. end_view r.end ≡ ChoicesEnded → IfSome (C.left chooser.new) (λ rest. rest ≡ [])) }
    ensures heard { (q : plain.Program) → Says q (whole_view p.now) → IfOk result (λ r. W.records watch.new ≡ map (hears_all (map spoken (plain_report q steps r.used).events)) (W.records watch.old)) }
    ensures parts { W.parts watch.new ≡ W.parts watch.old }
    ensures refused { (q : plain.Program) → Says q (whole_view p.now) → OnErr result (IsCutShort (plain_report q steps) (C.left chooser.old) (C.left chooser.new) (W.records watch.old) (W.records watch.new)) }
{
    run_program(alloc, p, chooser, watch, steps)
}
