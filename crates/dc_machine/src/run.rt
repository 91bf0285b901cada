// Runs.
ghost use Rattle.std.specs.Prelude.{◌≡◌, ◌++◌, [], ℕ, List, map, length, codes, IfOk, IfSome, OnErr};
ghost use Rattle.dc_core.specs.Event.{ChoicesEnded};
ghost use Rattle.dc_goto.specs.Machine.{steps as plain_steps, start, go_on, Going, goto_run};
ghost use Rattle.dc_goto.specs.Program as goto;
ghost use Rattle.dc_goto.specs.View.{goto_view};
ghost use Rattle.dc_machine.specs.Linked.{linked_view, IsLinked};
ghost use Rattle.dc_machine.specs.Step.{IsRun};
ghost use Rattle.dc_machine.specs.View.{machine_view};
ghost use Rattle.dc_choice.specs.Chosen.{Used};
ghost use Rattle.dc_choice.specs.Heard.{hears_all};
ghost use Rattle.dc_text.specs.Counted.{all_counted, no_counts, raised};
ghost use Rattle.dc_world.specs.Log.{hearing};
ghost use Rattle.dc_world.specs.Report.{end_view};
ghost use Rattle.dc_world.specs.Reported.{IsCutShort, IsReport, dry_at};
ghost use Rattle.dc_world.specs.Told.{supply, spoken};

use crate::machine::Machine;
use crate::program::Linked;
use dc_choice::{Chooser, Watch};
use dc_goto::GotoProgram;
use dc_text::{Choices, Name};
use dc_world::{End, Log, RunReport};
use sqlite_items::at;
use std::alloc::{AllocError, Global};

impl Machine {
    // At most that many steps.
    fn run<C: Chooser, W: Watch>(
        &mut self,
        alloc: Global,
        p: &Linked,
        steps: u64,
        chooser: &mut C,
        used: &mut Vec<u64>,
        watch: &mut W,
        log: &mut Log,
    ) -> Result<End, AllocError>
        requires { IsLinked p.now }
        ensures { IsRun (λ choices. go_on (Going [] (machine_view (linked_view p.now).bodies self.old choices)) (plain_steps (linked_view p.now) steps)) result
            (supply (C.left chooser.old) (C.given chooser.old) (C.dry chooser.old) used.old.items)
            (supply (C.left chooser.new) (C.given chooser.new) (C.dry chooser.new) used.new.items)
            (hearing (W.records watch.old) (W.parts watch.old) log.old)
            (hearing (W.records watch.new) (W.parts watch.new) log.new) }
    {
        for _step in 0..steps {
            let end = self.step(alloc, p, chooser, used, watch, log)?;
            if let Some(end) = end {
                return Ok(end);
            }
        }
        Ok(End::Cut)
    }
}

// The end of a run without a start.
fn no_start(alloc: Global) -> Result<End, AllocError>
    ensures { IfOk result (λ end. end ≡ End.NoBody (codes ".start")) }
{
    let name = Name::copied(alloc, b".start")?;
    Ok(End::NoBody(name))
}

// The run of a program from its start.
fn run_linked<C: Chooser, W: Watch>(
    alloc: Global,
    p: &Linked,
    steps: u64,
    chooser: &mut C,
    used: &mut Vec<u64>,
    watch: &mut W,
    log: &mut Log,
) -> Result<End, AllocError>
    requires { IsLinked p.now }
    ensures { IsRun (λ choices. go_on (start (linked_view p.now) choices) (plain_steps (linked_view p.now) steps)) result
        (supply (C.left chooser.old) (C.given chooser.old) (C.dry chooser.old) used.old.items)
        (supply (C.left chooser.new) (C.given chooser.new) (C.dry chooser.new) used.new.items)
        (hearing (W.records watch.old) (W.parts watch.old) log.old)
        (hearing (W.records watch.new) (W.parts watch.new) log.new) }
{
    let Some(number) = p.bodies.find(b".start") else {
        return no_start(alloc);
    };
    let Some(body) = at(p.goto.bodies.as_slice(), number) else {
        return no_start(alloc);
    };
    let mut machine = Machine::start(alloc, p, number, body)?;
    machine.run(alloc, p, steps, chooser, used, watch, log)
}

// The report of a program's run.
fn run_program<C: Chooser, W: Watch>(
    alloc: Global,
    p: &Linked,
    chooser: &mut C,
    watch: &mut W,
    steps: u64,
) -> Result<RunReport, AllocError>
    requires { IsLinked p.now }
    ensures report { (q : goto.GotoProgram) → linked_view p.now ≡ q →
        IfOk result (λ r. IsReport (goto_run q steps) r (C.left chooser.old) (C.left chooser.new) (C.given chooser.old) (C.given chooser.new) (C.dry chooser.old) (C.dry chooser.new) (W.records watch.old) (W.records watch.new)) }
    ensures parts { W.parts watch.new ≡ W.parts watch.old }
    ensures refused { (q : goto.GotoProgram) → linked_view p.now ≡ q →
        OnErr result (IsCutShort (goto_run q steps) (C.left chooser.old) (C.left chooser.new) (W.records watch.old) (W.records watch.new)) }
{
    let mut used = Vec::new(alloc);
    let mut log = Log::new(alloc);
    let end = run_linked(alloc, p, steps, chooser, &mut used, watch, &mut log)?;
    let Log { counts, failed } = log;
    Ok(RunReport {
        failed,
        end,
        used: Choices::of(used),
        counts,
    })
}

/// Runs a program for at most that many steps, on the numbers that a chooser gives, and tells a watch what happens.
///
/// The report is the run on the numbers that it took; where the chooser tells the numbers to come, the run on all of them
/// is the same. The room for a number is taken before the number, so that none is lost where memory is wanting: then the
/// watch has heard the first events of the run on those that were taken. An object of more than 16,777,216 bytes, and more
/// than 65,535 functions and variables, count as want of memory.
pub fn run_goto<C: Chooser, W: Watch>(
    alloc: Global,
    p: &GotoProgram,
    chooser: &mut C,
    watch: &mut W,
    steps: u64,
) -> Result<RunReport, AllocError>
    ensures failed { IfOk result (λ r. r.failed ≡ (goto_run (goto_view p.now) steps r.used).names) }
    ensures end { IfOk result (λ r. end_view r.end ≡ (goto_run (goto_view p.now) steps r.used).end) }
    ensures length { IfOk result (λ r. length r.used ≡ (goto_run (goto_view p.now) steps r.used).used) }
    ensures counts { IfOk result (λ r. r.counts ≡ all_counted (map spoken (goto_run (goto_view p.now) steps r.used).events) no_counts) }
    ensures whole { IfOk result (λ r. IfSome (C.left chooser.old) (λ list. goto_run (goto_view p.now) steps list ≡ goto_run (goto_view p.now) steps r.used)) }
    ensures used { IfOk result (λ r. Used (C.left chooser.old) (C.left chooser.new) r.used) }
    ensures given { IfOk result (λ r. C.given chooser.new ≡ raised (C.given chooser.old) (length r.used)) }
    ensures dry { IfOk result (λ r. C.dry chooser.new ≡ raised (C.dry chooser.old) (dry_at (end_view r.end))) }
    ensures ended { IfOk result (λ r. end_view r.end ≡ ChoicesEnded → IfSome (C.left chooser.new) (λ rest. rest ≡ [])) }
    ensures heard { IfOk result (λ r. W.records watch.new ≡ map (hears_all (map spoken (goto_run (goto_view p.now) steps r.used).events)) (W.records watch.old)) }
    ensures parts { W.parts watch.new ≡ W.parts watch.old }
    ensures refused { OnErr result (IsCutShort (goto_run (goto_view p.now) steps) (C.left chooser.old) (C.left chooser.new) (W.records watch.old) (W.records watch.new)) }
{
    let p = Linked::new(alloc, p)?;
    run_program(alloc, &p, chooser, watch, steps)
}
