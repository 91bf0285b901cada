//! Laws over the definitions alone. A caller calls one to have its clause at hand.
ghost use Rattle.std.specs.List.{AllByRecursion};
ghost use Rattle.dc_core.specs.Outcome.{IsExact};
ghost use Rattle.dc_core.specs.Program.{Program};
ghost use Rattle.dc_core.specs.Run.{contract_run};
ghost use Rattle.dc_core.specs.Sound.{IsSound};
ghost use Rattle.dc_goto.specs.Lines.{IsForm, forms_of};
ghost use Rattle.dc_goto.specs.Machine.{goto_run};
ghost use Rattle.dc_goto.specs.Shape.{IsShaped};
ghost use Rattle.dc_instrument.specs.Lowering.{goto_of};
ghost use Rattle.dc_instrument.specs.Writable.{IsWritable};

/// The goto program that a program is lowered to is exact for it: on each list of choices it fails exactly the clauses
/// that the program's contract run breaks.
pub fn lowered_is_exact()
    ensures { (p : Program) → IsSound p → IsExact (contract_run p) (goto_run (goto_of p)) }
{}

/// The goto program of a program that may be run and written has line forms that keep the rules for goto texts.
pub fn lowered_can_be_written()
    ensures formed { (p : Program) → IsSound p → IsWritable p → AllByRecursion IsForm (forms_of (goto_of p)) }
    ensures shaped { (p : Program) → IsSound p → IsWritable p → IsShaped (goto_of p) }
{}
