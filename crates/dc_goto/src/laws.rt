//! Laws over the definitions alone, each a call without effect whose clause states it.
ghost use Rattle.std.specs.Prelude.{◌≡◌, ℕ, List};
ghost use Rattle.std.specs.List.{AllByRecursion};
ghost use Rattle.dc_core.specs.Outcome.{IsRun};
ghost use Rattle.dc_goto.specs.Lines.{FirstFormless, IsForm, forms_of};
ghost use Rattle.dc_goto.specs.Machine.{goto_run};
ghost use Rattle.dc_goto.specs.Program.{GotoProgram};
ghost use Rattle.dc_goto.specs.Shape.{IsGotoText, Misshapen};
ghost use Rattle.dc_goto.specs.Text.{IsSpelt};

/// More steps go on with a machine's run, and one that has ended stays as it is.
pub fn machine_goes_on()
    ensures { (p : GotoProgram) → IsRun (goto_run p) }
{}

/// A text spells one program, of those whose lines are line forms, and a program has one text.
pub fn one_spelling()
    ensures one_program { (bytes : List ℕ) (p q : GotoProgram) → AllByRecursion IsForm (forms_of p) → AllByRecursion IsForm (forms_of q) → IsSpelt bytes p → IsSpelt bytes q → p ≡ q }
    ensures one_text { (x y : List ℕ) (p : GotoProgram) → IsSpelt x p → IsSpelt y p → x ≡ y }
{}

/// The text of a shaped program has no line without a form, and none that breaks a rule.
pub fn text_has_no_fault()
    ensures formed { (bytes : List ℕ) (p : GotoProgram) (k : ℕ) → IsGotoText bytes p → FirstFormless bytes k → ⊥ }
    ensures shaped { (bytes : List ℕ) (p : GotoProgram) (k : ℕ) → IsGotoText bytes p → Misshapen bytes k → ⊥ }
{}
