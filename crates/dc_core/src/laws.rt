//! Laws over the definitions alone, each a call without effect whose clause states it.
ghost use Rattle.std.specs.Prelude.{◌≡◌, ◌++◌, ℕ, ℤ, List};
ghost use Rattle.dc_core.specs.Entry.{entry};
ghost use Rattle.dc_memory.specs.Objects.{Memory};
ghost use Rattle.dc_core.specs.Outcome.{Outcome, IsRun, Tracks, IsExact};
ghost use Rattle.dc_core.specs.Program.{Program};
ghost use Rattle.dc_core.specs.Run.{contract_run, plain_report};
ghost use Rattle.dc_core.specs.WellFormed.{IsWellFormed, AreValues, entry_choices, Gives};
ghost use Rattle.dc_num.specs.declared.kind.NumKind.{NumKind};

/// Where the target follows the source, and goes on as a run does, the two say the same, both ways.
pub fn tracked_runs_are_exact()
    ensures { (source target : ℕ → List ℕ → Outcome) → IsRun target → Tracks source target → IsExact source target }
{}

/// Where nothing is replaced, what is seen of the contract run is the report of the plain run, whose broken clauses are
/// judged afterwards: the names, the events, the end, the count of choices and the memory.
pub fn enforcement_is_the_plain_run()
    ensures { (p : Program) (n : ℕ) (choices : List ℕ) → contract_run p n choices ≡ plain_report p n choices }
{}

/// Each well-formed memory with any arguments is the entry of some list of choices, and of that list with any more behind
/// it, which are then left.
pub fn well_formed_memories_are_entries()
    ensures { (functions : ℕ) (sizes : List ℕ) (kinds : List NumKind) (memory : Memory) (arguments : List ℤ) (w : IsWellFormed functions sizes memory) → AreValues kinds arguments → (more : List ℕ) → Gives (entry functions sizes kinds (entry_choices w.statics w.outside kinds arguments ++ more)) (record { memory = memory; arguments = arguments }) more }
{}
