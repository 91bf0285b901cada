//! Laws over the definitions alone, each a call without effect whose clause states it.
ghost use Rattle.std.specs.Prelude.{◌≡◌, ℕ, ◌≤◌, List, []};
ghost use Rattle.dc_syntax.specs.Tokens.{Token};
ghost use Rattle.dc_syntax.specs.Names.{Names};
ghost use Rattle.dc_syntax.specs.Trees.{Tree, IsExpression, sort_of, level_of};
ghost use Rattle.dc_syntax.specs.Grammar.{Is};
ghost use Rattle.dc_syntax.specs.Parts.{Part, height_of};
ghost use Rattle.dc_syntax.specs.Reading.{Found};
ghost use Rattle.dc_syntax.specs.ReadingUnits.{reads_unit};
ghost use Rattle.dc_syntax.specs.Units.{SpellsUnit};

/// Tokens spell at most one expression.
pub fn one_expression()
    ensures { (env : Names) (ts : List Token) (a b : Tree) → Is env a ts → Is env b ts → sort_of a ≡ IsExpression → sort_of b ≡ IsExpression → level_of a ≤ 16 → level_of b ≤ 16 → a ≡ b }
{}

/// Tokens spell at most one unit.
pub fn one_unit()
    ensures { (ts : List Token) (a b : Part) → SpellsUnit ts a → SpellsUnit ts b → a ≡ b }
{}

/// What is read with a budget of height is the unit that the tokens spell, and one that is no higher is found.
pub fn units_are_read()
    ensures found { (h : ℕ) (ts : List Token) (a : Part) → SpellsUnit ts a → height_of a ≤ h → reads_unit h ts ≡ Found a [] }
    ensures spelled { (h : ℕ) (ts : List Token) (a : Part) (rest : List Token) → reads_unit h ts ≡ Found a rest → SpellsUnit ts a }
    ensures low { (h : ℕ) (ts : List Token) (a : Part) (rest : List Token) → reads_unit h ts ≡ Found a rest → height_of a ≤ h }
{}
