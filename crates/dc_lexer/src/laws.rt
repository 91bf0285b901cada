//! Laws over the definitions alone, each a call without effect whose clause states it.
ghost use Rattle.std.specs.Prelude.{◌≡◌, ℕ, List};
ghost use Rattle.dc_lexer.specs.Pieces.{AreTokens, IsStuck, Stuck, Token};

/// A source has one list of tokens, or its reading stops at one place, and not both.
pub fn one_cut()
    ensures one_list { (bytes : List ℕ) (t u : List Token) → AreTokens bytes t → AreTokens bytes u → t ≡ u }
    ensures one_stop { (bytes : List ℕ) (s r : Stuck) → IsStuck bytes s → IsStuck bytes r → s ≡ r }
    ensures not_both { (bytes : List ℕ) (t : List Token) (s : Stuck) → AreTokens bytes t → IsStuck bytes s → ⊥ }
{}
