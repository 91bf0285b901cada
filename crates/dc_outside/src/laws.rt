//! Laws over what a sink was given. A caller calls one to have its clause at hand.
ghost use Rattle.std.specs.Prelude.{◌≡◌, ◌++◌, ℕ, List, [], Option};
ghost use Rattle.dc_outside.specs.Sink.{Adds, AddsPrefix};

/// A sink that stayed as it was has been given nothing.
pub fn adds_nothing()
    ensures { (held : Option (List ℕ)) → Adds held held [] }
{}

/// Two pieces that were given one after the other are the one behind the other.
pub fn adds_twice()
    ensures { (old mid new : Option (List ℕ)) (first second : List ℕ) → Adds old mid first → Adds mid new second → Adds old new (first ++ second) }
{}

/// A prefix of a piece, given behind all that stands before it in a text, makes a prefix of the text.
pub fn prefix_behind()
    ensures { (old mid new : Option (List ℕ)) (before piece after text : List ℕ) → text ≡ before ++ (piece ++ after) → Adds old mid before → AddsPrefix mid new piece → AddsPrefix old new text }
{}
