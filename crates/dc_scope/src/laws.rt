//! Laws over the definitions alone, each a call without effect whose clause states it.
ghost use Rattle.std.specs.Prelude.{◌≡◌, ℕ, List, None, Some, false};
ghost use Rattle.dc_scope.specs.declared.space.Space.{Space};
ghost use Rattle.dc_scope.specs.declared.space.Space.TheVariants.{Ordinary, Tag};
ghost use Rattle.dc_scope.specs.Declaring.{Declaration, behind};
ghost use Rattle.dc_scope.specs.Entities.{PlainEntity};
ghost use Rattle.dc_scope.specs.Scopes.{PlainScopes, entered, found, found_inner, left, with_name};
ghost use Rattle.dc_text.specs.Words.{same};

/// A name that is added to the innermost scope stands for its entity from then on, whatever the scopes around have. Every
/// other name, and every name of the other name space, stands for what it stood for (C11 6.2.1, 6.2.3).
pub fn one_name_is_added()
    ensures itself { (s : PlainScopes) (space : Space) (name : List ℕ) (e : PlainEntity) → found_inner s space name ≡ None → found (with_name s space name e) space name ≡ Some e }
    ensures others { (s : PlainScopes) (space : Space) (name other : List ℕ) (e : PlainEntity) → same other name ≡ false → found (with_name s space name e) space other ≡ found s space other }
    ensures tags { (s : PlainScopes) (name other : List ℕ) (e : PlainEntity) → found (with_name s Ordinary name e) Tag other ≡ found s Tag other }
    ensures ordinary { (s : PlainScopes) (name other : List ℕ) (e : PlainEntity) → found (with_name s Tag name e) Ordinary other ≡ found s Ordinary other }
{}

/// A scope that ends leaves the scopes as they were before it began, whatever was declared in it (C11 6.2.1).
pub fn scopes_end()
    ensures { (s : PlainScopes) (declarations : List Declaration) → left (behind declarations (entered s)) ≡ s }
{}
