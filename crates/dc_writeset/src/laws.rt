//! Laws over the definitions alone, each a call without effect whose clause states it.
ghost use Rattle.std.specs.Prelude.{◌≡◌, ℕ, true, List, ◌∷◌, Contains};
ghost use Rattle.dc_memory.specs.Context.{contains};
ghost use Rattle.dc_writeset.specs.Sets.{PlainSet, TaggedObject, TaggedRange, innermost, is_free_allowed, is_inside_below, is_write_allowed};

/// Where what has a tag in the innermost set is allowed by the next one, so is each write within one of these ranges, and
/// so is the free of each of these objects.
pub fn inside_is_allowed()
    ensures writes { (set : PlainSet) (sets : List PlainSet) (r : TaggedRange) (object from len : ℕ) → is_inside_below (set ∷ sets) r.tag ≡ true → Contains set.ranges r →
        contains r.range object from len ≡ true → is_write_allowed (innermost sets) object from len ≡ true }
    ensures frees { (set : PlainSet) (sets : List PlainSet) (f : TaggedObject) → is_inside_below (set ∷ sets) f.tag ≡ true → Contains set.frees f →
        is_free_allowed (innermost sets) f.object ≡ true }
{}
