//! Laws over the definitions alone, each a call without effect whose clause states it.
ghost use Rattle.std.specs.Prelude.{◌≡◌, [], ◌∷◌, ◌++◌, ℕ, List, Option, None, Some, IfSome, map};
ghost use Rattle.dc_text.specs.declared.event.Event.{Event};
ghost use Rattle.dc_text.specs.Counted.{all_counted, no_counts};
ghost use Rattle.dc_choice.specs.Chosen.{Takes, Used};
ghost use Rattle.dc_choice.specs.Heard.{Record, hears, hears_all, told};

/// Numbers that were taken one after another were used in this order. Once none came, none is left where they are told.
pub fn uses_add_up()
    ensures none { (left : Option (List ℕ)) → Used left left [] }
    ensures number { (before between after : Option (List ℕ)) (numbers : List ℕ) (number : ℕ) →
        Used before between numbers → Takes between after (Some number) → Used before after (numbers ++ number ∷ []) }
    ensures dry { (before between after : Option (List ℕ)) (numbers : List ℕ) →
        Used before between numbers → Takes between after None → Used before after numbers }
    ensures ended { (before after : Option (List ℕ)) → Takes before after None → IfSome before (λ rest. rest ≡ []) × IfSome after (λ rest. rest ≡ []) }
    ensures sum { (before between after : Option (List ℕ)) (first second : List ℕ) →
        Used before between first → Used between after second → Used before after (first ++ second) }
{}

/// Records that heard events one after another heard the list of them.
pub fn hearings_add_up()
    ensures none { (records : List Record) → map (hears_all []) records ≡ records }
    ensures event { (events : List Event) (event : Event) (records : List Record) →
        map (hears event) (map (hears_all events) records) ≡ map (hears_all (events ++ event ∷ [])) records }
    ensures sum { (first second : List Event) (records : List Record) →
        map (hears_all second) (map (hears_all first) records) ≡ map (hears_all (first ++ second)) records }
{}

/// In a record that heard events one after another each count rose by theirs, and the first events that had room were
/// kept.
pub fn hearings_are_told()
    ensures one { (events : List Event) (held : Record) → hears_all events held ≡ told (all_counted events no_counts) events held }
    ensures each { (events : List Event) (records : List Record) →
        map (hears_all events) records ≡ map (told (all_counted events no_counts) events) records }
{}
