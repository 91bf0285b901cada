// The values of quantifiers: when they are decided, and how many values they ask.
ghost use Rattle.std.specs.Prelude.{◌≡◌, ◌-ℤ◌, ◌++◌, ◌∷◌, [], nat_le};
ghost use Rattle.dc_core.specs.Term as plain;
ghost use Rattle.dc_core.specs.View.{term_view};
ghost use Rattle.dc_num.specs.Conversions.{natural};
ghost use Rattle.dc_goto.specs.Values.{settles as settles_it, term_value as value_of, turns as turns_of, undecided as says_undecided, turn_limit};
ghost use Rattle.dc_value.specs.Answers.{Answers};
ghost use Rattle.dc_value.specs.View.{surroundings_view};

use crate::no_value::NoValue;
use crate::operators::is_true;
use crate::surroundings::Surroundings;
use dc_core::{NumKind, Quantifier, Term};
use dc_num::{convert, truth};

// What a quantifier says where no value decides it.
pub(crate) fn undecided(quantifier: Quantifier) -> bool
    ensures { result ≡ says_undecided quantifier }
{
    match quantifier {
        Quantifier::ForAll => true,
        Quantifier::Exists => false,
    }
}

// Whether a test that held, or didn't, decides a quantifier.
pub(crate) fn settles(quantifier: Quantifier, held: bool) -> bool
    ensures { result ≡ settles_it quantifier held }
{
    match quantifier {
        Quantifier::ForAll => !held,
        Quantifier::Exists => held,
    }
}

// Whether the values from low on below high are not too many to be asked.
pub(crate) fn are_few(low: i128, high: i128) -> bool
    ensures { result ≡ nat_le (natural (high -ℤ low)) turn_limit }
{
    high <= low.saturating_add(16777216)
}

impl<'a> Surroundings<'a> {
    // The value of the body of a quantifier whose variable has this value.
    #[cycle(value)]
    fn value_at(
        &self,
        vars: &mut Vec<i128>,
        seen: &mut Vec<u64>,
        turn: i128,
        body: &Term,
    ) -> Result<i128, NoValue>
        ensures answer { Answers (value_of (surroundings_view self.now) (vars.old.items ++ turn ∷ []) (term_view body.now)) result seen.old.items seen.new.items }
        ensures kept { vars.new.items ≡ vars.old.items }
    {
        vars.try_reserve(1)?;
        vars.push_reserved(turn);
        let value = self.value(vars, seen, body);
        vars.pop();
        value
    }

    // The answer of a quantifier, whose variable has the values from low on below high, up to the first that decides.
    #[cycle(value)]
    fn turns(
        &self,
        vars: &mut Vec<i128>,
        seen: &mut Vec<u64>,
        quantifier: Quantifier,
        low: i128,
        high: i128,
        body: &Term,
    ) -> Result<i128, NoValue>
        ensures answer { Answers (turns_of quantifier (λ i. value_of (surroundings_view self.now) (vars.old.items ++ i ∷ []) (term_view body.now)) (natural (high -ℤ low)) low) result seen.old.items seen.new.items }
        ensures kept { vars.new.items ≡ vars.old.items }
    {
        for turn in low..high {
            let held = is_true(self.value_at(vars, seen, turn, body)?);
            if settles(quantifier, held) {
                return Ok(truth(held));
            }
        }
        Ok(truth(undecided(quantifier)))
    }

    // Whether all values of a kind from one on below another satisfy a test, or one does, whatever the nesting.
    #[inline(never)]
    #[cycle(value)]
    pub(crate) fn quantified(
        &self,
        vars: &mut Vec<i128>,
        seen: &mut Vec<u64>,
        quantifier: Quantifier,
        kind: NumKind,
        low: &Term,
        high: &Term,
        body: &Term,
    ) -> Result<i128, NoValue>
        ensures answer { Answers (value_of (surroundings_view self.now) vars.old.items (plain.Quantified quantifier 0 kind (term_view low.now) (term_view high.now) (term_view body.now))) result seen.old.items seen.new.items }
        ensures kept { vars.new.items ≡ vars.old.items }
    {
        let low = convert(kind, self.value(vars, seen, low)?);
        let high = convert(kind, self.value(vars, seen, high)?);
        if !are_few(low, high) {
            return Err(NoValue::Undefined);
        }
        self.turns(vars, seen, quantifier, low, high, body)
    }
}
