// Where an expression stands.
ghost use Rattle.std.specs.Prelude.{◌≡◌};
ghost use Rattle.dc_typing.specs.Spots.{holds_effect, holds_call, site_at, right_side};

use dc_program::Location;

/// Where an expression stands in the whole one.
#[derive(Clone, Copy, Debug)]
pub enum Spot {
    /// It is the whole, and its site has this number.
    Whole(u64),
    /// It is the right side of the `=` that is the whole, whose site this is.
    Assigned(Location),
    /// It stands inside.
    Inside,
}

impl Spot {
    /// Whether an assignment, a step or a cast to void may stand here.
    pub fn holds_effect(self) -> bool
        ensures { result ≡ holds_effect self }
    {
        matches!(self, Spot::Whole(_))
    }

    /// Whether a call may stand here.
    pub fn holds_call(self) -> bool
        ensures { result ≡ holds_call self }
    {
        !matches!(self, Spot::Inside)
    }

    /// The site of a phrase whose first token stands in this line. A call that is assigned has the assignment's.
    pub fn site_at(self, line: u64) -> Location
        ensures { result ≡ site_at self line }
    {
        match self {
            Spot::Whole(number) => Location { number, line },
            Spot::Assigned(location) => location,
            Spot::Inside => Location { number: 0, line },
        }
    }

    /// Where the right side of the `=` of a phrase stands.
    pub fn right_side(self, line: u64) -> Spot
        ensures { result ≡ right_side self line }
    {
        match self {
            Spot::Whole(number) => Spot::Assigned(Location { number, line }),
            Spot::Assigned(_) | Spot::Inside => Spot::Inside,
        }
    }
}
