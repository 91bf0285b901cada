// Where an expression stands.
ghost use Rattle.std.specs.Prelude.{◌≡◌};
ghost use Rattle.dc_form.specs.Read.Whole.{is_valued as is_valued_at};

/// Where an expression stands: in the body, or in a clause, where the result may stand or not.
#[derive(Clone, Copy)]
pub enum Text {
    Body,
    Clause(bool),
}

impl Text {
    /// Whether the result may stand there.
    pub fn is_valued(&self) -> bool
        ensures { result ≡ is_valued_at self.now }
    {
        match self {
            Text::Body => false,
            Text::Clause(valued) => *valued,
        }
    }
}
