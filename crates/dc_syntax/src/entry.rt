// A declared name.
ghost use Rattle.std.specs.Prelude.{◌≡◌};

use dc_text::Name;
use std::marker::Model;

/// A declared name, and whether it is a typedef.
#[derive(Debug, Drop)]
pub struct Entry {
    name: Name,
    is_type: bool,
}

impl Model for Entry {
    ghost use Rattle.dc_syntax.specs.Names as names;

    ghost Value = { names.Entry };

    ghost view = { λ e. record { name = e.name; is_type = e.is_type } };
}

impl Entry {
    /// A name that is a typedef, or not.
    pub fn new(name: Name, is_type: bool) -> Entry
        ensures { result ≡ record { name = name; is_type = is_type } }
    {
        Entry { name, is_type }
    }
}
