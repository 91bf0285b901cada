// The functions of a program, by their names.
ghost use Rattle.std.specs.Prelude.{◌≡◌, ◌++◌, [], ◌∷◌, length, map, OnOk, false};
ghost use Rattle.std.specs.List.{list_any};
ghost use Rattle.std.specs.Option.{option_map};
ghost use Rattle.dc_text.specs.Words.{same};
ghost use Rattle.dc_goto.specs.Shape.{place_of, sig_of};
ghost use Rattle.dc_goto.specs.View.{sig_view};

use dc_goto::Sig;
use dc_names::Names;
use std::alloc::{AllocError, Global};
use std::marker::Model;

/// Functions in their order, found by their names without a walk through all of them.
#[derive(Drop)]
pub struct Functions<'a> {
    names: Names<'a>,
    sigs: Vec<&'a Sig>,
}

impl<'a> Model for Functions<'a> {
    ghost use Rattle.std.specs.Prelude.{List, map, ◌≡◌};
    ghost use Rattle.dc_goto.specs.Program as plain;
    ghost use Rattle.dc_goto.specs.View.{sig_view};

    ghost Value = { List plain.Sig };

    ghost view = { λ functions. map (λ sig. sig_view sig.now) functions.sigs.items };

    ghost invariant = { λ functions. functions.names ≡ map (λ sig. sig.now.name) functions.sigs.items };
}

impl<'a> Functions<'a> {
    pub fn new(alloc: Global) -> Functions<'a>
        ensures { result ≡ [] }
    {
        Functions {
            names: Names::new(alloc),
            sigs: Vec::new(alloc),
        }
    }

    pub fn len(&self) -> usize
        ensures { result ≡ length self.now }
    {
        self.sigs.len()
    }

    /// The place of the name in the order of the functions, which is behind them all for a name that isn't theirs.
    pub fn place(&self, name: &[u8]) -> usize
        ensures { result ≡ place_of self.now name.now }
    {
        match self.names.find(name) {
            Some(place) => place,
            None => self.sigs.len(),
        }
    }

    /// The function of that name.
    pub fn find(&self, name: &[u8]) -> Option<&'a Sig>
        ensures { option_map (λ sig. sig_view sig.now) result ≡ sig_of self.now name.now }
    {
        let place = self.place(name);
        match self.sigs.get(place) {
            Some(sig) => Some(*sig),
            None => None,
        }
    }

    /// One more function behind the others, with another name.
    pub fn push(&mut self, sig: &'a Sig) -> Result<(), AllocError>
        requires { list_any (same sig.now.name) (map (λ f. f.name) self.old) ≡ false }
        ensures { OnOk result (self.new ≡ self.old ++ sig_view sig.now ∷ []) }
    {
        self.sigs.reserve(1)?;
        self.names.push(sig.name.as_slice())?;
        self.sigs.push(sig)?;
        Ok(())
    }
}
