// A chooser over a list.
ghost use Rattle.std.specs.Prelude.{◌≡◌, Some, drop};

use crate::chooser::Chooser;
use dc_text::Choices;

/// A chooser that gives the numbers of a list in order, and tells them.
#[derive(Debug, Drop)]
pub struct ListChooser {
    list: Choices,
    at: usize,
    given: u128,
    dry: u128,
}

impl ListChooser {
    /// A chooser of these numbers. It takes no memory.
    pub fn new(list: Choices) -> ListChooser
        ensures left { ⟦<ListChooser as Chooser>⟧.left result ≡ Some list }
        ensures given { ⟦<ListChooser as Chooser>⟧.given result ≡ 0 }
        ensures dry { ⟦<ListChooser as Chooser>⟧.dry result ≡ 0 }
    {
        ListChooser {
            list,
            at: 0,
            given: 0,
            dry: 0,
        }
    }
}

impl Chooser for ListChooser {
    ghost left = { λ chooser. Some (drop chooser.at chooser.list) };

    ghost given = { λ chooser. chooser.given };

    ghost dry = { λ chooser. chooser.dry };

    fn next(&mut self) -> Option<u64> {
        match self.list.as_slice().get(self.at) {
            Some(number) => {
                self.at += 1;
                self.given = self.given.saturating_add(1);
                Some(*number)
            }
            None => {
                self.dry = self.dry.saturating_add(1);
                None
            }
        }
    }
}
