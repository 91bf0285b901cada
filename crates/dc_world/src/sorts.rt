// The sorts that objects are drawn of.
ghost use Rattle.std.specs.Prelude.{◌≡◌, ◌<◌, ℕ};
ghost use Rattle.dc_core.specs.Entry.{live_object};
ghost use Rattle.dc_world.specs.Sorts.{count_of, object_of};
ghost use Rattle.dc_world.specs.View.{kind_view};

use crate::fresh::Storage;

// Dead ones of the heap and of a stack, and live ones: of outside objects of both, of new objects of the heap alone.
#[derive(Clone, Copy)]
pub(crate) enum Sorts {
    Outside,
    New,
}

impl Sorts {
    // How many there are.
    pub(crate) fn count(self) -> u128
        ensures { result ≡ count_of self }
    {
        match self {
            Sorts::Outside => 4,
            Sorts::New => 3,
        }
    }

    // What a live object is of this sort.
    pub(crate) fn live_storage(self, sort: u64) -> Storage
        requires { 1 < sort }
        ensures { (number : ℕ) → object_of self number sort ≡ live_object number (kind_view result) }
    {
        match self {
            Sorts::Outside => {
                if sort > 2 {
                    Storage::Stack
                } else {
                    Storage::Heap
                }
            }
            Sorts::New => Storage::Heap,
        }
    }
}
