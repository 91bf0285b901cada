// What a pointer or its object is like.
ghost use Rattle.std.specs.Prelude.{◌≡◌};
ghost use Rattle.dc_goto.specs.Values.{property as property_of};
ghost use Rattle.dc_value.specs.View.{surroundings_view};

use crate::objects::{is_heap_start, size_of_target, start, where_live};
use crate::surroundings::Surroundings;
use dc_core::Property;
use dc_memory::{object_number, offset};
use dc_num::truth;

impl<'a> Surroundings<'a> {
    // What a pointer or its object is like: the start, the size and the offset only where the object lives.
    pub(crate) fn property(&self, property: Property, pointer: u64) -> Option<i128>
        ensures { result ≡ property_of property (surroundings_view self.now).memory (surroundings_view self.now).sets pointer }
    {
        match property {
            Property::Start => where_live(self.memory, pointer, start(object_number(pointer))),
            Property::Size => where_live(
                self.memory,
                pointer,
                size_of_target(self.memory, pointer) as i128,
            ),
            Property::Offset => where_live(self.memory, pointer, offset(pointer) as i128),
            Property::Freeable => {
                Some(truth(pointer == 0 || is_heap_start(self.memory, pointer)))
            }
            Property::Freed => Some(truth(self.sets.was_freed(object_number(pointer)))),
        }
    }
}
