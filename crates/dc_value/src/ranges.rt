// What so many bytes behind a pointer are like.
ghost use Rattle.std.specs.Prelude.{◌≡◌, ◌&&◌, reverse};
ghost use Rattle.dc_memory.specs.Context.{is_among};
ghost use Rattle.dc_memory.specs.Places.{is_inside};
ghost use Rattle.dc_writeset.specs.Sets.{innermost};
ghost use Rattle.dc_goto.specs.Values.{is_new as is_new_object, is_no_function, is_unseen as is_unseen_range, points_to, seen_if, tested as tested_range};
ghost use Rattle.dc_value.specs.Answers.{Answers};
ghost use Rattle.dc_value.specs.View.{surroundings_view};

use crate::no_value::NoValue;
use crate::objects::{live_kind, points_to_data};
use crate::surroundings::Surroundings;
use dc_core::RangeTest;
use dc_memory::{ObjKind, Store, object_number};
use dc_num::truth;

// Whether the object is one of those that were seen.
fn is_seen(seen: &[u64], object: u64) -> bool
    ensures { result ≡ is_among object (reverse seen.now) }
{
    for listed in seen {
        if *listed == object {
            return true;
        }
    }
    false
}

// Whether so many bytes are in a live object of the heap or a stack, which nothing has seen.
fn is_unseen(memory: &Store, pointer: u64, len: u64, seen: &[u64]) -> bool
    ensures { result ≡ is_unseen_range memory.now pointer len (reverse seen.now) }
{
    matches!(
        live_kind(memory, pointer),
        Some(ObjKind::Heap | ObjKind::Stack)
    ) && memory.inside(pointer, len)
        && !is_seen(seen, object_number(pointer))
}

// Whether so many bytes are in a live object that isn't a function.
fn is_accessible(memory: &Store, pointer: u64, len: u64) -> bool
    ensures { result ≡ (points_to is_no_function memory.now pointer && is_inside memory.now pointer len) }
{
    points_to_data(memory, pointer) && memory.inside(pointer, len)
}

// The answer to a test, which sees the object where it holds.
fn see_if(holds: bool, object: u64, seen: &mut Vec<u64>) -> Result<i128, NoValue>
    ensures { Answers (seen_if holds object) result seen.old.items seen.new.items }
{
    if holds {
        seen.try_reserve(1)?;
        seen.push_reserved(object);
    }
    Ok(truth(holds))
}

impl<'a> Surroundings<'a> {
    // Whether the object came behind the mark of the innermost set.
    fn is_new(&self, object: u64) -> bool
        ensures { result ≡ is_new_object (innermost (surroundings_view self.now).sets.sets) object }
    {
        match self.sets.mark() {
            None => false,
            Some(mark) => mark < object,
        }
    }

    // Whether so many bytes behind a pointer are what is asked. An object is seen where it passes as fresh or new.
    pub(crate) fn tested(
        &self,
        seen: &mut Vec<u64>,
        test: RangeTest,
        pointer: u64,
        len: u64,
    ) -> Result<i128, NoValue>
        ensures { Answers (tested_range test (surroundings_view self.now).memory (surroundings_view self.now).sets pointer len) result seen.old.items seen.new.items }
    {
        let object = object_number(pointer);
        match test {
            RangeTest::Accessible => Ok(truth(is_accessible(self.memory, pointer, len))),
            RangeTest::Fresh => {
                let fresh = is_unseen(self.memory, pointer, len, seen);
                see_if(fresh, object, seen)
            }
            RangeTest::New => {
                let fresh = self.is_new(object) && is_unseen(self.memory, pointer, len, seen);
                see_if(fresh, object, seen)
            }
        }
    }
}
