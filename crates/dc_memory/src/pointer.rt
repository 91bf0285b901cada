// Pointers as numbers: the number of an object times 2^48, and an offset.
ghost use Rattle.std.specs.Prelude.{◌≡◌, ◌/◌, ◌%◌, ◌<◌, ◌^◌};
ghost use Rattle.dc_memory.specs.Places.{object_of, offset_of};

/// The number of the object that a pointer points into.
#[tactic(auto, unfolding(crate::specs::Places::object_of))]
pub fn object_number(pointer: u64) -> u64
    ensures { result ≡ object_of pointer }
{
    pointer / 281474976710656
}

/// The offset in its object that a pointer has, below 2^48.
#[tactic(auto, unfolding(crate::specs::Places::offset_of))]
pub fn offset(pointer: u64) -> u64
    ensures value { result ≡ offset_of pointer }
    ensures below { result < 2 ^ 48 }
{
    pointer % 281474976710656
}
