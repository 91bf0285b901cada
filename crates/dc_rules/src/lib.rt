//! The types that expressions have by the types of their parts, the rules that they break, and integer constants.
#![tactic(auto)]

mod arithmetic;
mod constants;
mod equality;
mod formed;
mod judged;
mod numbers;
mod operators;
mod parts;
mod pointers;
mod types;
mod values;

pub use constants::{integer_constant, is_constant_zero, is_null};
pub use equality::{alike, same};
pub use formed::{is_parameter, is_result, is_type};
pub use judged::{Refused, answered};
pub use numbers::{truth_type, unary_type};
pub use operators::binary_type;
pub use parts::{
    called_type, deref_type, index_type, member_type, parameters_of, result_of, sizeof_type,
    through_type,
};
pub use pointers::{alike_targets, sum_type};
pub use types::{
    bare, decayed, is_complete, is_const, is_function, is_number, is_object_pointer, is_pointer,
    is_pointer_type, is_scalar, is_sized, is_void, is_void_pointer, is_within_limit, number,
    number_kind, pointee, qualified, qualified_if, struct_of, value_kind,
};
pub use values::{arms_type, is_assignable, is_cast};
