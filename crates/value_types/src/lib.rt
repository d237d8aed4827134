//! What the rules of the verifier ask of types: of one type, of types in order, and the types of a function's values.
#![tactic(auto)]

mod kinds;
mod table;
mod together;

pub use kinds::{
    dims_of, dynamic_count, is_bit, is_index, is_integer, is_memref, is_number, is_own, is_pointer,
    is_value, may_be_dims, same,
};
pub use table::{ValueTypes, types_of};
pub use together::{all_index, all_own, all_value, borrowed, own_in, same_all, same_as, value_in};
