//! The printed texts of types and attributes. Where memory is wanting, a `put_..` leaves the text as
//! it was.
#![tactic(auto)]

mod grow;
mod laws;
mod print_attr;
mod print_name;
mod print_type;

pub use laws::{law_texts_of_attrs, law_texts_of_types};
pub use print_attr::{attr_text, put_attr, put_dict};
pub use print_name::{put_name, put_string};
pub use print_type::{is_function, put_type, put_types, type_text};
