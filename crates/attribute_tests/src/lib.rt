//! Rule `Attribute`, in code: the properties of an operation and their forms.
#![tactic(auto)]

mod forms;
mod properties;

pub use properties::attributes_fit;
