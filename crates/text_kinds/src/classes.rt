//! What operations are.

ghost use Rattle.std.specs.Prelude.{◌≡◌};
ghost use Rattle.text_kinds.specs.Classes.{is_function, is_unknown};

use text_scopes::Class;

pub fn is_function(class: Class) -> bool
    ensures { result ≡ is_function class }
{
    match class {
        Class::Function => true,
        _ => false,
    }
}

pub fn is_unknown(class: Class) -> bool
    ensures { result ≡ is_unknown class }
{
    match class {
        Class::Unknown => true,
        _ => false,
    }
}
