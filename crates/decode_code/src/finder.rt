//! Finding functions by their names.

ghost use Rattle.std.specs.Prelude.{◌≡◌, IfOk};
ghost use Rattle.std.specs.Option.{option_copied, option_map};
ghost use Rattle.run_code.specs.Views.{function_of, functions_of};
ghost use Rattle.form_model.specs.Codes.{find_function};
ghost use Rattle.decode_code.specs.Finding.{Stands};

use run_code::Function;
use std::alloc::Global;
use std::collections::HashMap;
use tree_model::NoMemory;

/// Functions in order, and the first one of each name, so that a look-up takes no scan.
#[derive(Drop)]
pub struct Finder<'a> {
    pub functions: &'a [Function],
    pub by_name: HashMap<&'a [u8], &'a Function>,
}

/// A table of these functions.
pub fn finder_of<'a>(alloc: Global, functions: &'a [Function]) -> Result<Finder<'a>, NoMemory>
    ensures stands { IfOk result (λ f. Stands f.by_name f.functions.now) }
    ensures functions { IfOk result (λ f. f.functions.now ≡ functions.now) }
{
    let mut by_name = HashMap::new(alloc);
    for k in 0..functions.len() {
        let function = &functions[functions.len() - 1 - k];
        by_name.insert(function.name.as_slice(), function)?;
    }
    Ok(Finder { functions, by_name })
}

impl<'a> Finder<'a> {
    /// The first function of this name.
    pub fn find(&self, name: &[u8]) -> Option<&'a Function>
        requires { Stands self.now.by_name self.now.functions.now }
        ensures { option_map function_of (option_copied result) ≡ find_function name.now (functions_of self.now.functions.now) }
    {
        self.by_name.get(name).copied()
    }
}
