//! The functions of a module, and finding one by its name.

ghost use Rattle.std.specs.Prelude.{◌≡◌, IfOk, Some, take};
ghost use Rattle.std.specs.Option.{option_map};
ghost use Rattle.rule_model.specs.Symbols as model;
ghost use Rattle.rule_facts.specs.Views.{declared_view, all_declared};
ghost use Rattle.rule_facts.specs.Finding.{Stands};

use crate::entries::name_in;
use sqlite_items::at;
use std::alloc::Global;
use std::collections::HashMap;
use tree_model::{AttrTree, Name, NoMemory};

/// What others see of a function: the operation's name, and its properties.
#[derive(Clone, Copy)]
pub struct Declared<'a> {
    pub kind: &'a Name,
    pub props: &'a [(Name, AttrTree)],
}

/// Functions in order, and the place of the first one of each name, so that a look-up takes no scan.
#[derive(Drop)]
pub struct Symbols<'a> {
    pub functions: &'a [Declared<'a>],
    pub by_name: HashMap<&'a [u8], usize>,
}

/// A table of these functions.
pub fn symbols_of<'a>(alloc: Global, functions: &'a [Declared<'a>]) -> Result<Symbols<'a>, NoMemory>
    ensures stands { IfOk result (λ s. Stands s.by_name (all_declared s.functions.now)) }
    ensures functions { IfOk result (λ s. s.functions.now ≡ functions.now) }
{
    let mut by_name = HashMap::new(alloc);
    let mut place = functions.len();
    while place > 0 {
        place -= 1;
        if let Some(name) = name_in(functions[place].props) {
            by_name.insert(name, place)?;
        }
    }
    Ok(Symbols { functions, by_name })
}

impl<'a> Symbols<'a> {
    /// The place of the first function of this name.
    pub fn find(&self, name: &[u8]) -> Option<usize>
        requires { Stands self.now.by_name (all_declared self.now.functions.now) }
        ensures { result ≡ model.function_place name.now (all_declared self.now.functions.now) }
    {
        self.by_name.get(name).copied()
    }

    /// The first function of this name.
    pub fn function_named(&self, name: &[u8]) -> Option<Declared<'a>>
        requires { Stands self.now.by_name (all_declared self.now.functions.now) }
        ensures { option_map declared_view result ≡ model.function_named name.now (all_declared self.now.functions.now) }
    {
        match self.find(name) {
            Some(place) => at(self.functions, place).copied(),
            None => None,
        }
    }

    /// Whether none of the first functions, so many, has this name.
    pub fn is_new(&self, count: usize, name: &[u8]) -> bool
        requires { Stands self.now.by_name (all_declared self.now.functions.now) }
        ensures { result ≡ model.is_new_name (take count (all_declared self.now.functions.now)) (Some name.now) }
    {
        match self.find(name) {
            Some(place) => count <= place,
            None => true,
        }
    }
}
