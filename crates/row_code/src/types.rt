//! Types of a row in their converted form.

ghost use Rattle.std.specs.Prelude.{◌≡◌, IfOk, map};
ghost use Rattle.plain_tree.specs.Types.{plain_type, type_tree};
ghost use Rattle.pattern_model.specs.ArithRows.{all_types as converted};

use sqlite_items::Items;
use std::alloc::Global;
use tree_model::{NoMemory, TypeList, TypeTree};
use type_table::becomes;

/// Each type in its converted form.
pub fn all_types(alloc: Global, bits: u32, types: &[TypeTree]) -> Result<TypeList, NoMemory>
    ensures { IfOk result (λ us. us ≡ map type_tree (converted bits (map plain_type types.now))) }
{
    let mut all = Items::new(alloc);
    'each: for t in types {
        all.push(becomes(alloc, bits, t)?)?;
    }
    Ok(all)
}
