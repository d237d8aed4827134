//! The operations that rows of memrefs and functions share.

ghost use Rattle.std.specs.Prelude.{◌≡◌, IfOk};
ghost use Rattle.plain_tree.specs.Types.{plain_type};
ghost use Rattle.plain_tree.specs.Attrs.{plain_entries};
ghost use Rattle.pattern_model.specs.MemrefRows.{callee as callee_props, constant as constant_part, extract as extract_part, insert as insert_part, position as position_props, two as two_part, undef as undef_part};
ghost use Rattle.row_drafts.specs.Writes.{Writes};

use crate::writer::Writer;
use conversion_model::Source;
use row_code::constant_value;
use sqlite_items::Items;
use std::alloc::Global;
use tree_model::{AttrTree, Bytes, DictTree, NoMemory, TypeTree, copy_type, entry};

#[tactic(auto, using(row_code::proofs::Opens::attr_opens))]
fn position(alloc: Global, path: &[i64]) -> Result<DictTree, NoMemory>
    ensures { IfOk result (λ d. plain_entries d ≡ position_props path.now) }
{
    let path = Items::from_slice(alloc, path)?;
    entry(alloc, b"position", AttrTree::Ints(64, path))
}

/// The property of a call: the name of the function.
#[tactic(auto, using(row_code::proofs::Opens::attr_opens))]
pub fn symbol_props(alloc: Global, name: &[u8]) -> Result<DictTree, NoMemory>
    ensures { IfOk result (λ d. plain_entries d ≡ callee_props name.now) }
{
    let name = Bytes::from_slice(alloc, name)?;
    entry(alloc, b"callee", AttrTree::Symbol(name))
}

impl Writer {
    /// The part of a struct at that place.
    pub fn extract(
        &mut self,
        alloc: Global,
        from: Source,
        path: &[i64],
        t: TypeTree,
    ) -> Result<Source, NoMemory>
        ensures { IfOk result (λ s. Writes self.old self.new (extract_part from path.now (plain_type t)) s) }
    {
        let props = position(alloc, path)?;
        let source = self.value(alloc, b"llvm.extractvalue", &[from], props, t)?;
        Ok(source)
    }

    /// A struct with a value at that place.
    pub fn insert(
        &mut self,
        alloc: Global,
        into: Source,
        value: Source,
        path: &[i64],
        t: &TypeTree,
    ) -> Result<Source, NoMemory>
        ensures { IfOk result (λ s. Writes self.old self.new (insert_part into value path.now (plain_type t.now)) s) }
    {
        let props = position(alloc, path)?;
        let made = copy_type(alloc, t)?;
        let source = self.value(alloc, b"llvm.insertvalue", &[into, value], props, made)?;
        Ok(source)
    }

    /// A value that isn't set.
    pub fn undef(&mut self, alloc: Global, t: &TypeTree) -> Result<Source, NoMemory>
        ensures { IfOk result (λ s. Writes self.old self.new (undef_part (plain_type t.now)) s) }
    {
        let made = copy_type(alloc, t)?;
        let source = self.value(alloc, b"llvm.mlir.undef", &[], Items::new(alloc), made)?;
        Ok(source)
    }

    /// A constant of that type.
    pub fn constant(&mut self, alloc: Global, number: i64, t: TypeTree) -> Result<Source, NoMemory>
        ensures { IfOk result (λ s. Writes self.old self.new (constant_part number (plain_type t)) s) }
    {
        let kept = copy_type(alloc, &t)?;
        let props = constant_value(alloc, kept, number)?;
        let source = self.value(alloc, b"llvm.mlir.constant", &[], props, t)?;
        Ok(source)
    }

    /// An operation of that name on two values.
    pub fn two(
        &mut self,
        alloc: Global,
        name: &[u8],
        x: Source,
        y: Source,
        t: TypeTree,
    ) -> Result<Source, NoMemory>
        ensures { IfOk result (λ s. Writes self.old self.new (two_part name.now x y (plain_type t)) s) }
    {
        let source = self.value(alloc, name, &[x, y], Items::new(alloc), t)?;
        Ok(source)
    }
}
