//! Operations on pointers and on numbers of the type that stands for `index`.

ghost use Rattle.std.specs.Prelude.{◌≡◌, ◌∷◌, IfOk, [], pos};
ghost use Rattle.plain_tree.specs.Types.{Ptr, plain_type};
ghost use Rattle.conversion_model.specs.Types.{number_type};
ghost use Rattle.pattern_model.specs.MemrefRows.{constant as constant_part, extract as extract_part, insert as insert_part, two as two_part};
ghost use Rattle.row_drafts.specs.Writes.{Writes};

use crate::writer::Writer;
use conversion_model::Source;
use std::alloc::{AllocError, Global};
use tree_model::{NoMemory, TypeTree};

/// The place of an array's element in a struct.
fn place_in(field: u32, at: usize) -> Result<[i64; 2], NoMemory>
    ensures { IfOk result (λ path. path ≡ pos field ∷ pos at ∷ []) }
{
    match i64::try_from(at) {
        Ok(at) => Ok([i64::from(field), at]),
        Err(_) => Err(AllocError),
    }
}

impl Writer {
    /// The pointer at that place of a struct.
    pub fn extract_pointer(
        &mut self,
        alloc: Global,
        from: Source,
        path: &[i64],
    ) -> Result<Source, NoMemory>
        ensures { IfOk result (λ s. Writes self.old self.new (extract_part from path.now Ptr) s) }
    {
        let source = self.extract(alloc, from, path, TypeTree::Ptr)?;
        Ok(source)
    }

    /// The number at that place of a struct.
    pub fn extract_number(
        &mut self,
        alloc: Global,
        bits: u32,
        from: Source,
        path: &[i64],
    ) -> Result<Source, NoMemory>
        ensures { IfOk result (λ s. Writes self.old self.new (extract_part from path.now (number_type bits)) s) }
    {
        let source = self.extract(alloc, from, path, TypeTree::Int(bits))?;
        Ok(source)
    }

    /// The number in an array of a struct: the field and the place in it.
    pub fn extract_number_in(
        &mut self,
        alloc: Global,
        bits: u32,
        from: Source,
        field: u32,
        at: usize,
    ) -> Result<Source, NoMemory>
        ensures { IfOk result (λ s. Writes self.old self.new (extract_part from (pos field ∷ pos at ∷ []) (number_type bits)) s) }
    {
        let path = place_in(field, at)?;
        let source = self.extract_number(alloc, bits, from, &path)?;
        Ok(source)
    }

    /// A struct with a value at a place of an array in it.
    pub fn insert_in(
        &mut self,
        alloc: Global,
        into: Source,
        value: Source,
        field: u32,
        at: usize,
        t: &TypeTree,
    ) -> Result<Source, NoMemory>
        ensures { IfOk result (λ s. Writes self.old self.new (insert_part into value (pos field ∷ pos at ∷ []) (plain_type t.now)) s) }
    {
        let path = place_in(field, at)?;
        let source = self.insert(alloc, into, value, &path, t)?;
        Ok(source)
    }

    /// A number.
    pub fn number(&mut self, alloc: Global, bits: u32, number: i64) -> Result<Source, NoMemory>
        ensures { IfOk result (λ s. Writes self.old self.new (constant_part number (number_type bits)) s) }
    {
        let source = self.constant(alloc, number, TypeTree::Int(bits))?;
        Ok(source)
    }

    /// An operation of that name on two numbers.
    pub fn arithmetic(
        &mut self,
        alloc: Global,
        bits: u32,
        name: &[u8],
        x: Source,
        y: Source,
    ) -> Result<Source, NoMemory>
        ensures { IfOk result (λ s. Writes self.old self.new (two_part name.now x y (number_type bits)) s) }
    {
        let source = self.two(alloc, name, x, y, TypeTree::Int(bits))?;
        Ok(source)
    }
}
