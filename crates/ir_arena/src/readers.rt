//! What is read of a function.

ghost use Rattle.std.specs.Prelude.{◌≡◌, ◌<◌, ◌++◌, length, slice_index, IfOk};
ghost use Rattle.flat_model.specs.Flat.{AllBelow, IsClosed, op_at, block_at, blocks_at, type_at};

use crate::func::Func;
use crate::pushing::next;
use flat_model::{BlockId, NamedAttr, OpId, RegionId, ValueId};
use key_model::Handle;
use tree_model::{Name, NoMemory};

#[tactic(auto, using(crate::proofs::ReaderLaws::reader_laws))]
impl Func {
    /// The operation that holds all others.
    pub fn root(&self) -> OpId
        ensures root { result ≡ self.now.flat.root }
        ensures known { result < length self.now.flat.ops }
    {
        self.root
    }

    /// The name of an operation.
    pub fn name(&self, op: OpId) -> &Name
        requires { op < length self.now.flat.ops }
        ensures { result.now ≡ (op_at self.now.flat op).name }
    {
        &self.ops[op as usize].name
    }

    /// The operands of an operation.
    pub fn operands(&self, op: OpId) -> &[ValueId]
        requires { op < length self.now.flat.ops }
        ensures operands { result.now ≡ (op_at self.now.flat op).operands }
        ensures known { AllBelow (length self.now.flat.types) result.now }
    {
        self.ops[op as usize].operands.as_slice()
    }

    /// The results of an operation.
    pub fn results(&self, op: OpId) -> &[ValueId]
        requires { op < length self.now.flat.ops }
        ensures results { result.now ≡ (op_at self.now.flat op).results }
        ensures known { AllBelow (length self.now.flat.types) result.now }
    {
        self.ops[op as usize].results.as_slice()
    }

    /// The regions of an operation.
    pub fn regions(&self, op: OpId) -> &[RegionId]
        requires { op < length self.now.flat.ops }
        ensures regions { result.now ≡ (op_at self.now.flat op).regions }
        ensures known { AllBelow (length self.now.flat.regions) result.now }
    {
        self.ops[op as usize].regions.as_slice()
    }

    /// The successors of an operation.
    pub fn successors(&self, op: OpId) -> &[BlockId]
        requires { op < length self.now.flat.ops }
        ensures successors { result.now ≡ (op_at self.now.flat op).successors }
        ensures known { AllBelow (length self.now.flat.blocks) result.now }
    {
        self.ops[op as usize].successors.as_slice()
    }

    /// The properties of an operation.
    pub fn props(&self, op: OpId) -> &[NamedAttr]
        requires { op < length self.now.flat.ops }
        ensures { result.now ≡ (op_at self.now.flat op).props }
    {
        self.ops[op as usize].props.as_slice()
    }

    /// The attributes of an operation that are no properties.
    pub fn attrs(&self, op: OpId) -> &[NamedAttr]
        requires { op < length self.now.flat.ops }
        ensures { result.now ≡ (op_at self.now.flat op).attrs }
    {
        self.ops[op as usize].attrs.as_slice()
    }

    /// The blocks of a region.
    pub fn blocks(&self, region: RegionId) -> &[BlockId]
        requires { region < length self.now.flat.regions }
        ensures blocks { result.now ≡ blocks_at self.now.flat region }
        ensures known { AllBelow (length self.now.flat.blocks) result.now }
    {
        self.regions[region as usize].blocks.as_slice()
    }

    /// The arguments of a block.
    pub fn args(&self, block: BlockId) -> &[ValueId]
        requires { block < length self.now.flat.blocks }
        ensures args { result.now ≡ (block_at self.now.flat block).args }
        ensures known { AllBelow (length self.now.flat.types) result.now }
    {
        self.blocks[block as usize].args.as_slice()
    }

    /// How many operations a block has.
    pub fn op_count(&self, block: BlockId) -> usize
        requires { block < length self.now.flat.blocks }
        ensures { result ≡ length (block_at self.now.flat block).ops }
    {
        self.blocks[block as usize].ops.len()
    }

    /// The operation at a place of a block.
    pub fn op_at(&self, block: BlockId, place: usize) -> OpId
        requires block { block < length self.now.flat.blocks }
        requires place { place < length (block_at self.now.flat block).ops }
        ensures op { result ≡ slice_index (block_at self.now.flat block).ops place }
        ensures known { result < length self.now.flat.ops }
    {
        self.blocks[block as usize].ops.at(place)
    }

    /// The operations of a block, in two slices: those of the second follow those of the first.
    pub fn op_parts(&self, block: BlockId) -> (&[OpId], &[OpId])
        requires { block < length self.now.flat.blocks }
        ensures { result.0.now ++ result.1.now ≡ (block_at self.now.flat block).ops }
    {
        self.blocks[block as usize].ops.parts()
    }

    /// The type of a value.
    pub fn type_of(&self, value: ValueId) -> Handle
        requires { value < length self.now.flat.types }
        ensures { result ≡ type_at self.now.flat value }
    {
        self.types[value as usize]
    }

    /// How many values there are.
    pub fn value_count(&self) -> Result<u32, NoMemory>
        ensures { IfOk result (λ count. count ≡ length self.now.flat.types) }
    {
        next(self.types.len())
    }

    /// How many operations there are. Those that are in no block count too.
    pub fn all_ops(&self) -> Result<u32, NoMemory>
        ensures { IfOk result (λ count. count ≡ length self.now.flat.ops) }
    {
        next(self.ops.len())
    }

    /// How many blocks there are. Those that are in no region count too.
    pub fn all_blocks(&self) -> Result<u32, NoMemory>
        ensures { IfOk result (λ count. count ≡ length self.now.flat.blocks) }
    {
        next(self.blocks.len())
    }

    /// How many regions there are.
    pub fn all_regions(&self) -> Result<u32, NoMemory>
        ensures { IfOk result (λ count. count ≡ length self.now.flat.regions) }
    {
        next(self.regions.len())
    }

    /// Nothing is done. Contracts learn that each number in the function names something in it.
    pub fn closed(&self)
        ensures { IsClosed self.now.flat }
    {
        let _root = self.root;
    }
}
