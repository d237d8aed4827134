//! Declarations.

ghost use Rattle.std.specs.Prelude.{◌≡◌, ◌++◌, ◌∷◌, IfOk, None, OnOk, [], codes, map};
ghost use Rattle.tree_model.specs.declared.attr_tree.AttrTree as attr;
ghost use Rattle.plain_tree.specs.Types.{plain_type, LlvmFunc, types_in};
ghost use Rattle.plain_tree.specs.Attrs.{plain_entries, Text};
ghost use Rattle.plain_tree.specs.Ops.{plain_func};
ghost use Rattle.pattern_model.specs.FuncRows.{function_props as new_props};
ghost use Rattle.pattern_model.specs.ModuleStep.{declaration as declared_as};
ghost use Rattle.allocators.specs.Missing.{aligned_type, free_type, is_wanted, malloc_type, missing_all, missing_one};

use crate::looks::{is_called, is_there};
use sqlite_items::{Boxed, Items};
use std::alloc::Global;
use tree_model::{
    AttrTree, Bytes, DictTree, FuncList, FuncTree, Name, NoMemory, OpTree, RegionTree, TypeList,
    TypeTree, entry, one,
};

#[tactic(auto, using(row_code::proofs::Opens::type_opens))]
fn function_type(alloc: Global, output: TypeTree, inputs: TypeList) -> Result<TypeTree, NoMemory>
    ensures { IfOk result (λ t. plain_type t ≡ LlvmFunc (plain_type output) (types_in (map plain_type inputs))) }
{
    let output = Boxed::new(alloc, output)?;
    Ok(TypeTree::LlvmFunc(output, inputs))
}

fn linkage(alloc: Global) -> Result<AttrTree, NoMemory>
    ensures { IfOk result (λ a. a ≡ attr.Dialect (codes "llvm.linkage") (codes "external" ∷ [])) }
{
    let words = one(alloc, Name::from_slice(alloc, b"external")?)?;
    let name = Name::from_slice(alloc, b"llvm.linkage")?;
    Ok(AttrTree::Dialect(name, words))
}

#[tactic(auto, using(row_code::proofs::Opens::attr_opens))]
fn function_props(alloc: Global, name: &[u8], t: TypeTree) -> Result<DictTree, NoMemory>
    ensures { IfOk result (λ d. plain_entries d ≡ new_props (plain_type t) (Text name.now) None) }
{
    let mut props = entry(alloc, b"function_type", AttrTree::OfType(t))?;
    let linked = linkage(alloc)?;
    props.push((Name::from_slice(alloc, b"linkage")?, linked))?;
    let text = Bytes::from_slice(alloc, name)?;
    props.push((Name::from_slice(alloc, b"sym_name")?, AttrTree::Str(text)))?;
    Ok(props)
}

/// A function without a body.
fn declaration(alloc: Global, name: &[u8], t: TypeTree) -> Result<FuncTree, NoMemory>
    ensures { IfOk result (λ f. plain_func f ≡ declared_as name.now (plain_type t)) }
{
    let props = function_props(alloc, name, t)?;
    let blocks = Items::new(alloc);
    let regions = one(alloc, RegionTree { blocks })?;
    let name = Name::from_slice(alloc, b"llvm.func")?;
    Ok(FuncTree {
        op: OpTree {
            name,
            results: Items::new(alloc),
            operands: Items::new(alloc),
            props,
            attrs: Items::new(alloc),
            regions,
            successors: Items::new(alloc),
        },
    })
}

fn is_missing(alloc: Global, name: &[u8], funcs: &[FuncTree]) -> Result<bool, NoMemory>
    ensures { IfOk result (λ b. b ≡ is_wanted name.now (map plain_func funcs.now)) }
{
    if is_there(name, funcs) {
        return Ok(false);
    }
    let wanted = is_called(alloc, name, funcs)?;
    Ok(wanted)
}

// The declaration, where it is missing.
fn put_missing(
    all: &mut FuncList,
    alloc: Global,
    name: &[u8],
    t: TypeTree,
    funcs: &[FuncTree],
) -> Result<(), NoMemory>
    ensures { OnOk result (map plain_func all.new ≡ map plain_func all.old ++ missing_one name.now (plain_type t) (map plain_func funcs.now)) }
{
    if is_missing(alloc, name, funcs)? {
        let f = declaration(alloc, name, t)?;
        all.push(f)?;
        return Ok(());
    }
    Ok(())
}

fn put_malloc(all: &mut FuncList, alloc: Global, funcs: &[FuncTree]) -> Result<(), NoMemory>
    ensures { OnOk result (map plain_func all.new ≡ map plain_func all.old ++ missing_one (codes "malloc") malloc_type (map plain_func funcs.now)) }
{
    let inputs = one(alloc, TypeTree::Int(64))?;
    let t = function_type(alloc, TypeTree::Ptr, inputs)?;
    put_missing(all, alloc, b"malloc", t, funcs)?;
    Ok(())
}

fn put_free(all: &mut FuncList, alloc: Global, funcs: &[FuncTree]) -> Result<(), NoMemory>
    ensures { OnOk result (map plain_func all.new ≡ map plain_func all.old ++ missing_one (codes "free") free_type (map plain_func funcs.now)) }
{
    let inputs = one(alloc, TypeTree::Ptr)?;
    let t = function_type(alloc, TypeTree::Void, inputs)?;
    put_missing(all, alloc, b"free", t, funcs)?;
    Ok(())
}

fn put_aligned(all: &mut FuncList, alloc: Global, funcs: &[FuncTree]) -> Result<(), NoMemory>
    ensures { OnOk result (map plain_func all.new ≡ map plain_func all.old ++ missing_one (codes "aligned_alloc") aligned_type (map plain_func funcs.now)) }
{
    let mut inputs = one(alloc, TypeTree::Int(64))?;
    inputs.push(TypeTree::Int(64))?;
    let t = function_type(alloc, TypeTree::Ptr, inputs)?;
    put_missing(all, alloc, b"aligned_alloc", t, funcs)?;
    Ok(())
}

/// The declarations that are missing, in order.
pub fn missing(alloc: Global, funcs: &[FuncTree]) -> Result<FuncList, NoMemory>
    ensures { IfOk result (λ fs. map plain_func fs ≡ missing_all (map plain_func funcs.now)) }
{
    let mut all = Items::new(alloc);
    put_malloc(&mut all, alloc, funcs)?;
    put_free(&mut all, alloc, funcs)?;
    put_aligned(&mut all, alloc, funcs)?;
    Ok(all)
}
