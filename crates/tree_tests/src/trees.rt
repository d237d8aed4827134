//! Copies, equality, and the texts of types and attributes.

use crate::fixtures::{entry, one, text, two};
use sqlite_items::{Boxed, Items};
use std::alloc::Global;
use std::process::Abort;
use std::test::Fail;
use tree_model::{
    AttrTree, BlockTree, Dim, Name, NoMemory, OpTree, RegionTree, TypeTree, copy_attr, copy_op,
    copy_type, same_attr, same_type,
};
use tree_text::{attr_text, type_text};

/// `(memref<2x?xi32>) -> (!llvm.struct<(ptr, array<3 x i8>)>, index)`
fn sample_type(alloc: Global) -> Result<TypeTree, NoMemory> {
    let dims = Items::from_slice(alloc, &[Dim::Fixed(2), Dim::Dynamic])?;
    let buffer = TypeTree::Memref(dims, Boxed::new(alloc, TypeTree::Int(32))?);
    let array = TypeTree::Array(3, Boxed::new(alloc, TypeTree::Int(8))?);
    let pair = TypeTree::Struct(two(alloc, TypeTree::Ptr, array)?);
    let results = two(alloc, pair, TypeTree::Index)?;
    Ok(TypeTree::Func(one(alloc, buffer)?, results))
}

/// `[{"a b" = 5 : i64, u}, "x", #arith.overflow<nsw>, array<i32: 1, -2>, @f]`
fn sample_attr(alloc: Global) -> Result<AttrTree, NoMemory> {
    let five = (
        Name::from_slice(alloc, b"a b")?,
        AttrTree::Int(5, TypeTree::Int(64)),
    );
    let unit = (Name::from_slice(alloc, b"u")?, AttrTree::Unit);
    let mut items = one(alloc, AttrTree::Dict(two(alloc, five, unit)?))?;
    items.push(AttrTree::Str(text(alloc, b"x")?))?;
    let words = one(alloc, Name::from_slice(alloc, b"nsw")?)?;
    items.push(AttrTree::Dialect(Name::from_slice(alloc, b"arith.overflow")?, words))?;
    items.push(AttrTree::Ints(32, Items::from_slice(alloc, &[1, -2])?))?;
    items.push(AttrTree::Symbol(text(alloc, b"f")?))?;
    Ok(AttrTree::List(items))
}

fn op(
    alloc: Global,
    name: &[u8],
    regions: Items<RegionTree>,
    operands: &[u32],
) -> Result<OpTree, NoMemory> {
    Ok(OpTree {
        name: Name::from_slice(alloc, name)?,
        results: one(alloc, (7, sample_type(alloc)?))?,
        operands: Items::from_slice(alloc, operands)?,
        props: entry(alloc, b"p", sample_attr(alloc)?)?,
        attrs: entry(alloc, b"q", AttrTree::Unit)?,
        regions,
        successors: Items::from_slice(alloc, &[4, 5])?,
    })
}

fn sample_op(alloc: Global) -> Result<OpTree, NoMemory> {
    let inner = op(alloc, b"test.inner", Items::new(alloc), &[1, 7])?;
    let block = BlockTree {
        label: 4,
        args: two(alloc, (1, TypeTree::Index), (2, TypeTree::Void))?,
        ops: one(alloc, inner)?,
    };
    let region = RegionTree {
        blocks: one(alloc, block)?,
    };
    op(alloc, b"func.func", one(alloc, region)?, &[])
}

fn copies_type(rt: &impl Abort, alloc: Global) -> Result<(), NoMemory> {
    let t = sample_type(alloc)?;
    let copy = copy_type(alloc, &t)?;
    assert!(rt; same_type(&copy, &t));
    assert!(rt; !same_type(&copy, &TypeTree::Index));
    Ok(())
}

fn copies_attr(rt: &impl Abort, alloc: Global) -> Result<(), NoMemory> {
    let a = sample_attr(alloc)?;
    let copy = copy_attr(alloc, &a)?;
    assert!(rt; same_attr(&copy, &a));
    assert!(rt; !same_attr(&copy, &AttrTree::Unit));
    Ok(())
}

fn shape(alloc: Global, op: &OpTree) -> Result<String, NoMemory> {
    format!(in alloc; "{op:?}")
}

fn copies_op(rt: &impl Abort, alloc: Global) -> Result<(), NoMemory> {
    let op = sample_op(alloc)?;
    let copy = copy_op(alloc, &op)?;
    let want = shape(alloc, &op)?;
    let got = shape(alloc, &copy)?;
    assert_eq!(rt; got.as_str(), want.as_str());
    Ok(())
}

#[test]
fn copies_are_what_they_copy(rt: HostRuntime) -> Result<(), Fail> {
    let alloc = rt.alloc();
    copies_type(&rt, alloc)?;
    copies_attr(&rt, alloc)?;
    copies_op(&rt, alloc)?;
    Ok(())
}

fn memref(alloc: Global, dims: &[Dim], element: TypeTree) -> Result<TypeTree, NoMemory> {
    let dims = Items::from_slice(alloc, dims)?;
    Ok(TypeTree::Memref(dims, Boxed::new(alloc, element)?))
}

fn array(alloc: Global, length: u64, element: TypeTree) -> Result<TypeTree, NoMemory> {
    Ok(TypeTree::Array(length, Boxed::new(alloc, element)?))
}

fn function(alloc: Global, input: TypeTree, output: TypeTree) -> Result<TypeTree, NoMemory> {
    Ok(TypeTree::Func(one(alloc, input)?, one(alloc, output)?))
}

fn shows_type(rt: &impl Abort, alloc: Global, t: TypeTree, want: &[u8]) -> Result<(), NoMemory> {
    let text = type_text(alloc, &t)?;
    assert_eq!(rt; text.as_slice(), want);
    Ok(())
}

fn shows_plain_types(rt: &impl Abort, alloc: Global) -> Result<(), NoMemory> {
    shows_type(rt, alloc, TypeTree::Int(1), b"i1")?;
    shows_type(rt, alloc, TypeTree::Int(32), b"i32")?;
    shows_type(rt, alloc, TypeTree::Index, b"index")?;
    let dims = [Dim::Fixed(2), Dim::Dynamic, Dim::Fixed(0)];
    let ranked = memref(alloc, &dims, TypeTree::Int(8))?;
    shows_type(rt, alloc, ranked, b"memref<2x?x0xi8>")?;
    let cell = memref(alloc, &[], TypeTree::Index)?;
    shows_type(rt, alloc, cell, b"memref<index>")
}

fn shows_functions(rt: &impl Abort, alloc: Global) -> Result<(), NoMemory> {
    let simple = function(alloc, TypeTree::Index, TypeTree::Ptr)?;
    shows_type(rt, alloc, simple, b"(index) -> !llvm.ptr")?;
    let inner = function(alloc, TypeTree::Index, TypeTree::Int(1))?;
    let outer = function(alloc, TypeTree::Int(2), inner)?;
    shows_type(rt, alloc, outer, b"(i2) -> ((index) -> i1)")?;
    let none = TypeTree::Func(Items::new(alloc), Items::new(alloc));
    shows_type(rt, alloc, none, b"() -> ()")?;
    let inputs = two(alloc, TypeTree::Int(1), TypeTree::Index)?;
    let pair = two(alloc, TypeTree::Index, TypeTree::Int(64))?;
    let several = TypeTree::Func(inputs, pair);
    shows_type(rt, alloc, several, b"(i1, index) -> (index, i64)")
}

fn shows_llvm_types(rt: &impl Abort, alloc: Global) -> Result<(), NoMemory> {
    shows_type(rt, alloc, TypeTree::Ptr, b"!llvm.ptr")?;
    shows_type(rt, alloc, TypeTree::Void, b"!llvm.void")?;
    let empty = TypeTree::Struct(Items::new(alloc));
    shows_type(rt, alloc, empty, b"!llvm.struct<()>")?;
    let inner = array(alloc, 2, TypeTree::Ptr)?;
    let fields = two(alloc, TypeTree::Ptr, array(alloc, 3, inner)?)?;
    let want = b"!llvm.struct<(ptr, array<3 x array<2 x ptr>>)>";
    shows_type(rt, alloc, TypeTree::Struct(fields), want)
}

fn shows_llvm_functions(rt: &impl Abort, alloc: Global) -> Result<(), NoMemory> {
    let output = Boxed::new(alloc, TypeTree::Void)?;
    let inputs = two(alloc, TypeTree::Int(32), TypeTree::Ptr)?;
    let f = TypeTree::LlvmFunc(output, inputs);
    shows_type(rt, alloc, f, b"!llvm.func<void (i32, ptr)>")
}

#[test]
fn types_are_printed_as_in_the_table(rt: HostRuntime) -> Result<(), Fail> {
    let alloc = rt.alloc();
    shows_plain_types(&rt, alloc)?;
    shows_functions(&rt, alloc)?;
    shows_llvm_types(&rt, alloc)?;
    shows_llvm_functions(&rt, alloc)?;
    Ok(())
}

fn shows_attr(rt: &impl Abort, alloc: Global, a: AttrTree, want: &[u8]) -> Result<(), NoMemory> {
    let text = attr_text(alloc, &a)?;
    assert_eq!(rt; text.as_slice(), want);
    Ok(())
}

fn ints(alloc: Global, width: u32, numbers: &[i64]) -> Result<AttrTree, NoMemory> {
    Ok(AttrTree::Ints(width, Items::from_slice(alloc, numbers)?))
}

fn shows_integers(rt: &impl Abort, alloc: Global) -> Result<(), NoMemory> {
    shows_attr(rt, alloc, AttrTree::Unit, b"unit")?;
    shows_attr(rt, alloc, AttrTree::Int(5, TypeTree::Int(64)), b"5 : i64")?;
    shows_attr(rt, alloc, AttrTree::Int(-5, TypeTree::Int(32)), b"-5 : i32")?;
    shows_attr(rt, alloc, AttrTree::Int(3, TypeTree::Index), b"3 : index")?;
    shows_attr(rt, alloc, AttrTree::Int(-1, TypeTree::Int(1)), b"true")?;
    shows_attr(rt, alloc, AttrTree::Int(0, TypeTree::Int(1)), b"false")?;
    shows_attr(rt, alloc, ints(alloc, 32, &[1, -2])?, b"array<i32: 1, -2>")?;
    shows_attr(rt, alloc, ints(alloc, 64, &[])?, b"array<i64>")
}

fn shows_texts(rt: &impl Abort, alloc: Global) -> Result<(), NoMemory> {
    let odd = AttrTree::Str(text(alloc, b"a \"b\" \\ ~\n\x7F\xE9")?);
    shows_attr(rt, alloc, odd, b"\"a \\22b\\22 \\\\ ~\\0A\\7F\\E9\"")?;
    shows_attr(rt, alloc, AttrTree::Symbol(text(alloc, b"f$1")?), b"@f$1")?;
    shows_attr(rt, alloc, AttrTree::Symbol(text(alloc, b"1f")?), b"@\"1f\"")?;
    shows_attr(rt, alloc, AttrTree::Symbol(text(alloc, b"")?), b"@\"\"")
}

fn shows_lists(rt: &impl Abort, alloc: Global) -> Result<(), NoMemory> {
    shows_attr(rt, alloc, AttrTree::List(Items::new(alloc)), b"[]")?;
    let list = two(alloc, AttrTree::Unit, AttrTree::OfType(TypeTree::Ptr))?;
    shows_attr(rt, alloc, AttrTree::List(list), b"[unit, !llvm.ptr]")?;
    shows_attr(rt, alloc, AttrTree::Dict(Items::new(alloc)), b"{}")?;
    let first = (
        Name::from_slice(alloc, b"a b")?,
        AttrTree::Int(1, TypeTree::Index),
    );
    let second = (Name::from_slice(alloc, b"c.d")?, AttrTree::Unit);
    let entries = AttrTree::Dict(two(alloc, first, second)?);
    shows_attr(rt, alloc, entries, b"{\"a b\" = 1 : index, c.d}")
}

fn shows_dialect_attrs(rt: &impl Abort, alloc: Global) -> Result<(), NoMemory> {
    let words = two(
        alloc,
        Name::from_slice(alloc, b"nsw")?,
        Name::from_slice(alloc, b"nuw")?,
    )?;
    let flags = AttrTree::Dialect(Name::from_slice(alloc, b"arith.overflow")?, words);
    shows_attr(rt, alloc, flags, b"#arith.overflow<nsw, nuw>")?;
    let bare = AttrTree::Dialect(Name::from_slice(alloc, b"d.m")?, Items::new(alloc));
    shows_attr(rt, alloc, bare, b"#d.m")?;
    let want = b"[{\"a b\" = 5 : i64, u}, \"x\", #arith.overflow<nsw>, array<i32: 1, -2>, @f]";
    shows_attr(rt, alloc, sample_attr(alloc)?, want)
}

#[test]
fn attributes_are_printed_as_in_the_table(rt: HostRuntime) -> Result<(), Fail> {
    let alloc = rt.alloc();
    shows_integers(&rt, alloc)?;
    shows_texts(&rt, alloc)?;
    shows_lists(&rt, alloc)?;
    shows_dialect_attrs(&rt, alloc)?;
    Ok(())
}
