//! The lines on whole runs.

use run_report::{Run, lowered_text, source_text};
use small_programs::{Line, Note, Ty, counted_l, loop_by, nested_ticks, one_function, plain};
use std::alloc::Global;
use std::test::Fail;
use tree_model::{Bytes, ModuleTree, Name, NoMemory};

/// The lines on a run of `f` of the module that was read.
fn source(alloc: Global, tree: &ModuleTree, args: &[i128], fuel: u32) -> Result<Bytes, NoMemory> {
    let run = Run {
        name: b"f",
        args,
        fuel,
        bits: 64,
    };
    source_text(alloc, tree, run)
}

/// The lines on a run of `f` of the module behind the pipeline.
fn lowered(alloc: Global, tree: &ModuleTree, args: &[i128], fuel: u32) -> Result<Bytes, NoMemory> {
    let run = Run {
        name: b"f",
        args,
        fuel,
        bits: 64,
    };
    lowered_text(alloc, tree, run)
}

/// The lines on both runs of `f` of one module.
fn both(alloc: Global, tree: &ModuleTree, args: &[i128], fuel: u32) -> Result<Bytes, NoMemory> {
    let mut out = source(alloc, tree, args, fuel)?;
    let more = lowered(alloc, tree, args, fuel)?;
    out.put(more.as_slice())?;
    Ok(out)
}

/// The same module with its function as one of the llvm dialect.
fn with_llvm_function(alloc: Global, tree: ModuleTree) -> Result<ModuleTree, NoMemory> {
    let mut tree = tree;
    if let Some(func) = tree.funcs.pop() {
        let mut func = func;
        func.op.name = Name::from_slice(alloc, b"llvm.func")?;
        tree.funcs.push(func)?;
    }
    Ok(tree)
}

#[test]
fn a_result_stands_behind_done(rt: HostRuntime) -> Result<(), Fail> {
    let tree = loop_by(rt.alloc(), 2)?;
    let text = both(rt.alloc(), &tree, &[], 1000)?;
    let lines = b"source: done 15\nlowered: done 15\n";
    assert_eq!(rt; text.as_slice(), lines.as_slice());
    Ok(())
}

#[test]
fn a_step_of_0_is_told_as_undefined(rt: HostRuntime) -> Result<(), Fail> {
    let tree = loop_by(rt.alloc(), 0)?;
    let text = source(rt.alloc(), &tree, &[], 1000)?;
    assert_eq!(rt; text.as_slice(), b"source: undefined\n".as_slice());
    Ok(())
}

#[test]
fn want_of_fuel_is_told_as_more(rt: HostRuntime) -> Result<(), Fail> {
    let tree = loop_by(rt.alloc(), 2)?;
    let text = source(rt.alloc(), &tree, &[], 14)?;
    assert_eq!(rt; text.as_slice(), b"source: more\n".as_slice());
    Ok(())
}

#[test]
fn an_argument_too_many_is_told_as_outside(rt: HostRuntime) -> Result<(), Fail> {
    let tree = loop_by(rt.alloc(), 2)?;
    let text = source(rt.alloc(), &tree, &[1], 14)?;
    assert_eq!(rt; text.as_slice(), b"source: outside\n".as_slice());
    Ok(())
}

#[test]
fn each_call_has_a_line(rt: HostRuntime) -> Result<(), Fail> {
    let tree = nested_ticks(rt.alloc())?;
    let text = source(rt.alloc(), &tree, &[], 1000)?;
    let lines =
        b"source: done\ncall @tick(0) = 0\ncall @tick(1) = 0\ncall @tick(0) = 0\ncall @tick(1) = 0\n";
    assert_eq!(rt; text.as_slice(), lines.as_slice());
    Ok(())
}

#[test]
fn llvm_operations_have_100_times_the_fuel(rt: HostRuntime) -> Result<(), Fail> {
    let structured = counted_l(rt.alloc())?;
    let tree = with_llvm_function(rt.alloc(), structured)?;
    let text = both(rt.alloc(), &tree, &[5], 2)?;
    let lines = b"source: more\nlowered: done 57\n";
    assert_eq!(rt; text.as_slice(), lines.as_slice());
    Ok(())
}

/// A function `f` that adds its argument to itself, and the sum to itself.
fn four_times(alloc: Global) -> Result<ModuleTree, NoMemory> {
    let lines = [
        plain(b"arith.addi", &[(1, Ty::Index)], &[0, 0]),
        plain(b"arith.addi", &[(2, Ty::Index)], &[1, 1]),
        plain(b"func.return", &[], &[2]),
    ];
    let arg = (0, Ty::Index);
    one_function(alloc, &[arg], &[Ty::Index], &[Ty::Index], &lines)
}

#[test]
fn an_index_of_64_bits_holds_what_doubles_twice(rt: HostRuntime) -> Result<(), Fail> {
    let tree = four_times(rt.alloc())?;
    let text = source(rt.alloc(), &tree, &[2147483647], 1000)?;
    assert_eq!(rt; text.as_slice(), b"source: done 8589934588\n".as_slice());
    Ok(())
}

#[test]
fn an_index_of_32_bits_wraps(rt: HostRuntime) -> Result<(), Fail> {
    let tree = four_times(rt.alloc())?;
    let narrow = Run {
        name: b"f",
        args: &[2147483647],
        fuel: 1000,
        bits: 32,
    };
    let text = lowered_text(rt.alloc(), &tree, narrow)?;
    assert_eq!(rt; text.as_slice(), b"lowered: done -4\n".as_slice());
    Ok(())
}

/// A function `f` that gives whether its argument is less than itself, and the argument.
fn less_and_itself(alloc: Global) -> Result<ModuleTree, NoMemory> {
    let less = Line {
        note: Note::Predicate(2),
        ..plain(b"arith.cmpi", &[(1, Ty::Int(1))], &[0, 0])
    };
    let lines = [less, plain(b"func.return", &[], &[1, 0])];
    let results = [Ty::Int(1), Ty::Int(8)];
    one_function(alloc, &[(0, Ty::Int(8))], &[Ty::Int(8)], &results, &lines)
}

#[test]
fn a_number_of_one_bit_is_a_word(rt: HostRuntime) -> Result<(), Fail> {
    let tree = less_and_itself(rt.alloc())?;
    let text = source(rt.alloc(), &tree, &[255], 1000)?;
    assert_eq!(rt; text.as_slice(), b"source: done false, -1\n".as_slice());
    Ok(())
}
