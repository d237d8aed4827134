//! The first undefined use and the first own use in each function of a module on standard input, one line a function.
#![tactic(auto)]

ghost use Rattle.std.specs.Prelude.{◌≤◌, ◌^◌, length};

use own_uses::first_own_use;
use std::alloc::Global;
use std::io;
use std::io::Read;
use tree_model::ModuleTree;
use tree_reader::read_tree;
use use_paths::first_undefined;

/// The most bytes that are read.
const MAX_TEXT: usize = 16777216;

fn print_number(rt: &impl Print, words: &str, number: Option<usize>) -> io::Result<()> {
    match number {
        Some(number) => print!(rt; "{words} {number}"),
        None => print!(rt; "{words} none"),
    }
}

fn print_uses(rt: &impl Print, alloc: Global, module: &ModuleTree) -> io::Result<()> {
    for function in module.funcs.as_slice() {
        let undefined = first_undefined(alloc, &function.op)?;
        let own = first_own_use(alloc, &function.op)?;
        print_number(rt, "undefined:", undefined)?;
        print_number(rt, ", own:", own)?;
        println!(rt;)?;
    }
    Ok(())
}

fn main(rt: HostRuntime) -> io::Result<()> {
    let mut text = Vec::new(rt.alloc());
    rt.stdin().take(MAX_TEXT as u64).read_to_end(&mut text)?;
    if text.len() > MAX_TEXT {
        return Ok(());
    }
    match read_tree(rt.alloc(), &text, true) {
        Ok(module) => print_uses(&rt, rt.alloc(), &module),
        Err(_) => println!(rt; "refused"),
    }
}
