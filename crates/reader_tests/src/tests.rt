//! Texts that are read and printed, and texts that are refused.

use generic_printer::print_tree;
use std::alloc::Global;
use std::test::Fail;
use text_kinds::kind_name;
use tree_reader::{ReadRefusal, read_tree};

/// The text is read as a module that is printed so.
fn shows(alloc: Global, text: &[u8], out: &[u8]) -> bool {
    if text.len() > 16777216 {
        return false;
    }
    match read_tree(alloc, text, true) {
        Ok(tree) => match print_tree(alloc, &tree) {
            Ok(printed) => printed.as_slice() == out,
            Err(_) => false,
        },
        Err(_) => false,
    }
}

/// The text is refused at this byte, as of the kind of this name.
fn refuses(alloc: Global, text: &[u8], allow: bool, at: usize, name: &str) -> bool {
    if text.len() > 16777216 {
        return false;
    }
    match read_tree(alloc, text, allow) {
        Err(ReadRefusal::At { place, kind }) => place == at && kind_name(kind) == name,
        _ => false,
    }
}

/// No text at all, and a module without a block.
#[test]
fn no_text_is_an_empty_module(rt: HostRuntime) -> Result<(), Fail> {
    assert!(rt;
        shows(
            rt.alloc(),
            b"",
            b"\"builtin.module\"() ({\n^bb0:\n}) : () -> ()\n"
        )
    );
    Ok(())
}

#[test]
fn a_module_without_a_block(rt: HostRuntime) -> Result<(), Fail> {
    assert!(rt;
        shows(
            rt.alloc(),
            b" \"builtin.module\"() ({}) : () -> () // nothing\n",
            b"\"builtin.module\"() ({\n^bb0:\n}) : () -> ()\n"
        )
    );
    Ok(())
}

#[test]
fn a_module_as_it_is_printed(rt: HostRuntime) -> Result<(), Fail> {
    assert!(rt;
        shows(
            rt.alloc(),
            b"\"builtin.module\"() ({\n  \"func.func\"() <{function_type = (i32) -> i32, sym_name = \"inc\"}> ({\n  ^bb0(%arg0: i32):\n    %0 = \"arith.constant\"() <{value = 1 : i32}> : () -> i32\n    %1 = \"arith.addi\"(%arg0, %0) <{overflowFlags = #arith.overflow<none>}> : (i32, i32) -> i32\n    \"func.return\"(%1) : (i32) -> ()\n  }) : () -> ()\n}) : () -> ()\n",
            b"\"builtin.module\"() ({\n  \"func.func\"() <{function_type = (i32) -> i32, sym_name = \"inc\"}> ({\n  ^bb0(%arg0: i32):\n    %0 = \"arith.constant\"() <{value = 1 : i32}> : () -> i32\n    %1 = \"arith.addi\"(%arg0, %0) <{overflowFlags = #arith.overflow<none>}> : (i32, i32) -> i32\n    \"func.return\"(%1) : (i32) -> ()\n  }) : () -> ()\n}) : () -> ()\n"
        )
    );
    Ok(())
}

/// Names, comments and locations go, and inherent names move.
#[test]
fn a_function_alone(rt: HostRuntime) -> Result<(), Fail> {
    assert!(rt;
        shows(
            rt.alloc(),
            b"\"func.func\"() ({\n^bb0(%a: i32): // its argument\n  %one = \"arith.constant\"() {value = 1 : i32} : () -> i32 loc(unknown)\n  %s = \"arith.addi\"(%a, %one) {overflowFlags = #arith.overflow<none>} : (i32, i32) -> i32\n  \"func.return\"(%s) : (i32) -> ()\n}) {sym_name = \"inc\", function_type = (i32) -> i32} : () -> () loc(\"f\":1:2)\n",
            b"\"builtin.module\"() ({\n  \"func.func\"() <{function_type = (i32) -> i32, sym_name = \"inc\"}> ({\n  ^bb0(%arg0: i32):\n    %0 = \"arith.constant\"() <{value = 1 : i32}> : () -> i32\n    %1 = \"arith.addi\"(%arg0, %0) <{overflowFlags = #arith.overflow<none>}> : (i32, i32) -> i32\n    \"func.return\"(%1) : (i32) -> ()\n  }) : () -> ()\n}) : () -> ()\n"
        )
    );
    Ok(())
}

/// A group of results, an index, a forward use and a label that is reused in a nested region.
#[test]
fn uses_before_and_behind(rt: HostRuntime) -> Result<(), Fail> {
    assert!(rt;
        shows(
            rt.alloc(),
            b"\"builtin.module\"() ({\n  \"func.func\"() <{function_type = () -> (), sym_name = \"f\"}> ({\n  ^a:\n    \"cf.br\"()[^b] : () -> ()\n  ^c:\n    \"t.use\"(%g#1, %late) : (i8, i1) -> ()\n    \"t.hold\"() ({\n    ^a(%x: index):\n      \"t.end\"(%x)[^a] : (index) -> ()\n    }) : () -> ()\n    \"func.return\"() : () -> ()\n  ^b:\n    %g:2 = \"t.two\"() : () -> (i64, i8)\n    %late = \"t.one\"() : () -> i1\n    \"cf.br\"()[^c] : () -> ()\n  }) : () -> ()\n}) : () -> ()\n",
            b"\"builtin.module\"() ({\n  \"func.func\"() <{function_type = () -> (), sym_name = \"f\"}> ({\n    \"cf.br\"()[^bb2] : () -> ()\n  ^bb1:\n    \"t.use\"(%0#1, %1) : (i8, i1) -> ()\n    \"t.hold\"() ({\n    ^bb0(%arg0: index):\n      \"t.end\"(%arg0)[^bb0] : (index) -> ()\n    }) : () -> ()\n    \"func.return\"() : () -> ()\n  ^bb2:\n    %0:2 = \"t.two\"() : () -> (i64, i8)\n    %1 = \"t.one\"() : () -> i1\n    \"cf.br\"()[^bb1] : () -> ()\n  }) : () -> ()\n}) : () -> ()\n"
        )
    );
    Ok(())
}

#[test]
fn attributes(rt: HostRuntime) -> Result<(), Fail> {
    assert!(rt;
        shows(
            rt.alloc(),
            b"#n = {z, a = -1 : i1}\n!t = memref<2x?xi8>\n\"builtin.module\"() ({\n  \"func.func\"() <{function_type = () -> (), sym_name = \"f\"}> ({\n    \"t.a\"() <{list = [255 : i8, 5, \"q\\n\", @f, @\"a b\", !t], dict = #n, \"a b\", numbers = array<i8: 255, -1>}> {b = #d.m<w>, a = 18446744073709551615 : index} : () -> ()\n  }) : () -> ()\n}) : () -> ()\n",
            b"\"builtin.module\"() ({\n  \"func.func\"() <{function_type = () -> (), sym_name = \"f\"}> ({\n    \"t.a\"() <{\"a b\", dict = {a = true, z}, list = [-1 : i8, 5 : i64, \"q\\0A\", @f, @\"a b\", memref<2x?xi8>], numbers = array<i8: -1, -1>}> {a = -1 : index, b = #d.m<w>} : () -> ()\n  }) : () -> ()\n}) : () -> ()\n"
        )
    );
    Ok(())
}

#[test]
fn results_without_names(rt: HostRuntime) -> Result<(), Fail> {
    assert!(rt;
        shows(
            rt.alloc(),
            b"\"builtin.module\"() ({\n  \"func.func\"() <{function_type = () -> (), sym_name = \"f\"}> ({\n    \"t.two\"() : () -> (i64, (i8) -> i8)\n    \"t.one\"() : () -> (i8) -> i8\n  }) : () -> ()\n}) : () -> ()\n",
            b"\"builtin.module\"() ({\n  \"func.func\"() <{function_type = () -> (), sym_name = \"f\"}> ({\n    %0:2 = \"t.two\"() : () -> (i64, (i8) -> i8)\n    %1 = \"t.one\"() : () -> ((i8) -> i8)\n  }) : () -> ()\n}) : () -> ()\n"
        )
    );
    Ok(())
}

#[test]
fn an_unregistered_operation_is_refused(rt: HostRuntime) -> Result<(), Fail> {
    assert!(rt;
        refuses(
            rt.alloc(),
            b"\"func.func\"() ({ \"t.x\"() : () -> ()}) : () -> ()",
            false,
            17,
            "UnknownOperation"
        )
    );
    Ok(())
}

#[test]
fn a_cut_string_is_refused(rt: HostRuntime) -> Result<(), Fail> {
    assert!(rt; refuses(rt.alloc(), b"\"builtin.modul", true, 0, "OpenString"));
    Ok(())
}

/// A string before a number or a type that it spells is read as a string, and the number and the type are read by themselves.
#[test]
fn strings_before_numbers_and_types(rt: HostRuntime) -> Result<(), Fail> {
    assert!(rt;
        shows(
            rt.alloc(),
            b"\"builtin.module\"() ({\n  \"func.func\"() <{function_type = () -> (), sym_name = \"f\"}> ({\n    \"t.x\"() {a = \"7\", b = 7 : i32, c = \"i8\", d = [7 : i8, memref<7xi8>]} : () -> ()\n  }) : () -> ()\n}) : () -> ()\n",
            b"\"builtin.module\"() ({\n  \"func.func\"() <{function_type = () -> (), sym_name = \"f\"}> ({\n    \"t.x\"() {a = \"7\", b = 7 : i32, c = \"i8\", d = [7 : i8, memref<7xi8>]} : () -> ()\n  }) : () -> ()\n}) : () -> ()\n"
        )
    );
    Ok(())
}

/// So are the number and the index of results, behind a symbol and a string.
#[test]
fn symbols_before_results(rt: HostRuntime) -> Result<(), Fail> {
    assert!(rt;
        shows(
            rt.alloc(),
            b"\"builtin.module\"() ({\n  \"func.func\"() <{function_type = () -> (), sym_name = \"f\"}> ({\n    %0:3 = \"t.x\"() {a = @\"3\", b = \"#2\"} : () -> (i1, i8, i64)\n    \"t.y\"(%0#2) {c = \"3\"} : (i64) -> ()\n  }) : () -> ()\n}) : () -> ()\n",
            b"\"builtin.module\"() ({\n  \"func.func\"() <{function_type = () -> (), sym_name = \"f\"}> ({\n    %0:3 = \"t.x\"() {a = @\"3\", b = \"#2\"} : () -> (i1, i8, i64)\n    \"t.y\"(%0#2) {c = \"3\"} : (i64) -> ()\n  }) : () -> ()\n}) : () -> ()\n"
        )
    );
    Ok(())
}

/// An entry that is named as an operation doesn't make the operation unknown.
#[test]
fn an_entry_before_its_operation(rt: HostRuntime) -> Result<(), Fail> {
    let text = b"#a = {func.return} \"func.func\"() ({ \"func.return\"() : () -> ()}) : () -> ()";
    assert!(&rt; text.len() <= 16777216);
    assert!(&rt; read_tree(rt.alloc(), text, false).is_ok());
    Ok(())
}
