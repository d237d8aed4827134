//! The program as a whole: words and a text in, two texts and a status out.

use crate::texts::{
    INC, INC_ALONE, INC_CONVERTED, INC_PRINTED, KINDS, KINDS_PRINTED, ROUNDED, ROUNDED_TOLD, SUM,
    SUM_PRINTED, THREE, THREE_CONVERTED,
};
use edge_kit::{MemSink, MemSource, SureSink, SureSource, Words};
use std::alloc::{AllocError, Global};
use std::process::Abort;
use std::test::Fail;
use tool_cli::{Status, run_single, run_sure};

const CONVERT: &str = "--pass-pipeline=builtin.module(convert-arith-to-llvm)";

const ALLOW: &str = "--allow-unregistered-dialect";

#[derive(Drop)]
struct Answer {
    status: Status,
    out: SureSink,
    diag: SureSink,
}

// What the program answers to words and a text.
fn run_on(alloc: Global, list: &[&str], text: &str) -> Result<Answer, AllocError> {
    let mut words = Words::new(alloc);
    for word in list {
        words.push(alloc, word)?;
    }
    let mut input = SureSource::new(Vec::from_slice(alloc, text.as_bytes())?);
    let mut out = SureSink::new(alloc);
    let mut diag = SureSink::new(alloc);
    let status = run_sure(alloc, &words, &mut input, &mut out, &mut diag);
    Ok(Answer { status, out, diag })
}

// The program prints this module, and tells nothing.
fn prints(
    rt: &impl Abort,
    alloc: Global,
    words: &[&str],
    text: &str,
    expected: &str,
) -> Result<(), AllocError> {
    let Answer { status, out, diag } = run_on(alloc, words, text)?;
    assert_eq!(rt; diag.bytes(), b"".as_slice());
    assert_eq!(rt; out.bytes(), expected.as_bytes());
    assert_eq!(rt; status, Status::Ok);
    Ok(())
}

// The program prints nothing, and tells this line.
fn tells(
    rt: &impl Abort,
    alloc: Global,
    words: &[&str],
    text: &str,
    line: &str,
    expected: Status,
) -> Result<(), AllocError> {
    let Answer { status, out, diag } = run_on(alloc, words, text)?;
    assert_eq!(rt; out.bytes(), b"".as_slice());
    assert_eq!(rt; diag.bytes(), line.as_bytes());
    assert_eq!(rt; status, expected);
    Ok(())
}

#[test]
fn an_empty_module_is_printed_with_its_label(rt: HostRuntime) -> Result<(), Fail> {
    let printed = "\"builtin.module\"() ({\n^bb0:\n}) : () -> ()\n";
    for text in ["", "\"builtin.module\"() ({}) : () -> ()"] {
        prints(&rt, rt.alloc(), &[], text, printed)?;
    }
    Ok(())
}

#[test]
fn a_module_is_printed_in_the_layout(rt: HostRuntime) -> Result<(), Fail> {
    for text in [INC, INC_PRINTED, INC_ALONE] {
        prints(&rt, rt.alloc(), &[], text, INC_PRINTED)?;
    }
    Ok(())
}

#[test]
fn all_kinds_of_types_and_attributes_are_printed(rt: HostRuntime) -> Result<(), Fail> {
    for text in [KINDS, KINDS_PRINTED] {
        prints(&rt, rt.alloc(), &[ALLOW], text, KINDS_PRINTED)?;
    }
    Ok(())
}

#[test]
fn loops_calls_and_memory_are_printed(rt: HostRuntime) -> Result<(), Fail> {
    for text in [SUM, SUM_PRINTED] {
        prints(&rt, rt.alloc(), &[], text, SUM_PRINTED)?;
    }
    Ok(())
}

#[test]
fn a_text_that_is_no_module_is_told_by_its_byte_and_kind(rt: HostRuntime) -> Result<(), Fail> {
    for (text, line) in [
        ("x", "refused: text at 0: Expected\n"),
        ("\"builtin.modul", "refused: text at 0: OpenString\n"),
        ("\"t.x\"() : () -> ()", "refused: text at 0: ModuleShape\n"),
        (
            "\"func.func\"() <{function_type = () -> (), sym_name = \"f\"}> ({ \"t.x\"() : () -> () }) : () -> ()",
            "refused: text at 62: UnknownOperation\n",
        ),
        (
            "\"func.func\"() <{function_type = () -> (), sym_name = \"f\"}> ({ %a = \"arith.constant\"() <{value = 300 : i8}> : () -> i8 \"func.return\"() : () -> () }) : () -> ()",
            "refused: text at 96: IntegerRange\n",
        ),
        (
            "\"func.func\"() <{function_type = () -> (), sym_name = \"f\"}> ({ \"func.return\"(%a) : () -> () }) : () -> ()",
            "refused: text at 82: TypeCount\n",
        ),
        (
            "\"func.func\"() <{function_type = () -> (), sym_name = \"f\"}> ({ %a = \"arith.constant\"() <{value = 3 : i8}> : () -> i8 \"func.return\"(%a) : (i16) -> () }) : () -> ()",
            "refused: text at 136: UseType\n",
        ),
        (
            "\"func.func\"() <{function_type = () -> (), sym_name = \"f\"}> ({ %a = \"arith.constant\"() <{value = 3 : i8}> : () -> i8 \"func.return\"(%a#1) : (i8) -> () }) : () -> ()",
            "refused: text at 138: ResultIndex\n",
        ),
        (
            "\"func.func\"() <{function_type = () -> (), sym_name = \"f\"}> ({ \"func.return\"(%a) : (i8) -> () }) : () -> ()",
            "refused: text at 76: UndefinedValue\n",
        ),
        (
            "\"func.func\"() <{function_type = () -> (), sym_name = \"f\"}> ({ \"cf.br\"()[^b] : () -> () }) : () -> ()",
            "refused: text at 72: UndefinedBlock\n",
        ),
        (
            "\"func.func\"() ({}) : () ->",
            "refused: text at 26: Expected\n",
        ),
    ] {
        tells(&rt, rt.alloc(), &[], text, line, Status::Refused)?;
    }
    Ok(())
}

// A text of so many regions in one another, the module's among them.
fn nested(alloc: Global, depth: usize) -> Result<String, AllocError> {
    let mut text = String::new(alloc);
    text.push_str("\"func.func\"() <{function_type = () -> (), sym_name = \"f\"}> ({ ")?;
    for _ in 2..depth {
        text.push_str("\"t.x\"() ({ ")?;
    }
    for _ in 2..depth {
        text.push_str("}) : () -> () ")?;
    }
    text.push_str("\"func.return\"() : () -> () }) : () -> ()")?;
    Ok(text)
}

#[test]
fn regions_are_read_up_to_a_depth(rt: HostRuntime) -> Result<(), Fail> {
    let deep = nested(rt.alloc(), 64)?;
    let Answer { status, .. } = run_on(rt.alloc(), &[ALLOW], &deep)?;
    assert_eq!(rt; status, Status::Ok);
    let deeper = nested(rt.alloc(), 65)?;
    let line = "limit: region depth 64\n";
    tells(&rt, rt.alloc(), &[ALLOW], &deeper, line, Status::Limit)?;
    Ok(())
}

#[test]
fn the_pass_converts_constants_and_additions(rt: HostRuntime) -> Result<(), Fail> {
    prints(&rt, rt.alloc(), &[CONVERT], INC, INC_CONVERTED)?;
    prints(&rt, rt.alloc(), &[ALLOW, CONVERT], THREE, THREE_CONVERTED)?;
    prints(
        &rt,
        rt.alloc(),
        &["--pass-pipeline=builtin.module()"],
        INC,
        INC_PRINTED,
    )?;
    Ok(())
}

#[test]
fn a_pass_that_fails_is_told_and_the_module_is_printed(rt: HostRuntime) -> Result<(), Fail> {
    let Answer { status, out, diag } = run_on(rt.alloc(), &[CONVERT], ROUNDED)?;
    assert_eq!(rt; out.bytes(), ROUNDED.as_bytes());
    assert_eq!(rt; diag.bytes(), ROUNDED_TOLD.as_bytes());
    assert_eq!(rt; status, Status::PassFailed);
    Ok(())
}

#[test]
fn a_fault_of_the_second_output_leaves_the_first_whole(rt: HostRuntime) -> Result<(), Fail> {
    let mut words = Words::new(rt.alloc());
    words.push(rt.alloc(), CONVERT)?;
    let mut input = SureSource::new(Vec::from_slice(rt.alloc(), ROUNDED.as_bytes())?);
    let mut out = SureSink::new(rt.alloc());
    let mut diag = MemSink::new(rt.alloc(), vec![in rt.alloc(); 0]?);
    let status = run_single(rt.alloc(), &words, &mut input, &mut out, &mut diag);
    assert_eq!(rt; status, Status::WriteFault);
    assert_eq!(rt; out.bytes(), ROUNDED.as_bytes());
    assert_eq!(rt; diag.bytes(), b"".as_slice());
    Ok(())
}

#[test]
fn a_pipeline_is_refused_before_the_input_is_read(rt: HostRuntime) -> Result<(), Fail> {
    let mut words = Words::new(rt.alloc());
    words.push(
        rt.alloc(),
        "--pass-pipeline=builtin.module(convert-scf-to-cf",
    )?;
    let mut input = MemSource::new(Vec::new(rt.alloc()), vec![in rt.alloc(); 0]?);
    let mut out = SureSink::new(rt.alloc());
    let mut diag = SureSink::new(rt.alloc());
    let status = run_single(rt.alloc(), &words, &mut input, &mut out, &mut diag);
    assert_eq!(rt; status, Status::Usage);
    assert_eq!(rt;
        diag.bytes(),
        b"usage: pipeline at 32: Expected\n".as_slice()
    );
    Ok(())
}

#[test]
fn words_that_are_no_command_are_told(rt: HostRuntime) -> Result<(), Fail> {
    let line = "usage: the words are not in the command set\n";
    for words in [
        ["x", ALLOW],
        [ALLOW, ALLOW],
        [CONVERT, CONVERT],
        [CONVERT, ""],
    ] {
        tells(&rt, rt.alloc(), &words, INC, line, Status::Usage)?;
    }
    Ok(())
}

// The word without its character at `at`, or with another one there.
fn word_away(alloc: Global, word: &str, at: usize, with: &str) -> Result<String, AllocError> {
    let mut changed = String::new(alloc);
    for (index, c) in word.chars().enumerate() {
        if index == at {
            changed.push_str(with)?;
        } else {
            changed.push(c)?;
        }
    }
    Ok(changed)
}

#[test]
fn words_one_character_away_are_faulty(rt: HostRuntime) -> Result<(), Fail> {
    for word in ["--pass-pipeline=builtin.module()", CONVERT, ALLOW] {
        for at in 0..word.len() {
            for with in ["", "*"] {
                let changed = word_away(rt.alloc(), word, at, with)?;
                let Answer { status, .. } = run_on(rt.alloc(), &[changed.as_str()], "")?;
                assert_eq!(rt; status, Status::Usage, "{changed}");
            }
        }
    }
    Ok(())
}

#[test]
fn a_byte_over_the_limit_is_told(rt: HostRuntime) -> Result<(), Fail> {
    let mut input = SureSource::new(vec![in rt.alloc(); b' '; (1 << 24) + 1]?);
    let mut out = SureSink::new(rt.alloc());
    let mut diag = SureSink::new(rt.alloc());
    let words = Words::new(rt.alloc());
    let status = run_sure(rt.alloc(), &words, &mut input, &mut out, &mut diag);
    assert_eq!(rt; status, Status::Limit);
    assert_eq!(rt; diag.bytes(), b"limit: input 16777216\n".as_slice());
    Ok(())
}

#[test]
fn each_call_that_fails_is_told_by_its_status(rt: HostRuntime) -> Result<(), Fail> {
    for (text, read, write, warn, expected) in [
        (INC, 9, 9, 9, Status::Ok),
        (INC, 0, 9, 9, Status::ReadFault),
        (INC, 1, 9, 9, Status::ReadFault),
        (INC, 2, 9, 9, Status::Ok),
        (INC, 9, 0, 9, Status::WriteFault),
        (INC, 9, 1, 9, Status::Ok),
        ("x", 9, 9, 0, Status::WriteFault),
        ("x", 9, 0, 9, Status::Refused),
        ("x", 9, 9, 1, Status::Refused),
    ] {
        let bytes = Vec::from_slice(rt.alloc(), text.as_bytes())?;
        let mut input = MemSource::new(bytes, vec![in rt.alloc(); read]?);
        let mut out = MemSink::new(rt.alloc(), vec![in rt.alloc(); write]?);
        let mut diag = MemSink::new(rt.alloc(), vec![in rt.alloc(); warn]?);
        let words = Words::new(rt.alloc());
        let status = run_single(rt.alloc(), &words, &mut input, &mut out, &mut diag);
        assert_eq!(rt; status, expected, "{text} at {read}, {write}, {warn}");
        if status != Status::Ok {
            assert_eq!(rt; out.bytes(), b"".as_slice());
        }
    }
    Ok(())
}

#[test]
fn the_codes_are_in_order(rt: HostRuntime) {
    for (status, code) in [
        (Status::Ok, 0),
        (Status::Usage, 1),
        (Status::Refused, 2),
        (Status::PassFailed, 3),
        (Status::ReadFault, 4),
        (Status::WriteFault, 5),
        (Status::NoMemory, 6),
        (Status::Limit, 7),
    ] {
        assert_eq!(rt; status.code(), code);
    }
}
