//! Pipeline texts, read and printed.

use pipeline_text::{
    Anchor, PassName, PassUse, Pipeline, PipelineKind, PipelineRefusal, Stage, print_pipeline,
    read_pipeline,
};
use sqlite_items::Items;
use std::alloc::Global;
use std::process::Abort;
use std::test::Fail;

/// The text of two parts, one behind the other.
fn joined(alloc: Global, front: &[u8], back: &[u8]) -> Result<Vec<u8>, Fail> {
    let mut text = Vec::from_slice(alloc, front)?;
    text.extend_from_slice(back)?;
    Ok(text)
}

/// Each text is refused where its second part begins.
#[test]
fn refused_texts_with_their_places(rt: HostRuntime) -> Result<(), Fail> {
    let refused: [(&str, &str, PipelineKind); 48] = [
        ("", "", PipelineKind::Expected),
        ("", "builtin", PipelineKind::Expected),
        ("", "(", PipelineKind::Expected),
        ("builtin.module", "", PipelineKind::Expected),
        ("builtin.module ", ")", PipelineKind::Expected),
        ("builtin.module(", "", PipelineKind::Expected),
        (
            "builtin.module(convert-scf-to-cf",
            "",
            PipelineKind::Expected,
        ),
        (
            "builtin.module(func.func(",
            "full-convert-to-llvm))",
            PipelineKind::WrongAnchor,
        ),
        (
            "builtin.module(arith-expand{",
            "x=1})",
            PipelineKind::UnknownOption,
        ),
        ("builtin.module(", "foo)", PipelineKind::UnknownPass),
        ("builtin.module(", "foo", PipelineKind::UnknownPass),
        (
            "builtin.module(",
            "index-bitwidth)",
            PipelineKind::UnknownPass,
        ),
        ("builtin.module(", "0)", PipelineKind::UnknownPass),
        (
            "builtin.module(",
            "builtin.module())",
            PipelineKind::UnknownPass,
        ),
        (
            "builtin.module(",
            "convert-scf-to-cf.x)",
            PipelineKind::UnknownPass,
        ),
        (
            "builtin.module(",
            "Arith-expand)",
            PipelineKind::UnknownPass,
        ),
        ("builtin.module(arith-expand,", ")", PipelineKind::Expected),
        ("builtin.module(", ",arith-expand)", PipelineKind::Expected),
        (
            "builtin.module(arith-expand ",
            "arith-expand)",
            PipelineKind::Expected,
        ),
        ("builtin.module(arith-expand)", ")", PipelineKind::Expected),
        ("builtin.module() ", "x", PipelineKind::Expected),
        ("builtin.module()", "\n", PipelineKind::Expected),
        ("builtin.module(func.func", ")", PipelineKind::Expected),
        (
            "builtin.module(func.func ",
            "arith-expand)",
            PipelineKind::Expected,
        ),
        (
            "builtin.module(func.func(",
            "func.func())",
            PipelineKind::UnknownPass,
        ),
        (
            "builtin.module(llvm.func(arith-expand, ",
            "llvm.func)",
            PipelineKind::UnknownPass,
        ),
        (
            "builtin.module(llvm.func(",
            "convert-func-to-llvm)",
            PipelineKind::WrongAnchor,
        ),
        (
            "builtin.module(func.func(arith-expand,",
            "finalize-memref-to-llvm",
            PipelineKind::WrongAnchor,
        ),
        (
            "builtin.module(func.func(arith-expand)",
            "",
            PipelineKind::Expected,
        ),
        (
            "builtin.module(func.func(arith-expand,",
            "))",
            PipelineKind::Expected,
        ),
        (
            "builtin.module(convert-cf-to-llvm{",
            "})",
            PipelineKind::Expected,
        ),
        (
            "builtin.module(convert-cf-to-llvm{",
            "",
            PipelineKind::Expected,
        ),
        (
            "builtin.module(convert-cf-to-llvm{",
            "x",
            PipelineKind::UnknownOption,
        ),
        (
            "builtin.module(convert-cf-to-llvm{index-bitwidth",
            "})",
            PipelineKind::Expected,
        ),
        (
            "builtin.module(convert-cf-to-llvm{index-bitwidth=",
            "7",
            PipelineKind::BadValue,
        ),
        (
            "builtin.module(convert-cf-to-llvm{index-bitwidth=",
            "064})",
            PipelineKind::BadValue,
        ),
        (
            "builtin.module(convert-cf-to-llvm{index-bitwidth=",
            "-0})",
            PipelineKind::BadValue,
        ),
        (
            "builtin.module(convert-cf-to-llvm{index-bitwidth=",
            "32})",
            PipelineKind::BadValue,
        ),
        (
            "builtin.module(convert-cf-to-llvm{index-bitwidth=",
            "})",
            PipelineKind::Expected,
        ),
        (
            "builtin.module(convert-cf-to-llvm{index-bitwidth=0",
            "",
            PipelineKind::Expected,
        ),
        (
            "builtin.module(convert-cf-to-llvm{index-bitwidth=0 ",
            "index-bitwidth=0})",
            PipelineKind::BadValue,
        ),
        (
            "builtin.module(convert-cf-to-llvm{index-bitwidth=64 ",
            "index-bitwidth",
            PipelineKind::BadValue,
        ),
        (
            "builtin.module(convert-cf-to-llvm{index-bitwidth=0 ",
            "x=0})",
            PipelineKind::UnknownOption,
        ),
        (
            "builtin.module(convert-cf-to-llvm{index-bitwidth=0",
            ",index-bitwidth=0})",
            PipelineKind::Expected,
        ),
        (
            "builtin.module(arith-expand{",
            "index-bitwidth=0})",
            PipelineKind::UnknownOption,
        ),
        (
            "builtin.module(reconcile-unrealized-casts{",
            "})",
            PipelineKind::Expected,
        ),
        (
            "builtin.module(convert-cf-to-llvm{index-bitwidth=0}",
            "{index-bitwidth=0})",
            PipelineKind::Expected,
        ),
        ("\t builtin.module(", "\u{e9})", PipelineKind::Expected),
    ];
    for (front, rest, kind) in refused {
        let text = joined(rt.alloc(), front.as_bytes(), rest.as_bytes())?;
        let wanted = PipelineRefusal::At {
            place: front.len() as u64,
            kind,
        };
        assert_eq!(rt;
            read_pipeline(rt.alloc(), &text).err(),
            Some(wanted),
            "at {front}|{rest}"
        );
    }
    Ok(())
}

#[test]
fn accepted_texts_and_how_they_are_printed(rt: HostRuntime) -> Result<(), Fail> {
    let accepted = [
        ("builtin.module()", "builtin.module()"),
        (" builtin.module\t( ) ", "builtin.module()"),
        ("builtin.module(func.func())", "builtin.module(func.func())"),
        (
            "builtin.module(convert-scf-to-cf)",
            "builtin.module(convert-scf-to-cf)",
        ),
        (
            "builtin.module( func.func( arith-expand , convert-arith-to-llvm { index-bitwidth = 64 } ) , full-convert-to-llvm{index-bitwidth=0})",
            "builtin.module(func.func(arith-expand,convert-arith-to-llvm),full-convert-to-llvm)",
        ),
        (
            "builtin.module(llvm.func(reconcile-unrealized-casts),finalize-memref-to-llvm,convert-func-to-llvm)",
            "builtin.module(llvm.func(reconcile-unrealized-casts),finalize-memref-to-llvm,convert-func-to-llvm)",
        ),
    ];
    for (text, wanted) in accepted {
        let pipeline = read_pipeline(rt.alloc(), text.as_bytes())?;
        let printed = print_pipeline(rt.alloc(), &pipeline)?;
        assert!(rt; printed.as_slice() == wanted.as_bytes(), "{text}");
    }
    Ok(())
}

/// Each pass in the module's list and in both nested ones, with the option and without.
#[test]
fn each_pass_where_it_may_stand(rt: HostRuntime) -> Result<(), Fail> {
    let passes = [
        ("convert-scf-to-cf", true, false),
        ("arith-expand", true, false),
        ("convert-arith-to-llvm", true, true),
        ("convert-cf-to-llvm", true, true),
        ("convert-func-to-llvm", false, true),
        ("finalize-memref-to-llvm", false, true),
        ("reconcile-unrealized-casts", true, false),
        ("full-convert-to-llvm", false, true),
    ];
    for (name, nests, has_option) in passes {
        let option = if has_option {
            None
        } else {
            Some(PipelineKind::UnknownOption)
        };
        let nested = if nests {
            None
        } else {
            Some(PipelineKind::WrongAnchor)
        };
        let both = if nests { option } else { nested };
        let places = [
            ("builtin.module(", ")", None),
            ("builtin.module(", "{index-bitwidth=0})", option),
            ("builtin.module(func.func(", "))", nested),
            ("builtin.module(func.func(", "{index-bitwidth=64}))", both),
            ("builtin.module(llvm.func(", "))", nested),
            ("builtin.module(llvm.func(", "{index-bitwidth=0}))", both),
        ];
        for (front, back, wanted) in places {
            let mut text = joined(rt.alloc(), front.as_bytes(), name.as_bytes())?;
            text.extend_from_slice(back.as_bytes())?;
            let kind = match read_pipeline(rt.alloc(), &text) {
                Err(PipelineRefusal::At { kind, .. }) => Some(kind),
                _ => None,
            };
            assert_eq!(rt; kind, wanted, "{front}{name}{back}");
        }
    }
    Ok(())
}

#[test]
fn narrow_passes_are_printed_with_their_option(rt: HostRuntime) -> Result<(), Fail> {
    let narrow = PassUse {
        pass: PassName::ConvertArithToLlvm,
        bits: 32,
    };
    let wide = PassUse {
        pass: PassName::ArithExpand,
        bits: 64,
    };
    let passes = Items::from_slice(rt.alloc(), &[wide, narrow])?;
    let mut stages = Items::new(rt.alloc());
    stages.push(Stage::Each(Anchor::LlvmFunc, passes))?;
    stages.push(Stage::Whole(narrow))?;
    let printed = print_pipeline(rt.alloc(), &Pipeline { stages })?;
    let wanted =
        b"builtin.module(llvm.func(arith-expand,convert-arith-to-llvm{index-bitwidth=32}),convert-arith-to-llvm{index-bitwidth=32})";
    assert!(rt; printed.as_slice() == wanted.as_slice());
    Ok(())
}
