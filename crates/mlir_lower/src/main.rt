//! The program: reads a module from standard input and prints it on standard output; what refuses it
//! goes to standard error.
#![tactic(auto)]

use edge_kit::{StdSink, StdSource, Words};
use std::process::ExitCode;
use std::{env, io};
use tool_cli::{Status, run_single};

fn main(rt: HostRuntime) -> ExitCode {
    let Ok(args) = env::args(&rt) else {
        let _ = rt.eprintln("usage: the words are not in the command set");
        return ExitCode::from(Status::Usage.code());
    };
    let mut words = Words::new(rt.alloc());
    for word in args.skip(1) {
        if words.push(rt.alloc(), word.as_str()).is_err() {
            return ExitCode::from(Status::NoMemory.code());
        }
    }
    let mut input = StdSource::new(rt.reader());
    let mut out = StdSink::new(io::writer(&rt));
    let errors = rt.stderr();
    let mut diag = StdSink::new(io::writer(&errors));
    let status = run_single(rt.alloc(), &words, &mut input, &mut out, &mut diag);
    ExitCode::from(status.code())
}
