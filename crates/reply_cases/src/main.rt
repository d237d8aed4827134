//! Prints what the program replies to each case of standard input: its status, what it writes, and what it tells.
//!
//! A case is a line `-- NAME: WORDS` with the words of the command, and behind it the text, up to the next such line. Where the name ends
//! with `, cut` the text has no line feed at its end. What stands before the first case is a comment. A reply is a line `-- NAME: STATUS`,
//! what went to standard output, and the lines of standard error, each behind `! `. The replies that must be printed were written by hand
//! from docs/LANGUAGE.md and docs/OPERATIONS.md, and not by these crates.
#![tactic(auto)]

mod cases;
mod replies;

use cases::case_of;
use replies::{Reply, reply_to};
use std::io;
use std::io::Write;

/// Writes the reply to the case of this piece of the input.
fn write_case(rt: &HostRuntime, piece: &str) -> io::Result<()> {
    let case = case_of(piece);
    let Ok(reply) = reply_to(rt.alloc(), &case) else {
        return println!(rt; "-- {}: no memory", case.name);
    };
    println!(rt; "-- {}: {}", case.name, reply.status.code())?;
    write_reply(rt, &reply)
}

/// Writes what went to both outputs.
fn write_reply(rt: &HostRuntime, reply: &Reply) -> io::Result<()> {
    let mut writer = io::writer(rt);
    writer.write_all(reply.out.bytes())?;
    for line in reply.diag.bytes().split_inclusive(|byte| *byte == b'\n') {
        writer.write_all(b"! ")?;
        writer.write_all(line)?;
    }
    Ok(())
}

fn main(rt: HostRuntime) -> io::Result<()> {
    let input = io::read_to_string(rt.alloc(), rt.stdin())?;
    let input = input.as_str();
    let cases = input.strip_suffix('\n').unwrap_or(input);
    for piece in cases.split("\n-- ").skip(1) {
        write_case(&rt, piece)?;
    }
    Ok(())
}
