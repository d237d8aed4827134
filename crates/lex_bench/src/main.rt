//! Counts the tokens of standard input, once or as often as the first argument says.
#![tactic(auto)]

ghost use Rattle.std.specs.Prelude.{◌≤◌, ◌^◌, length};

use mlir_lex::Lexer;
use std::io::Read;
use std::{env, io};

/// The most bytes that are read.
const MAX_TEXT: usize = 16777216;

/// How many tokens the text has, up to its end or its first fault.
fn token_count(text: &[u8]) -> usize
    requires { length text.now ≤ 2 ^ 24 }
{
    let mut lexer = Lexer::new(text);
    for count in 0..text.len() {
        let Ok(Some(_)) = lexer.next() else {
            return count;
        };
    }
    text.len()
}

fn main(rt: HostRuntime) -> io::Result<()> {
    let mut rounds = 1;
    for word in env::args(&rt)?.skip(1) {
        rounds = word.parse().unwrap_or(1);
    }
    let mut text = Vec::new(rt.alloc());
    rt.stdin().take(MAX_TEXT as u64).read_to_end(&mut text)?;
    if text.len() > MAX_TEXT {
        return Ok(());
    }
    let mut count = 0;
    for _ in 0..rounds {
        count = token_count(&text);
    }
    println!(rt; "{count} tokens")
}
