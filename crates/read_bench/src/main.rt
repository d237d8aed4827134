//! Looks at the text of standard input: its words, their places, names and events, and where looking ends.
#![tactic(auto)]

ghost use Rattle.std.specs.Prelude.{◌≤◌, ◌^◌, length};

use std::alloc::{AllocError, Global};
use std::io;
use std::io::Read;
use text_events::{Ending, events, find_ending, look_at, names};
use text_grammar::cut;

/// The most bytes that are read.
const MAX_TEXT: usize = 16777216;

/// How many events the text has, and where looking at it ends.
fn look(alloc: Global, text: &[u8]) -> Result<(usize, Option<Ending>), AllocError>
    requires { length text.now ≤ 2 ^ 24 }
{
    let cut = cut(alloc, text)?;
    let names = names(alloc, text, &cut.words)?;
    if names.len() != cut.words.len() {
        return Ok((0, None));
    }
    let look = look_at(alloc, &cut.words, &names)?;
    let events = events(alloc, &look.places, &names)?;
    let end = find_ending(text.len(), &cut.words, cut.fault, &look);
    Ok((events.len(), end))
}

fn main(rt: HostRuntime) -> io::Result<()> {
    let mut text = Vec::new(rt.alloc());
    rt.stdin().take(MAX_TEXT as u64).read_to_end(&mut text)?;
    if text.len() > MAX_TEXT {
        return Ok(());
    }
    let Ok((count, end)) = look(rt.alloc(), &text) else {
        return println!(rt; "no memory");
    };
    match end {
        Some(end) => {
            let place = end.place;
            println!(rt; "{count} events, an end at {place}")
        }
        None => println!(rt; "{count} events"),
    }
}
