//! Events: the words of a text at their places in the grammar, each with a number for what it spells.
#![tactic(auto)]

ghost use Rattle.text_events.specs.Laws.{ReadsOnce};

mod alias;
mod ending;
mod event;
mod event_list;
mod look;
mod naming;
mod source;
mod spelling;

pub use ending::{EndKind, Ending, find_ending};
pub use event::Event;
pub use event_list::events;
pub use look::{Look, Refusal, look_at};
pub use naming::names;
pub use source::{Source, spelled_word};

/// A text is read in one way: each of its words stands at one place.
pub fn law_one_reading()
    ensures { ReadsOnce }
{}

#[cfg(test)]
mod tests;
