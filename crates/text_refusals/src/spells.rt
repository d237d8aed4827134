//! What the words of a text spell, for its types.

ghost use Rattle.text_refusals.specs.Spelling.{indexes_of, spelling_of};

use text_events::Source;
use text_types::Spelled;
use use_kinds::Indexed;

/// The words of a text, as its types ask for them.
#[derive(Clone, Copy, Drop)]
pub struct Spells<'t> {
    pub source: Source<'t>,
}

impl<'t> Spelled for Spells<'t> {
    ghost spelling = { λ s. spelling_of s.source.text.now s.source.words.now };

    fn width(&self, name: u32) -> Option<u32> {
        self.source.width(name)
    }

    fn size(&self, name: u32) -> Option<u128> {
        self.source.size(name)
    }

    fn number(&self, name: u32) -> u128 {
        self.source.number(name)
    }

    fn is_void(&self, name: u32) -> bool {
        self.source.is_void(name)
    }
}

impl<'t> Indexed for Spells<'t> {
    ghost indexes = { λ s. indexes_of s.source.text.now s.source.words.now };

    fn index(&self, name: u32) -> u128 {
        self.source.index(name)
    }
}
