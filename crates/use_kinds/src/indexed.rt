//! What words spell, with the indexes of uses.

ghost use Rattle.std.specs.Prelude.{◌≡◌, ℕ};

use text_types::Spelled;

/// The words of a text, with the indexes behind `#`.
pub trait Indexed: Spelled {
    ghost indexes: { Self → ℕ → ℕ };

    /// The index that a word spells.
    fn index(&self, name: u32) -> u128
        ensures { result ≡ indexes self.now name };
}
