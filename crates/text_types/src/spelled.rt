//! What words spell.

ghost use Rattle.std.specs.Prelude.{◌≡◌};
ghost use Rattle.text_types.specs.Spelling.{Spelling};

/// The words of a text, by the numbers of their names.
pub trait Spelled {
    ghost spelling: { Self → Spelling };

    /// The width of an integer type, and none for `index`.
    fn width(&self, name: u32) -> Option<u32>
        ensures { result ≡ (spelling self.now).width name };

    /// The size of a dimension, and none for `?`.
    fn size(&self, name: u32) -> Option<u128>
        ensures { result ≡ (spelling self.now).size name };

    /// The value of a number.
    fn number(&self, name: u32) -> u128
        ensures { result ≡ (spelling self.now).number name };

    /// Whether a plain llvm type is `void`.
    fn is_void(&self, name: u32) -> bool
        ensures { result ≡ (spelling self.now).is_void name };
}
