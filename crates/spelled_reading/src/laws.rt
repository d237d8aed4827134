//! Laws of bytes, each the contract of a function that does nothing.

ghost use Rattle.spelled_reading.specs.Bytes.{ReadIsInBytes, WordsAreInBytes};

/// In a text of bytes each word spells bytes, whatever its escapes are.
pub fn law_words_are_in_bytes()
    ensures { WordsAreInBytes }
{}

/// Where words spell bytes, all names and strings of the module that the events denote are of bytes.
pub fn law_read_is_in_bytes()
    ensures { ReadIsInBytes }
{}
