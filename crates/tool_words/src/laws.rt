//! Laws of the words, each the contract of a function that does nothing.

ghost use Rattle.std.specs.Prelude.{List, ℕ};
ghost use Rattle.tool_words.specs.Reading.{words_read};
ghost use Rattle.tool_words.specs.Examples.{Examples};
ghost use Rattle.tool_words.specs.Promises.{HasLittleFuel, IsPipelineOf};

/// What some words are read as: each option, and each mistake.
pub fn law_examples()
    ensures { Examples }
{}

/// A run that words ask for has no more than a million units of fuel.
pub fn law_little_fuel()
    ensures { (words : List (List ℕ)) → HasLittleFuel (words_read words) }
{}

/// The pipeline that words are read with is what the grammar of pipelines says of its text.
pub fn law_pipeline_of()
    ensures { (text : List ℕ) → IsPipelineOf text }
{}
