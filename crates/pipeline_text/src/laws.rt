//! Laws of pipeline texts, each the contract of a function that does nothing.

ghost use Rattle.pipeline_text.specs.Promises.{NoOptionInTexts, OneAnswer, PrintedReadsAgain, RunsAreWords};

/// The printed text of what a text reads as reads as the same, so printing that again gives the same text.
pub fn law_printed_reads_again()
    ensures { PrintedReadsAgain }
{}

/// A text is one pipeline, or is refused at one place as one kind.
pub fn law_one_answer()
    ensures { OneAnswer }
{}

/// A longest run of bytes of words is one token.
pub fn law_runs_are_words()
    ensures { RunsAreWords }
{}

/// No token of a text is the name of an option of a pass that has none.
pub fn law_no_option_in_texts()
    ensures { NoOptionInTexts }
{}
