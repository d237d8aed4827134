//! The replies of the program.

use crate::cases::Case;
use edge_kit::{SureSink, SureSource, Words};
use std::alloc::{AllocError, Global};
use tool_cli::{Status, run_sure};

/// The reply to a case: the status, and what went to both outputs.
#[derive(Drop)]
pub struct Reply {
    pub status: Status,
    pub out: SureSink,
    pub diag: SureSink,
}

/// The words of a command.
fn words_of(alloc: Global, line: &str) -> Result<Words, AllocError> {
    let mut words = Words::new(alloc);
    for word in line.split_whitespace() {
        words.push(alloc, word)?;
    }
    Ok(words)
}

/// What the program replies to a case.
pub fn reply_to(alloc: Global, case: &Case<'_>) -> Result<Reply, AllocError> {
    let words = words_of(alloc, case.words)?;
    let mut input = SureSource::new(case.text(alloc)?);
    let mut out = SureSink::new(alloc);
    let mut diag = SureSink::new(alloc);
    let status = run_sure(alloc, &words, &mut input, &mut out, &mut diag);
    Ok(Reply { status, out, diag })
}
