//! The reply before it is written.

ghost use Rattle.std.specs.Prelude.{◌≡◌, IfOk};
ghost use Rattle.tool_cli.specs.Told.{ran, refusal, status_behind};

use crate::status::Status;
use std::alloc::Global;
use std::marker::Model;
use tree_model::{Bytes, NoMemory};

/// The text for each output, and the status.
#[derive(Drop)]
pub struct Prepared {
    pub out: Vec<u8>,
    pub diag: Vec<u8>,
    pub status: Status,
}

impl Model for Prepared {
    ghost use Rattle.tool_cli.specs.Told.{Reply};

    ghost Value = { Reply };

    ghost view = { λ p. record { out = p.out.items; diag = p.diag.items; status = p.status } };
}

/// Nothing on `out`, and the line of `text` on `diag`.
pub fn refuse(alloc: Global, status: Status, text: &str) -> Result<Prepared, NoMemory>
    ensures { IfOk result (λ p. p ≡ refusal status text.now) }
{
    let line = Bytes::from_slice(alloc, text.as_bytes())?;
    refuse_line(alloc, status, line)
}

/// Nothing on `out`, and the line on `diag`.
pub fn refuse_line(alloc: Global, status: Status, mut line: Bytes) -> Result<Prepared, NoMemory>
    ensures { IfOk result (λ p. p ≡ refusal status line) }
{
    line.put_byte(b'\n')?;
    Ok(Prepared {
        out: Vec::new(alloc),
        diag: line.into_vec(),
        status,
    })
}

/// `text` on `out`, and the lines on what failed on `diag`.
pub fn ran(text: Vec<u8>, lines: Bytes, failed: bool) -> Prepared
    ensures { result ≡ ran text.items lines failed }
{
    Prepared {
        out: text,
        diag: lines.into_vec(),
        status: status_behind(failed),
    }
}

fn status_behind(failed: bool) -> Status
    ensures { result ≡ status_behind failed }
{
    if failed {
        Status::PassFailed
    } else {
        Status::Ok
    }
}
