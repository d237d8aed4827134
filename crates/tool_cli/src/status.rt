//! The exit status of the program.

ghost use Rattle.std.specs.Prelude.{◌≡◌};

/// How a run ended. The exit status of each is its place in this list, counted from 0.
#[derive(Clone, Copy, PartialEq, Eq, Debug)]
pub enum Status {
    /// The module behind the pipeline was printed, and no pass failed.
    Ok,
    /// The words are not in the command set, or the text of the pipeline is refused.
    Usage,
    /// The text is no module, or the module breaks a rule.
    Refused,
    /// A pass failed; the module that was left is printed all the same.
    PassFailed,
    /// The input could not be read.
    ReadFault,
    /// An output could not be written.
    WriteFault,
    /// There was no memory.
    NoMemory,
    /// The input passes a limit.
    Limit,
}

impl Status {
    ghost use Rattle.std.specs.Prelude.{◌≡◌};
    ghost use Rattle.tool_cli.specs.Codes.{code_of};

    /// The exit status of the process.
    pub fn code(self) -> u8
        ensures { result ≡ code_of self }
    {
        self as u8
    }
}
