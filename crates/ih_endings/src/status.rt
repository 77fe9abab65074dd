//! How a call of the program ends.

ghost use Rattle.std.specs.Prelude.{◌≡◌};
ghost use Rattle.ih_endings.specs.Codes.{code_of};

use ih_tables::{JournalRefusal, Refusal};

/// What a file is to the command that reads or writes it.
#[derive(Clone, Copy, Debug, PartialEq, Eq)]
pub enum Role {
    Instance,
    /// A solution that a command reads: where it starts, or what it checks, shows or compares with.
    Solution,
    Journal,
    Out,
}

/// How a call of the program ends.
#[derive(Clone, Copy, Debug, PartialEq, Eq)]
pub enum Status {
    /// All was written and said.
    Done,
    /// The words name no call.
    Usage,
    /// A file couldn't be read.
    ReadFault(Role),
    /// The instance is refused. This is its first fault.
    InstanceRefused(Refusal),
    /// A solution that a command reads is refused, whether it is a start or not. This is its first fault.
    StartRefused(Refusal),
    /// The search, or the history of the journal, met no feasible timetable.
    NoneFound,
    /// A file could not be written; with no role, it is the text that could not be put out.
    WriteFault(Option<Role>),
    /// Memory ran out.
    OutOfMemory,
    /// The journal's first line that isn't the legal next one, and why.
    JournalRefused(JournalRefusal),
    /// The solution that was judged breaks a hard rule, or no timetable is feasible.
    Infeasible,
    /// A file is longer than its limit.
    TooLong(Role),
}

impl Status {
    /// The exit code: one for each status, whatever it carries.
    pub fn code(&self) -> u8
        ensures { result ≡ code_of self.now }
    {
        match self {
            Status::Done => 0,
            Status::Usage => 1,
            Status::ReadFault(_) => 2,
            Status::InstanceRefused(_) => 3,
            Status::StartRefused(_) => 4,
            Status::NoneFound => 5,
            Status::WriteFault(_) => 6,
            Status::OutOfMemory => 7,
            Status::JournalRefused(_) => 8,
            Status::Infeasible => 9,
            Status::TooLong(_) => 10,
        }
    }
}
