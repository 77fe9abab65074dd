//! Why the files of a call can't be had.

use ih_tables::Refusal;
use std::fmt;
use thiserror::Error;

/// Which of the files it is.
#[derive(Clone, Copy, Debug, PartialEq, Eq)]
pub enum InputRole {
    Instance,
    Solution,
    /// A second solution of the instance, with which the first is compared.
    Older,
    Journal,
    /// A second instance, to which the timetable of the first is carried.
    Next,
}

impl fmt::Display for InputRole {
    fn fmt<W: fmt::Write>(&self, f: &mut fmt::Formatter<W>) -> fmt::Result {
        f.write_str(match self {
            InputRole::Instance => "instance",
            InputRole::Solution => "solution",
            InputRole::Older => "older solution",
            InputRole::Journal => "journal",
            InputRole::Next => "new instance",
        })
    }
}

/// A file that is refused.
#[derive(Drop)]
pub struct Refused {
    /// Its first fault.
    pub refusal: Refusal,
    /// All its bytes.
    pub bytes: Vec<u8>,
}

impl fmt::Debug for Refused {
    fn fmt<W: fmt::Write>(&self, f: &mut fmt::Formatter<W>) -> fmt::Result {
        fmt::Display::fmt(&self.refusal, f)
    }
}

impl fmt::Display for Refused {
    fn fmt<W: fmt::Write>(&self, f: &mut fmt::Formatter<W>) -> fmt::Result {
        fmt::Display::fmt(&self.refusal, f)
    }
}

/// Why the files can't be had.
#[derive(Debug, Drop, Error)]
pub enum InputError {
    #[error("the {0} file cannot be read")]
    ReadFault(InputRole),
    #[error("the {0} file has more bytes than its limit")]
    TooLong(InputRole),
    /// The instance.
    #[error("instance refused: {0}")]
    InstanceRefused(Refused),
    /// The timetable.
    #[error("solution refused: {0}")]
    SolutionRefused(Refused),
    /// The older timetable.
    #[error("older solution refused: {0}")]
    OlderRefused(Refused),
    /// The instance that comes next.
    #[error("new instance refused: {0}")]
    NextRefused(Refused),
    #[error("out of memory")]
    OutOfMemory,
}
