//! How a command ends: its exit status, and a line for standard error.

use std::alloc::AllocError;

/// The ends of a command, each an exit status.
#[derive(Clone, Copy, PartialEq, Eq)]
pub enum Exit {
    /// all threads ended, or the file is written
    Good,
    /// a thread ended by an exception
    Exception,
    /// refused input
    Refused,
    /// a fault of the program
    Fault,
    /// a limit was reached
    Limit,
    /// threads live and none is ready
    Stuck,
    /// want of memory, a file, or a thread that can't be started
    System,
    /// no command line
    CommandLine,
    /// a run differs from the ideal run of its program
    Differs,
}

impl Exit {
    /// The exit status.
    pub fn status(self) -> u8 {
        match self {
            Exit::Good => 0,
            Exit::Exception => 1,
            Exit::Refused => 2,
            Exit::Fault => 3,
            Exit::Limit => 4,
            Exit::Stuck => 5,
            Exit::System => 6,
            Exit::CommandLine => 7,
            Exit::Differs => 8,
        }
    }
}

/// An end, and the line that goes to standard error after `jvm: `. A good end may have none, and a limit; of any other
/// end that has none the line is `memory`.
#[derive(Drop)]
pub struct Ending {
    pub exit: Exit,
    pub line: Option<String>,
}

impl Ending {
    /// A good end.
    pub fn good() -> Ending {
        Ending {
            exit: Exit::Good,
            line: None,
        }
    }

    /// A limit that was told already. It takes no memory.
    pub fn cut_off() -> Ending {
        Ending {
            exit: Exit::Limit,
            line: None,
        }
    }

    /// This end and this line; `jvm: memory` where there is no memory for the line.
    pub fn reported(exit: Exit, line: Result<String, AllocError>) -> Ending {
        match line {
            Ok(line) => Ending {
                exit,
                line: Some(line),
            },
            Err(_) => Ending::memory(),
        }
    }

    /// Memory ran out.
    pub fn memory() -> Ending {
        Ending {
            exit: Exit::System,
            line: None,
        }
    }
}

impl From<AllocError> for Ending {
    fn from(_error: AllocError) -> Ending {
        Ending::memory()
    }
}
