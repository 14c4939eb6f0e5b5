//! How a program ends.

/// How a program ends; as a number it is the exit status.
#[derive(Clone, Copy, Debug, PartialEq, Eq)]
pub enum ExitStatus {
    Success = 0,
    /// A fault, a script that is refused, or too little memory.
    Fault = 1,
    /// Words of the command line that are refused, or a script that cannot be read.
    BadWords = 2,
    /// A journal that cannot be used.
    BadJournal = 3,
}
