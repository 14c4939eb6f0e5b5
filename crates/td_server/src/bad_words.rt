//! Why words are refused that fit the options.

use std::alloc::{AllocError, AllocFailed, Global};

/// Why words are refused that fit the options.
#[derive(Clone, Copy)]
pub(crate) enum BadWords<'a> {
    OutOfMemory,
    /// The word of an option is no address.
    NoAddress { option: &'static str, word: &'a str },
    /// A word of `--host` is no name of a host.
    NoHost(&'a str),
    /// Browsers and programs of other machines reach the server, and no name is given by which they ask for it.
    NoHosts(&'a str),
    /// This is no name of a token.
    NoName(&'a str),
    /// This is no word for rights.
    NoRights(&'a str),
}

impl From<AllocError> for BadWords<'_> {
    fn from(_e: AllocError) -> Self {
        BadWords::OutOfMemory
    }
}

impl<T: Drop> From<AllocFailed<T>> for BadWords<'_> {
    fn from(_e: AllocFailed<T>) -> Self {
        BadWords::OutOfMemory
    }
}

impl BadWords<'_> {
    // Appends what is wrong, and what to give.
    fn push(self, text: &mut String) -> Result<(), AllocError> {
        match self {
            BadWords::OutOfMemory => Ok(()),
            BadWords::NoAddress { option, word } => {
                writeln!(text, "error: --{option} {word}: this is no address")
            }
            BadWords::NoHost(word) => writeln!(
                text,
                "error: --host {word}: this is no host; give NAME or NAME:PORT as browsers show it, of letters, digits, . and -, or an address"
            ),
            BadWords::NoHosts(word) => writeln!(
                text,
                "error: --clients {word}: browsers ask for the server there by a name that it does not know, and it would refuse them; give each name by --host NAME[:PORT]"
            ),
            BadWords::NoName(word) => writeln!(
                text,
                "error: {word}: this is no name of a token; give 1 to 32 letters of a to z, digits, blanks, . and -, no blank first or last"
            ),
            BadWords::NoRights(word) => writeln!(
                text,
                "error: {word}: these are no rights; give read, write or all"
            ),
        }
    }

    /// What is said of them; empty if memory ran out.
    pub(crate) fn text(self, alloc: Global) -> String {
        let mut text = String::new(alloc);
        match self.push(&mut text) {
            Ok(()) => text,
            Err(_) => String::new(alloc),
        }
    }
}
