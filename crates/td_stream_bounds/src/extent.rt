//! How far something reaches.

/// How far something reaches that begins at the front of some bytes.
#[derive(Clone, Copy, Debug, PartialEq, Eq)]
pub enum Extent {
    /// It ends in bytes that have not come.
    Open,
    /// It ends in front of the byte at this offset.
    Whole(usize),
    /// No bytes that follow make it whole.
    Never,
}
