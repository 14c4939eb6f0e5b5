//! The versions of the formats.

ghost use Rattle.std.specs.Prelude.{◌≡◌};
ghost use Rattle.td_frames.specs.Reading.{head_size};

/// The formats in which entries are spelled. In the first one an entry's frame has no dialect, and the entry is of the
/// first dialect. Only the second one is written.
#[derive(Clone, Copy, PartialEq, Eq)]
pub enum Version {
    First,
    Second,
}

impl Version {
    /// How many bytes an entry's fields before its text have.
    pub(crate) fn head_size(self) -> usize
        ensures { result ≡ head_size self }
    {
        match self {
            Version::First => 16,
            Version::Second => 17,
        }
    }
}
