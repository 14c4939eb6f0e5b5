//! Whether a site may be changed.

/// Whether a site may be changed.
#[derive(Clone, Copy)]
pub(crate) enum Access {
    /// It issues statements and takes those of others.
    Open,
    /// It issues statements and takes those of others. Once it has issued one it meets no site, since no journal keeps
    /// the number of that one, and a later start would give it to another.
    Unkept {
        /// How many statements of its own number came in meetings. What it holds of these beyond them it has issued.
        received: usize,
    },
    /// It issues none until it has met another site, which may have what its journal lacks.
    Lacking,
    /// It issues none and meets no site.
    ReadOnly,
}
