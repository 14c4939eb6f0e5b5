//! What a line is answered.

/// What a line is answered. Each text ends with a line feed, but for that of the empty line, which is empty.
#[derive(Drop)]
pub enum Reply {
    Text(String),
    /// Comma-separated values.
    Table(Vec<u8>),
    /// A text that took no memory.
    Fixed(&'static str),
    /// Nothing is answered, and the workbench ends.
    Quit,
}
