//! What is told of a text.

use std::alloc::AllocError;

/// What is wrong with a text.
#[derive(Drop)]
pub struct Diagnostic {
    /// A byte of the text, between two characters.
    pub place: usize,
    /// A sentence, without a full stop and without the end of a line.
    pub message: String,
}

/// Why a check ends.
#[derive(Drop)]
pub(crate) enum DiagnosisError {
    Found(Diagnostic),
    OutOfMemory,
}

impl DiagnosisError {
    /// What a check that ended found.
    pub(crate) fn diagnostic(self) -> Result<Diagnostic, AllocError> {
        match self {
            DiagnosisError::Found(diagnostic) => Ok(diagnostic),
            DiagnosisError::OutOfMemory => Err(AllocError),
        }
    }
}

impl From<AllocError> for DiagnosisError {
    fn from(_e: AllocError) -> DiagnosisError {
        DiagnosisError::OutOfMemory
    }
}
