//! New secrets.

use crate::error::TokenFileError;
use std::alloc::{AllocError, Global};
use std::random::RandomSource;

/// A new secret: 128 random bits of the system, in 32 hexadecimal digits. None if the system has no random bits.
pub fn new_secret<H: RandomSource>(alloc: Global, host: &H) -> Result<Option<String>, AllocError> {
    let mut bytes = [0u8; 16];
    if host.fill_bytes(&mut bytes).is_err() {
        return Ok(None);
    }
    let number = u128::from_le_bytes(bytes);
    Ok(Some(format!(in alloc; "{number:032x}")?))
}
