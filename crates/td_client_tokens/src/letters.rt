//! Of which letters secrets and names are.

ghost use Rattle.std.specs.Prelude.{◌≡◌};
ghost use Rattle.std.specs.List.{list_all};
ghost use Rattle.td_client_tokens.specs.Letters as spec;

/// The least and the most letters of a secret.
const LEAST_SECRET: usize = 16;

const MOST_SECRET: usize = 256;

/// The most letters of a name.
const MOST_NAME: usize = 32;

// Whether a secret may have this byte.
fn is_secret_byte(byte: u8) -> bool
    ensures { result ≡ spec.is_secret_byte byte }
{
    byte.is_ascii_alphanumeric() || byte == b'-' || byte == b'_'
}

// Whether a name may have this byte.
fn is_name_byte(byte: u8) -> bool
    ensures { result ≡ spec.is_name_byte byte }
{
    byte.is_ascii_alphanumeric() || byte == b' ' || byte == b'.' || byte == b'-'
}

// Whether a secret may have all of these.
fn all_of_secret(bytes: &[u8]) -> bool
    ensures { result ≡ list_all spec.is_secret_byte bytes.now }
{
    bytes.iter().all(|byte| is_secret_byte(*byte))
}

// Whether a name may have all of these.
fn all_of_name(bytes: &[u8]) -> bool
    ensures { result ≡ list_all spec.is_name_byte bytes.now }
{
    bytes.iter().all(|byte| is_name_byte(*byte))
}

/// Whether this is a secret: 16 to 256 letters, digits, `-` and `_`.
pub(crate) fn is_secret(text: &str) -> bool
    ensures { result ≡ spec.is_secret text.now }
{
    let bytes = text.as_bytes();
    LEAST_SECRET <= bytes.len() && bytes.len() <= MOST_SECRET && all_of_secret(bytes)
}

/// Whether this is the name of a token: 1 to 32 letters, digits, blanks, `.` and `-`, with no blank at an end.
pub fn is_token_name(name: &str) -> bool
    ensures { result ≡ spec.is_token_name_text name.now }
{
    let bytes = name.as_bytes();
    if bytes.is_empty() || bytes.len() > MOST_NAME {
        return false;
    }
    bytes[0] != b' ' && bytes[bytes.len() - 1] != b' ' && all_of_name(bytes)
}
