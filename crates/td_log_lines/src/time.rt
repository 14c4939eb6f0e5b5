//! The time of a line.

ghost use Rattle.std.specs.Prelude.{◌≡◌, ◌*◌, IfOk, string_bytes, min, pos};
ghost use Rattle.jiff_core.specs.DateTime.{civil_nanos};
ghost use Rattle.td_log_lines.specs.Times.{IsTimeText, utc_text};

use jiff_core::civil::DateTime;
use std::alloc::{AllocError, Global};

/// The last second of the year 9999, in seconds since 1970.
const LAST_SECOND: u64 = 253_402_300_799;

// The date and the time of day, in UTC.
fn date_time(seconds: u64) -> DateTime
    ensures { civil_nanos result ≡ pos (min seconds 253_402_300_799 * 1_000_000_000) }
{
    let nanoseconds = seconds.min(LAST_SECOND) as i128 * 1_000_000_000;
    DateTime::from_nanosecond_in_range(nanoseconds)
}

// The text of a date and a time of day in UTC.
fn text_of(alloc: Global, at: DateTime) -> Result<String, AllocError>
    ensures { IfOk result (λ text. string_bytes text ≡ utc_text at) }
{
    let DateTime { date, time } = at;
    let (year, month, day) = (date.year.unsigned_abs(), date.month, date.day);
    let (hour, minute, second) = (time.hour, time.minute, time.second);
    format!(in alloc; "{year:04}-{month:02}-{day:02}T{hour:02}:{minute:02}:{second:02}Z")
}

/// The time of a second since the beginning of 1970, in UTC, as RFC 3339 writes it: `2026-12-01T14:04:53Z`.
pub fn time_text(alloc: Global, seconds: u64) -> Result<String, AllocError>
    ensures { IfOk result (λ text. IsTimeText (min seconds 253_402_300_799) (string_bytes text)) }
{
    text_of(alloc, date_time(seconds))
}
