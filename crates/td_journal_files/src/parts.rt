//! Parts of a journal and their sums, each of which is a line of a file beside it.

use sha2::{Digest, Sha256};
use std::fs::File;
use std::os::unix::fs::FileExt;
use std::str;

/// The digits of the greatest number of 64 bits.
pub(crate) const DIGITS: usize = 20;

/// The bytes of a line: two numbers, a sum, the first digits of the sum of these, and the line's end.
pub(crate) const LINE: usize = 116;

/// The digits of a sum.
const SUM_DIGITS: usize = 64;

/// The bytes of the two numbers of a line, each with a blank behind it.
const NUMBERS: usize = 42;

/// The bytes of a line in front of its own sum, with the blank there.
const SUMMED: usize = 107;

/// The first digits of a line's own sum.
const CHECK_DIGITS: usize = 8;

/// Bytes of a journal that stand together, and their SHA-256.
#[derive(Clone, Copy, Debug, PartialEq, Eq)]
pub(crate) struct Part {
    pub from: u64,
    pub length: u64,
    pub sum: [u8; 32],
}

impl Part {
    /// The byte after the last one.
    pub(crate) fn end(&self) -> u64 {
        self.from.saturating_add(self.length)
    }
}

/// The digits of a number, as many as any has.
pub(crate) fn digits_of(number: u64) -> [u8; DIGITS] {
    let mut digits = [b'0'; DIGITS];
    let mut rest = number;
    for digit in digits.iter_mut().rev() {
        *digit = b'0' + (rest % 10) as u8;
        rest /= 10;
    }
    digits
}

// The letter of a hexadecimal digit.
fn digit_letter(digit: u8) -> u8 {
    match digit {
        0..=9 => b'0' + digit,
        10..=15 => b'a' - 10 + digit,
        _ => b'-',
    }
}

// The value of a hexadecimal digit's letter.
fn digit_value(letter: u8) -> Option<u8> {
    match letter {
        b'0'..=b'9' => Some(letter - b'0'),
        b'a'..=b'f' => Some(letter - b'a' + 10),
        _ => None,
    }
}

// The hexadecimal digits of a sum.
fn sum_digits(sum: &[u8; 32]) -> [u8; SUM_DIGITS] {
    let mut digits = [b'0'; SUM_DIGITS];
    for (pair, byte) in digits.chunks_exact_mut(2).zip(sum) {
        if let [high, low] = pair {
            *high = digit_letter(*byte >> 4);
            *low = digit_letter(*byte & 15);
        }
    }
    digits
}

// Reads a sum in hexadecimal digits.
fn sum_in(digits: &[u8]) -> Option<[u8; 32]> {
    let mut sum = [0; 32];
    for (byte, pair) in sum.iter_mut().zip(digits.chunks_exact(2)) {
        let [high, low] = pair else {
            return None;
        };
        *byte = (digit_value(*high)? << 4) | digit_value(*low)?;
    }
    Some(sum)
}

/// The number that these digits have.
pub(crate) fn number_in(digits: &[u8]) -> Option<u64> {
    str::from_utf8(digits).ok()?.parse::<u64>().ok()
}

// The numbers that a line begins with.
fn numbers_of(part: &Part) -> [u8; NUMBERS] {
    let mut numbers = [b' '; NUMBERS];
    numbers[..DIGITS].copy_from_slice(&digits_of(part.from));
    numbers[DIGITS + 1..NUMBERS - 1].copy_from_slice(&digits_of(part.length));
    numbers
}

// What a line has in front of its own sum.
fn summed_of(part: &Part) -> [u8; SUMMED] {
    let mut summed = [b' '; SUMMED];
    summed[..NUMBERS].copy_from_slice(&numbers_of(part));
    summed[NUMBERS..SUMMED - 1].copy_from_slice(&sum_digits(&part.sum));
    summed
}

/// The line of a part behind these bytes, whose own sum is of both.
pub(crate) fn line_behind(before: &[u8], part: &Part) -> [u8; LINE] {
    let summed = summed_of(part);
    let mut hasher = Sha256::new();
    hasher.update(before);
    hasher.update(summed.as_slice());
    let check = sum_digits(&hasher.finalize());
    let mut line = [b'\n'; LINE];
    line[..SUMMED].copy_from_slice(&summed);
    line[SUMMED..LINE - 1].copy_from_slice(&check[..CHECK_DIGITS]);
    line
}

/// The part whose line these bytes are, behind these others; none where they are no line, or where one of both changed
/// since it was written.
pub(crate) fn part_behind(before: &[u8], line: &[u8]) -> Option<Part> {
    let part = Part {
        from: number_in(line.get(..DIGITS)?)?,
        length: number_in(line.get(DIGITS + 1..NUMBERS - 1)?)?,
        sum: sum_in(line.get(NUMBERS..SUMMED - 1)?)?,
    };
    if line == line_behind(before, &part).as_slice() {
        Some(part)
    } else {
        None
    }
}

/// The sum of so many bytes of a file from a byte on; none where it has fewer, or is not read. They are read by room
/// for some of them.
pub(crate) fn sum_of(file: &File, from: u64, length: u64, room: &mut [u8]) -> Option<[u8; 32]> {
    let mut hasher = Sha256::new();
    let step = (room.len() as u64).max(1);
    let mut at = from;
    let end = from.saturating_add(length);
    for _ in 0..length.div_ceil(step) {
        let count = end.saturating_sub(at).min(step) as usize;
        let some = room.get_mut(..count)?;
        file.read_exact_at(some, at).ok()?;
        hasher.update(&*some);
        at = at.saturating_add(count as u64);
    }
    Some(hasher.finalize())
}

/// Whether the bytes of a part have its sum.
pub(crate) fn fits(file: &File, part: &Part, room: &mut [u8]) -> bool {
    sum_of(file, part.from, part.length, room) == Some(part.sum)
}
