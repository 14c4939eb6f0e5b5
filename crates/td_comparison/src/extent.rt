//! How far the messages of a comparison reach.

ghost use Rattle.std.specs.Prelude.{◌≡◌, ◌<◌, ◌^◌, length};
ghost use Rattle.td_stream_bounds.specs.Extents.{IsWithin, is_compatible};
ghost use Rattle.td_comparison.specs.Extents.{comparison_extent, counted_extent, differences_extent};
ghost use Rattle.td_comparison.specs.Messages.{comparison_letters};

use crate::reading::{LETTERS, MOST_SITES, long_at};
use td_stream_bounds::Extent;

// How far a count at this offset reaches, with so many bytes for each that it counts.
#[tactic(auto, unfolding(crate::specs::Extents::counted_extent))]
fn counted_extent(bytes: &[u8], at: usize, each: usize) -> Extent
    requires at { at < 2 ^ 16 }
    requires each { each < 2 ^ 16 }
    ensures value { result ≡ counted_extent at each bytes.now }
    ensures within { IsWithin result (length bytes.now) }
{
    if bytes.len() < at + 4 {
        return Extent::Open;
    }
    let count = long_at(bytes, at);
    if count > MOST_SITES {
        return Extent::Never;
    }
    let end = at + 4 + each * count as usize;
    if bytes.len() < end {
        return Extent::Open;
    }
    Extent::Whole(end)
}

// Whether the bytes begin as a comparison does, or may do so once more have come.
fn may_begin(bytes: &[u8]) -> bool
    ensures { result ≡ is_compatible bytes.now comparison_letters }
{
    bytes.starts_with(LETTERS) || LETTERS.starts_with(bytes)
}

/// How far the comparison reaches that begins with these bytes. It takes constant time.
pub fn comparison_extent(bytes: &[u8]) -> Extent
    ensures value { result ≡ comparison_extent bytes.now }
    ensures within { IsWithin result (length bytes.now) }
{
    if !may_begin(bytes) {
        return Extent::Never;
    }
    counted_extent(bytes, 39, 22)
}

/// How far the list of differing sites reaches that begins with these bytes. It takes constant time.
pub fn differences_extent(bytes: &[u8]) -> Extent
    ensures value { result ≡ differences_extent bytes.now }
    ensures within { IsWithin result (length bytes.now) }
{
    counted_extent(bytes, 0, 2)
}
