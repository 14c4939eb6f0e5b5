//! Sites by their numbers.

ghost use Rattle.std.specs.Prelude.{◌≡◌, ◌<◌, None, Some, IfSome, MatchOption, length, map, option_map};
ghost use Rattle.td_answers.specs.Sites.{site_of};
ghost use Rattle.td_answers.specs.ForProofs.Said.{IsSiteOf, place_in};

use td_replica::Replica;

/// The place of the first site of this number. A walk along the sites.
pub(crate) fn place_of<R: Replica>(sites: &[R], number: u32) -> Option<usize>
    ensures place { result ≡ option_map place_in (site_of number (map R.seen sites.now)) }
    ensures within { IfSome result (λ at. at < length sites.now) }
{
    for (at, site) in sites.iter().enumerate() {
        if u32::from(site.site()) == number {
            return Some(at);
        }
    }
    None
}

/// The first site of this number.
pub(crate) fn site_in<R: Replica>(sites: &[R], number: u32) -> Option<&R>
    ensures { MatchOption result (site_of number (map R.seen sites.now) ≡ None) (λ site. IsSiteOf number (map R.seen sites.now) (R.seen site.now)) }
{
    match place_of(sites, number) {
        Some(at) => Some(&sites[at]),
        None => None,
    }
}
