//! The places of a buffer that somebody has, by their offsets. They have bytes and no byte in common.
ghost use Rattle.std.specs.{Prelude.{◌≡◌, ◌==◌, ◌&&◌, ◌<◌, ◌+◌, ◌^◌}, List.{list_any, list_all}};
ghost use Rattle.zr_kinds.specs.Holders.{is_apart, is_same};
ghost use Rattle.run_check.specs.Places.{ArePlacesApart, all_placed, is_same_hand, placed_holding};

use std::collections::BTreeMap;

/// Who has a place.
#[derive(Clone, Copy, Debug, PartialEq, Eq)]
pub(crate) enum Hand {
    /// The card, which sent no note of it.
    Card,
    /// Its note is on its way to this application.
    Sent(u32),
    /// This application, which didn't lend it.
    App(u32),
    /// This application, which lent it.
    Loan(u32),
}

/// A place without its offset.
#[derive(Clone, Copy, Debug, PartialEq, Eq)]
pub(crate) struct OwnedPlace {
    pub(crate) len: u32,
    pub(crate) hand: Hand,
}

fn is_same_place(one: OwnedPlace, other: OwnedPlace) -> bool
    ensures { result ≡ ((one.len == other.len) && is_same_hand one.hand other.hand) }
{
    one == other
}

/// Whether the place is there.
pub(crate) fn is_there(places: &BTreeMap<u32, OwnedPlace>, offset: u32, place: OwnedPlace) -> bool
    requires { ArePlacesApart 0 places.now.entries }
    ensures { result ≡ list_any (is_same (placed_holding (offset, place)))
        (all_placed places.now.entries) }
{
    match places.get(&offset) {
        Some(found) => is_same_place(*found, place),
        None => false,
    }
}

/// Whether no place has one of these bytes.
pub(crate) fn are_apart(places: &BTreeMap<u32, OwnedPlace>, offset: u32, len: u32) -> bool
    requires apart { ArePlacesApart 0 places.now.entries }
    requires fits { offset + len < 2 ^ 32 }
    ensures { result ≡ list_all (is_apart offset len) (all_placed places.now.entries) }
{
    match places.range(..offset + len).next_back() {
        Some((begin, place)) => u64::from(*begin) + u64::from(place.len) <= u64::from(offset),
        None => true,
    }
}
