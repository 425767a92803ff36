//! Loans whose tags are out.
ghost use Rattle.std.specs.{Prelude.{◌≡◌, ◌<◌, ◌+◌, ℕ, length, nat_eq, remove, slice_get, slice_index_or, IsSome, None, Some, MatchOption}, Map.{lookup, remove_entry}};
ghost use Rattle.zr_kinds.specs.declared.place.Place.{Place};
ghost use Rattle.flow_queues.specs.Core.{IsIn};
ghost use Rattle.zc_forward.specs.{declared.sent.Sent.{Sent as Entry}, Sending.{of_sent, tags_of, most_out}};

use board_face::Loan;

/// How many loans may be out by their tags.
pub const MOST: u32 = 64;

/// A loan whose bytes go to a flow by a tag.
#[derive(Debug, Drop)]
pub struct Sent {
    pub tag: u32,
    pub flow: u32,
    pub loan: Loan,
}

/// Where the loan of a tag stands.
fn place_of(out: &[Sent], tag: u32) -> Option<usize>
    ensures { MatchOption result (lookup (nat_eq tag) (tags_of out.now) ≡ None)
        (λ i. (i < length out.now)
        × ((sent : Entry) → sent ≡ slice_index_or out.now i sent → sent.tag ≡ tag)
        × (tags_of (remove out.now i) ≡ remove_entry (nat_eq tag) (tags_of out.now))) }
{
    for i in 0..out.len() {
        if out[i].tag == tag {
            return Some(i);
        }
    }
    None
}

/// A tag that is not out.
pub fn free_tag(out: &[Sent]) -> u32
    requires { length out.now < most_out }
    ensures { lookup (nat_eq result) (tags_of out.now) ≡ None }
{
    for tag in 0..MOST {
        if place_of(out, tag).is_none() {
            return tag;
        }
    }
    // Each of the tags would be that of another loan.
    unreachable!()
}

/// Takes the loan of a tag out.
pub fn take_sent(out: &mut Vec<Sent>, tag: u32) -> Loan
    requires { IsSome (lookup (nat_eq tag) (tags_of out.old.items)) }
    ensures was { (flow : ℕ)
        × IsIn (record { tag = tag; flow = flow; loan = result }) out.old.items }
    ensures at { (flow i : ℕ)
        × (slice_get out.old.items i ≡ Some (record { tag = tag; flow = flow; loan = result }))
        × (out.new.items ≡ remove out.old.items i) }
    ensures tags { tags_of out.new.items ≡ remove_entry (nat_eq tag) (tags_of out.old.items) }
    ensures loans { (f : Place → ℕ) → f result + of_sent f out.new.items ≡ of_sent f out.old.items }
    ensures many { length out.new.items + 1 ≡ length out.old.items }
{
    let Some(i) = place_of(out, tag) else {
        unreachable!()
    };
    let Sent {
        tag: _,
        flow: _,
        loan,
    } = out.remove(i);
    loan
}
