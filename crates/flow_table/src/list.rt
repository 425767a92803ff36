//! The flows so far, found by their keys.

ghost use Rattle.std.specs.Prelude.{◌≡◌, ◌≢◌, ℕ, ◌+◌, ◌<◌, ◌≤◌, ◌↔◌, [], ◌∷◌, ◌++◌, ◌==◌, if◌then◌else◌, length, map, Some, None, IfSome, slice_get, option_map, Ok, Err, IfOk, OnOk, OnErr, IsTrue};
ghost use Rattle.frame_headers.specs.Seen.{shown};
ghost use Rattle.flow_table.specs.{Flows.{Flow, Numbered, key_of, newest, number_among, with_segment}, Placing.{steered_to, counted_at}, Kept.{entry_shown, close_shown}};
ghost use Rattle.zr_kinds.specs.Limits.{most_flows};

use crate::close::Close;
use crate::entry::{FlowEntry, Key};
use crate::placed::FlowFault;
use frame_headers::Segment;
use indexmap::IndexMap;
use std::alloc::Global;
use std::collections::hash_map::RandomState;
use std::marker::Model;
use zr_kinds::MOST_FLOWS;

/// So few flows are looked through for a key, which costs less than to hash it.
const FEW_FLOWS: usize = 8;

/// The flows so far, in the order of their numbers.
#[derive(Drop)]
pub(crate) struct FlowList {
    entries: Vec<FlowEntry>,
    /// The number of the newest flow of each key.
    newest: IndexMap<Key, u32, RandomState>,
}

impl Model for FlowList {
    ghost use Rattle.std.specs.Prelude.{List, map, length, ◌≤◌};
    ghost use Rattle.flow_table.specs.{Flows.{Flow}, Kept.{entry_shown}, Newest.{HasNewest}};
    ghost use Rattle.zr_kinds.specs.Limits.{most_flows};

    ghost Value = { List Flow };

    ghost view = { λ l. map entry_shown l.entries.items };

    ghost invariant = { λ l. (length l.entries.items ≤ most_flows) × HasNewest l.entries.items l.newest };
}

/// The number of the newest of these flows that has the segment's key.
fn newest_among(entries: &[FlowEntry], segment: &Segment<'_>) -> Option<u32>
    requires { length entries.now ≤ most_flows }
    ensures { result ≡ option_map (λ (found : Numbered). found.number)
        (newest (key_of (shown segment.now)) (map entry_shown entries.now)) }
{
    let mut number = entries.len();
    while number > 0 {
        number -= 1;
        if entries[number].has_key_of(segment) {
            return Some(number as u32);
        }
    }
    None
}

impl FlowList {
    pub(crate) fn new(alloc: Global, random: RandomState) -> FlowList
        ensures { result ≡ [] }
    {
        FlowList {
            entries: Vec::new(alloc),
            newest: IndexMap::with_hasher(alloc, random),
        }
    }

    pub(crate) fn count(&self) -> u32
        ensures count { result ≡ length self.now }
        ensures most { result ≤ most_flows }
    {
        self.entries.len() as u32
    }

    pub(crate) fn at(&self, number: u32) -> FlowEntry
        requires { number < length self.now }
        ensures { slice_get self.now number ≡ Some (entry_shown result) }
    {
        self.entries[number as usize]
    }

    // The number of the newest flow of the segment's key.
    fn newest_of(&self, segment: &Segment<'_>) -> Option<u32>
        ensures { result ≡ option_map (λ (found : Numbered). found.number)
            (newest (key_of (shown segment.now)) self.now) }
    {
        if self.entries.len() <= FEW_FLOWS {
            return newest_among(&self.entries, segment);
        }
        self.newest.get(&Key::of(segment)).copied()
    }

    // The number of the flow that the segment belongs to, or else of the one that it begins.
    fn number_of_flow(&self, segment: &Segment<'_>) -> u32
        ensures number { result ≡ number_among (length self.now) (shown segment.now)
            (newest (key_of (shown segment.now)) self.now) }
        ensures within { result ≤ length self.now }
    {
        let Some(number) = self.newest_of(segment) else {
            return self.count();
        };
        if self.at(number).ends_before(segment) {
            self.count()
        } else {
            number
        }
    }

    /// Whether a flow begins with the segment, and isn't one too many.
    pub(crate) fn begins(&self, segment: &Segment<'_>) -> bool
        ensures { IsTrue result ↔
            ((number_among (length self.now) (shown segment.now)
            (newest (key_of (shown segment.now)) self.now) ≡ length self.now)
            × (length self.now ≢ most_flows)) }
    {
        let count = self.count();
        self.number_of_flow(segment) == count && count != MOST_FLOWS
    }

    // How the flow of this number would be closed, had it seen the segment or begun with it.
    fn close_behind(&self, number: u32, segment: &Segment<'_>) -> Close
        requires { number ≤ length self.now }
        ensures { (app record_number : ℕ)
            → option_map (λ (f : Flow). f.close)
            (slice_get (with_segment self.now number
            (steered_to app (shown segment.now) record_number)) number)
            ≡ Some (close_shown result) }
    {
        if number < self.count() {
            let mut entry = self.at(number);
            entry.see(segment);
            entry.close
        } else {
            FlowEntry::begin(0, segment).close
        }
    }

    /// How many bytes of the segment would count. `None` where it would begin a flow too many.
    pub(crate) fn counted(&self, segment: &Segment<'_>) -> Option<usize>
        ensures few { IfSome result
            (λ len. number_among (length self.now) (shown segment.now)
            (newest (key_of (shown segment.now)) self.now) ≢ most_flows) }
        ensures counted { IfSome result
            (λ len. (app record_number number : ℕ) → number
            ≡ number_among (length self.now) (shown segment.now)
            (newest (key_of (shown segment.now)) self.now)
            → counted_at (with_segment self.now number
            (steered_to app (shown segment.now) record_number)) number (shown segment.now)
            ≡ Some len) }
        ensures most { IfSome result (λ len. len ≤ length (shown segment.now).payload) }
        ensures too_many { result ≡ None
            → number_among (length self.now) (shown segment.now)
            (newest (key_of (shown segment.now)) self.now) ≡ most_flows }
    {
        let number = self.number_of_flow(segment);
        if number == MOST_FLOWS {
            return None;
        }
        Some(self.close_behind(number, segment).counted(segment))
    }

    // The flow of this number sees the segment.
    fn go_on(&mut self, number: u32, segment: &Segment<'_>)
        requires { number < length self.old }
        ensures { (app record_number : ℕ) → self.new
            ≡ with_segment self.old number (steered_to app (shown segment.now) record_number) }
    {
        self.entries[number as usize].see(segment);
    }

    // A flow begins. Either all is as before, or it is the last, and the newest of its key.
    fn begin(&mut self, flow: FlowEntry) -> Result<u32, FlowFault>
        ensures number { IfOk result (λ number. number ≡ length self.old) }
        ensures begun { OnOk result (self.new ≡ self.old ++ entry_shown flow ∷ []) }
        ensures too_many { (result ≡ Err FlowFault.TooManyFlows) ↔ (length self.old ≡ most_flows) }
        ensures refused { OnErr result (self.new ≡ self.old) }
    {
        let number = self.count();
        if number == MOST_FLOWS {
            return Err(FlowFault::TooManyFlows);
        }
        self.entries.reserve(1).map_err(|_| FlowFault::Memory)?;
        self.newest
            .insert(flow.key, number)
            .map_err(|_| FlowFault::Memory)?;
        self.entries.push(flow).unwrap();
        Ok(number)
    }

    /// The flow of the segment sees it, or begins with it.
    pub(crate) fn see(&mut self, app: u32, segment: &Segment<'_>) -> Result<u32, FlowFault>
        ensures number { IfOk result (λ number. number
            ≡ number_among (length self.old) (shown segment.now)
            (newest (key_of (shown segment.now)) self.old)) }
        ensures flows { IfOk result
            (λ number. (record_number : ℕ) → self.new
            ≡ with_segment self.old number (steered_to app (shown segment.now) record_number)) }
        ensures count { IfOk result
            (λ number. (number < length self.new)
            × (length self.new ≡ length self.old + (if number == length self.old then 1 else 0))) }
        ensures too_many { (result ≡ Err FlowFault.TooManyFlows) ↔
            (number_among (length self.old) (shown segment.now)
            (newest (key_of (shown segment.now)) self.old) ≡ most_flows) }
        ensures memory { result ≡ Err FlowFault.Memory
            → number_among (length self.old) (shown segment.now)
            (newest (key_of (shown segment.now)) self.old) ≡ length self.old }
        ensures refused { OnErr result (self.new ≡ self.old) }
    {
        let number = self.number_of_flow(segment);
        if number == self.count() {
            return self.begin(FlowEntry::begin(app, segment));
        }
        self.go_on(number, segment);
        Ok(number)
    }
}
