//! The loans of an application are counted while they are written, and the bytes of each flow.
ghost use Rattle.std.specs.{Prelude.{◌≡◌, ◌+◌, ◌-◌, ◌^◌, ◌<◌, min, length, vec_capacity, IsSome, MatchResult}, Ordering.{nat_cmp}, BTreeMap.{get}, Map.{keys_of}, List.Sorted.{IsStrictlySortedBy}};
ghost use Rattle.flow_queues.specs.{Core.{Each}, Ends.{bytes_written_of}, Counting.{AddsTo, HasRoomForFlows, item_counted, new_tally, quit_by, with_bytes}};
ghost use Rattle.flow_queues.specs.TallyOf.{tally_state_of};

use board_face::Loan;
use std::alloc::{AllocError, Global};
use std::collections::BTreeMap;
use std::mem;
use zr_kinds::Stopped;

/// What was written of an application's loans, and what stopped that.
#[derive(Drop)]
pub struct LoanTally {
    /// The loan that was written and is to be given back.
    pub due: Option<Loan>,
    pub written: u64,
    /// How many loans there were, and how many of them were copied.
    pub loans: u64,
    pub copied: u64,
    pub stopped: Stopped,
    /// How many bytes of each flow were written.
    pub counts: BTreeMap<u32, u64>,
    /// Empty, with room for as many.
    pub flows: Vec<(u32, u64)>,
}

impl LoanTally {
    /// Nothing was written yet. Takes no memory.
    pub fn new(alloc: Global) -> LoanTally
        ensures { tally_state_of result ≡ new_tally (vec_capacity result.flows) }
    {
        LoanTally {
            due: None,
            written: 0,
            loans: 0,
            copied: 0,
            stopped: Stopped::No,
            counts: BTreeMap::new(alloc),
            flows: Vec::new(alloc),
        }
    }

    /// Asks for what the count of a flow takes, where there is none yet.
    pub fn make_room(&mut self, flow: u32) -> Result<(), AllocError>
        requires room { HasRoomForFlows (tally_state_of self.old) }
        ensures same { self.new
            ≡ record self.old { counts = self.new.counts; flows = self.new.flows } }
        ensures none { AddsTo flow 0 self.old.counts.entries self.new.counts.entries }
        ensures there { MatchResult result (λ _. IsSome (get nat_cmp self.new.counts flow))
            (λ _. self.new.counts.entries ≡ self.old.counts.entries) }
        ensures room { HasRoomForFlows (tally_state_of self.new) }
    {
        if self.counts.contains_key(&flow) {
            return Ok(());
        }
        self.flows.reserve(self.counts.len() + 1)?;
        if self.counts.insert(flow, 0).is_err() {
            return Err(AllocError);
        }
        Ok(())
    }

    /// Counts bytes that were written to a flow.
    pub fn count(&mut self, flow: u32, bytes: u32)
        requires there { IsSome (get nat_cmp self.old.counts flow) }
        ensures same { self.new ≡ record self.old {
          counts = self.new.counts;
          written = min (self.old.written + bytes) (2 ^ 64 - 1);
        } }
        ensures adds { bytes_written_of flow self.old.counts.entries + bytes < 2 ^ 64
            → AddsTo flow bytes self.old.counts.entries self.new.counts.entries }
        ensures many { length self.new.counts.entries ≡ length self.old.counts.entries }
    {
        if let Some(count) = self.counts.get_mut(&flow) {
            *count = count.saturating_add(u64::from(bytes));
        }
        self.written = self.written.saturating_add(u64::from(bytes));
    }

    /// Counts an item among the loans.
    pub fn count_item(&mut self, copied: bool)
        ensures tally { tally_state_of self.new ≡ item_counted (tally_state_of self.old) copied }
        ensures same { self.new
            ≡ record self.old { loans = self.new.loans; copied = self.new.copied } }
    {
        self.loans = self.loans.saturating_add(1);
        if copied {
            self.copied = self.copied.saturating_add(1);
        }
    }

    /// Its user stopped it, unless something had.
    pub fn quit(&mut self)
        ensures { self.new ≡ record self.old { stopped = quit_by self.old.stopped } }
    {
        if self.stopped == Stopped::No {
            self.stopped = Stopped::Quit;
        }
    }

    /// The flows of which bytes were written, each with how many, by ascending number. Takes no memory: the room for them goes with
    /// them.
    pub fn written_flows(&mut self, alloc: Global) -> Vec<(u32, u64)>
        requires room { HasRoomForFlows (tally_state_of self.old) }
        ensures flows { result.items ≡ with_bytes self.old.counts.entries }
        ensures some { Each (λ f. 0 < f.1) result.items }
        ensures ascending { IsStrictlySortedBy nat_cmp (keys_of result.items) }
        ensures same { self.new ≡ record self.old { flows = self.new.flows } }
    {
        let mut flows = mem::replace(&mut self.flows, Vec::new(alloc));
        for (flow, bytes) in &self.counts {
            if *bytes > 0 {
                flows.push_reserved((*flow, *bytes));
            }
        }
        flows
    }
}
