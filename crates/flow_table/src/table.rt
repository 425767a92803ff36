//! The table of flows.

ghost use Rattle.std.specs.{Prelude.{◌≡◌, ◌≢◌, ℕ, ◌<◌, ◌≤◌, ◌↔◌, [], length, Ok, Err, Some, None, slice_get, option_map, nat_eq, IfOk, IfSome, OnErr, IsTrue, ◌⊎◌}, List.{IsDistinct}};
ghost use Rattle.zr_kinds.specs.Limits.{longest_payload, most_flows};
ghost use Rattle.frame_headers.specs.Seen.{shown};
ghost use Rattle.flow_table.specs.{Steered.{app_of}, Placing.{number_for, counted_for, Places, info_of}};

use crate::entry::FlowEntry;
use crate::list::FlowList;
use crate::placed::{FlowFault, FlowInfo, Steered};
use crate::segment::{app_of, first_byte, has_fin};
use frame_headers::Segment;
use std::alloc::{AllocError, Global};
use std::collections::hash_map::RandomState;
use std::marker::Model;

/// Steers segments to applications by their destination ports, and keeps their flows.
#[derive(Drop)]
pub struct FlowTable {
    ports: Vec<u16>,
    flows: FlowList,
}

impl Model for FlowTable {
    ghost use Rattle.std.specs.Prelude.{◌≤◌, length};
    ghost use Rattle.flow_table.specs.KnownFlows.{KnownFlows};

    ghost Value = { KnownFlows };

    ghost view = { λ t. record { ports = t.ports.items; flows = t.flows } };

    ghost invariant = { λ t. length t.ports.items ≤ 8 };
}

impl FlowTable {
    /// A table of no flows. The place of a port in the list is the number of its application.
    ///
    /// Whoever writes a capture chooses the keys of its flows, so they are hashed with random keys.
    pub fn new(alloc: Global, random: RandomState, ports: &[u16]) -> Result<FlowTable, AllocError>
        requires some { 0 < length ports.now }
        requires most { length ports.now ≤ 8 }
        requires distinct { IsDistinct nat_eq ports.now }
        ensures ports { IfOk result (λ table. table.ports ≡ ports.now) }
        ensures flows { IfOk result (λ table. table.flows ≡ []) }
    {
        Ok(FlowTable {
            ports: ports.to_vec(alloc)?,
            flows: FlowList::new(alloc, random),
        })
    }

    /// Steers a segment, whose flow sees it or begins with it. The key is looked up once, however many flows there are (where
    /// they are few, by a walk over them), and put into the map where it begins one.
    ///
    /// `TooManyFlows` decides before any memory is asked for.
    pub fn place(&mut self, segment: &Segment<'_>) -> Result<Steered, FlowFault>
        requires size { length (shown segment.now).payload ≤ longest_payload }
        ensures placed { IfOk result (Places self.old self.new (shown segment.now)) }
        ensures elsewhere { (result ≡ Ok Steered.Elsewhere)
            ↔ (app_of self.old.ports segment.now.dport ≡ None) }
        ensures too_many { (record_number : ℕ)
            → (result ≡ Err FlowFault.TooManyFlows)
            ↔ (number_for self.old (shown segment.now) record_number ≡ Some most_flows) }
        // Memory is asked for only where the segment would begin a flow.
        ensures memory { (record_number : ℕ) → result ≡ Err FlowFault.Memory
            → number_for self.old (shown segment.now) record_number ≡ Some (length self.old.flows) }
        ensures refused { OnErr result (self.new ≡ self.old) }
        ensures ports { self.new.ports ≡ self.old.ports }
    {
        let Some(app) = app_of(&self.ports, segment.dport) else {
            return Ok(Steered::Elsewhere);
        };
        let app = app as u32;
        let flow = self.flows.see(app, segment)?;
        let entry = self.flows.at(flow);
        Ok(Steered::Flow {
            flow,
            app,
            base: entry.base,
            seq: first_byte(segment),
            len: entry.close.counted(segment) as u32,
            fin: has_fin(segment),
        })
    }

    /// Whether a flow begins with a segment, which `place` does where it finds memory. The key is looked up.
    pub fn begins(&self, segment: &Segment<'_>) -> bool
        ensures { (record_number : ℕ)
            → IsTrue result ↔
            ((number_for self.now (shown segment.now) record_number ≡ Some (length self.now.flows))
            × (length self.now.flows ≢ most_flows)) }
    {
        match app_of(&self.ports, segment.dport) {
            Some(_) => self.flows.begins(segment),
            None => false,
        }
    }

    /// How many bytes of a segment would count, where it is steered and belongs to a flow, or begins one that isn't one too many:
    /// `place` refuses it for want of memory alone. The key is looked up.
    pub fn admits(&self, segment: &Segment<'_>) -> Option<u32>
        requires size { length (shown segment.now).payload ≤ longest_payload }
        ensures steered { IfSome result (λ len. app_of self.now.ports segment.now.dport ≢ None) }
        ensures few { IfSome result (λ len. (record_number : ℕ) →
            number_for self.now (shown segment.now) record_number ≢ Some most_flows) }
        ensures counted { IfSome result (λ len. (record_number : ℕ) →
            counted_for self.now (shown segment.now) record_number ≡ Some len) }
        ensures refuses { (record_number : ℕ) → result ≡ None
            → (app_of self.now.ports segment.now.dport ≡ None)
            ⊎ (number_for self.now (shown segment.now) record_number ≡ Some most_flows) }
    {
        app_of(&self.ports, segment.dport)?;
        let len = self.flows.counted(segment)?;
        Some(len as u32)
    }

    /// How many flows there are. Their numbers are those below it.
    pub fn count(&self) -> u32
        ensures count { result ≡ length self.now.flows }
        ensures most { result ≤ most_flows }
    {
        self.flows.count()
    }

    /// What the table tells of a flow.
    pub fn line(&self, flow: u32) -> FlowInfo
        requires { flow < length self.now.flows }
        ensures { option_map info_of (slice_get self.now.flows flow) ≡ Some result }
    {
        let FlowEntry {
            app,
            base,
            close,
            ..
        } = self.flows.at(flow);
        FlowInfo {
            app,
            base,
            fin: close.fin,
            reset: close.reset,
        }
    }
}
