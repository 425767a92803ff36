//! What arrives is taken: its frame is counted, steered to its flow, and at hand where it is offered.

ghost use Rattle.std.specs.Prelude.{◌≡◌, ◌≢◌, ℕ, ◌+◌, ◌<◌, ◌≤◌, ◌↔◌, List, length, true, false, None, Some, Err, IfOk, IfSome, IsTrue, vec_capacity, MatchResult};
ghost use Rattle.zr_kinds.specs.{Limits.{longest_payload, most_flows}, declared.fault.Fault.TheVariants.{Memory}};
ghost use Rattle.frame_headers.specs.Seen.{shown, segment_seen};
ghost use Rattle.flow_table.specs.{Steered.{steer as steered}, Placing.{number_for, counted_for}};
ghost use Rattle.card_feed.specs.{Hand.{HaveApps, HasRoomToRefuse, RouteFits, with_payload}, Offered.{WantsRoom, payload_of_segment}, Coming.{Arrives, ComesTo, is_over}, Feed.{one_if}, Intake.{OnlyOpens, Steers, TakesFrame, TakesIn, IsReadable, IsTimely, Knows, counts_as}, declared.arrived.Arrived.TheVariants.{Nothing}};

use crate::arrived::Arrived;
use crate::intake::{Intake, Route, Stage};
use flow_table::{FlowFault, FlowTable, Steered};
use frame_headers::{Seen, Segment, read_frame};
use std::mem;
use zr_io::Source;
use zr_kinds::Fault;

/// Whether a segment is steered, and so many bytes of it would count that it may be refused.
fn may_be_refused(table: &FlowTable, split: u32, segment: &Segment<'_>) -> bool
    requires size { length segment.now.payload.now ≤ longest_payload }
    ensures long { result ≡ true → (frame : ℕ)
        → Steers split table.now table.now
        (steered table.now.ports frame (Some (shown segment.now))) (Err Memory) }
    ensures short { result ≡ false → (frame len : ℕ)
        → number_for table.now (shown segment.now) frame ≢ Some most_flows
        → counted_for table.now (shown segment.now) frame ≡ Some len → len ≤ split }
{
    matches!(table.admits(segment), Some(len) if len > split)
}

/// Steers a segment: where what counts of its payload goes, if it goes to one of the applications. Memory is wanted only where
/// a flow begins with it, and where there is no room to note that it was refused. At an `Err` nothing of it was taken.
fn steer(
    table: &mut FlowTable,
    refused: &mut Vec<u32>,
    split: u32,
    frame: u32,
    segment: &Segment<'_>,
) -> Result<Option<Route>, Fault>
    requires size { length segment.now.payload.now ≤ longest_payload }
    requires apps { HaveApps table.old.ports table.old.flows }
    ensures apps { HaveApps table.new.ports table.new.flows }
    ensures ports { table.new.ports ≡ table.old.ports }
    ensures same { refused.new.items ≡ refused.old.items }
    ensures steers { Steers split table.old table.new
        (steered table.old.ports frame (Some (shown segment.now))) result }
    ensures room { IfOk result
        (λ found. IfSome found (HasRoomToRefuse split refused.new.items
        (vec_capacity refused.new))) }
    ensures fits { IfOk result
        (λ found. IfSome found (RouteFits table.old.ports segment.now.payload.now)) }
{
    let has_room = refused.reserve(1).is_ok();
    if !has_room && may_be_refused(table, split, segment) {
        return Err(Fault::Memory);
    }
    match table.place(segment) {
        Ok(Steered::Elsewhere) => Ok(None),
        Ok(
            Steered::Flow {
                flow,
                app,
                base,
                seq,
                len,
                fin,
            },
        ) => Ok(Some(Route {
            app,
            frame,
            flow,
            base,
            seq,
            fin,
            len,
        })),
        Err(FlowFault::Memory) => Err(Fault::Memory),
        Err(FlowFault::TooManyFlows) => Err(Fault::TooManyFlows),
    }
}

/// Steers what was seen of a frame.
fn steer_seen(
    table: &mut FlowTable,
    refused: &mut Vec<u32>,
    split: u32,
    frame: u32,
    seen: &Seen<'_>,
) -> Result<Option<Route>, Fault>
    requires size { IfSome (segment_seen seen.now)
        (λ segment. length segment.payload ≤ longest_payload) }
    requires apps { HaveApps table.old.ports table.old.flows }
    ensures apps { HaveApps table.new.ports table.new.flows }
    ensures ports { table.new.ports ≡ table.old.ports }
    ensures same { refused.new.items ≡ refused.old.items }
    ensures steers { Steers split table.old table.new
        (steered table.old.ports frame (segment_seen seen.now)) result }
    ensures room { IfOk result
        (λ found. IfSome found (HasRoomToRefuse split refused.new.items
        (vec_capacity refused.new))) }
    ensures fits { IfOk result
        (λ found. IfSome found (RouteFits table.old.ports
        (payload_of_segment (segment_seen seen.now)))) }
{
    match seen {
        Seen::Tcp(segment) => steer(table, refused, split, frame, segment),
        _ => Ok(None),
    }
}

/// A frame of which no byte counts isn't offered.
fn with_payload(found: Option<Route>) -> Option<Route>
    ensures { result ≡ with_payload found }
{
    match found {
        Some(route) if route.len > 0 => Some(route),
        _ => None,
    }
}

impl Intake {
    /// Whether a record is read next: no frame is at hand, and the reading goes on.
    pub fn is_readable(&self) -> bool
        ensures { IsTrue result ↔ IsReadable self.now }
    {
        self.hand.is_none() && !self.is_over()
    }

    /// Whether the reading ended.
    pub fn is_over(&self) -> bool
        ensures { result ≡ is_over self.now.stage }
    {
        self.stage.is_over()
    }

    /// Takes the frame that was read: it is counted, its flow sees it, and it is at hand where some bytes of it count for an
    /// application. Or it ends the reading, and nothing of it was taken.
    fn take(&mut self) -> Result<(), Fault>
        requires none { self.old.hand ≡ None }
        ensures takes { (ports : List ℕ) (frames : List (List ℕ)) → Knows ports frames self.old
            → TakesFrame self.old.split ports frames self.old.bytes.items self.new result }
        ensures count { MatchResult result
            (λ _. self.new.counting.tally.records ≡ self.old.counting.tally.records + 1)
            (λ _. self.new.counting.tally ≡ self.old.counting.tally) }
        ensures same { (self.new.stage ≡ self.old.stage)
            × (self.new.bytes.items ≡ self.old.bytes.items) × (self.new.split ≡ self.old.split)
            × (self.new.refused.items ≡ self.old.refused.items)
            × (self.new.table.ports ≡ self.old.table.ports) }
    {
        if self.counting.is_full() {
            return Err(Fault::TooManyFrames);
        }
        let frame = self.counting.tally.records + 1;
        let seen = read_frame(&self.bytes);
        let found = steer_seen(&mut self.table, &mut self.refused, self.split, frame, &seen)?;
        self.counting.count(&seen, found.is_some());
        self.hand = with_payload(found);
        Ok(())
    }

    /// Takes what arrived. A frame that ends the reading isn't taken.
    pub fn receive(&mut self, arrived: Arrived)
        requires timely { IsTimely self.old arrived }
        ensures takes { (ports : List ℕ) (frames : List (List ℕ)) → Knows ports frames self.old
            → TakesIn self.old.split ports frames self.old.stage self.new arrived }
        ensures nothing { arrived ≡ Nothing → self.new ≡ self.old }
        ensures count { self.new.counting.tally.records + one_if (is_over self.new.stage)
            ≡ self.old.counting.tally.records + one_if (is_over self.old.stage)
            + counts_as arrived }
        ensures same { (self.new.split ≡ self.old.split)
            × (self.new.refused.items ≡ self.old.refused.items)
            × (self.new.table.ports ≡ self.old.table.ports) }
    {
        match arrived {
            Arrived::Nothing => {}
            Arrived::Over(end) => self.stage = Stage::Over(end),
            Arrived::Frame(_, bytes) => {
                self.bytes = bytes;
                if let Err(fault) = self.take() {
                    self.stage = Stage::Over(Some(fault));
                }
            }
        }
    }

    /// The vector of the last frame, which isn't at hand any more.
    pub fn spare(&mut self) -> Vec<u8>
        requires none { self.old.hand ≡ None }
        ensures same { OnlyOpens self.old self.new × (self.new.stage ≡ self.old.stage) }
    {
        mem::replace(&mut self.bytes, Vec::new(self.alloc))
    }

    /// Reads the next record, where one is wanted.
    pub fn next<S: Source>(&mut self, source: &mut S) -> Arrived
        ensures rests { ¬ IsReadable self.old
            → (result ≡ Nothing) × (source.new ≡ source.old) × (self.new ≡ self.old) }
        ensures there { IsReadable self.old → result ≢ Nothing }
        ensures reads { IsReadable self.old → (first : S) (ports : List ℕ) (frames : List (List ℕ))
            → ComesTo (WantsRoom self.old.split ports) S.left S.faults first source.old ports
            self.old.stage frames
            → Arrives (WantsRoom self.old.split ports) S.left S.faults first source.new ports
            self.new.stage frames result }
        ensures on { is_over self.new.stage ≡ is_over self.old.stage }
        ensures same { OnlyOpens self.old self.new }
    {
        if !self.is_readable() {
            return Arrived::Nothing;
        }
        let into = self.spare();
        self.stage.read(self.alloc, source, into)
    }
}
