//! The card's part of a replay: what it keeps from turn to turn.

ghost use Rattle.std.specs.{Prelude.{◌≡◌, ◌<◌, ◌≤◌, true, length, get_or, is_some, IfOk, None, Some, option_map, vec_len}, List.{slice_get}};
ghost use Rattle.zr_kinds.specs.Limits.{most_flows, most_records};
ghost use Rattle.flow_table.specs.{Flows.{Flow}, Placing.{info_of}};
ghost use Rattle.card_feed.specs.{Plan.{IsPlan}, Feed.{IsFeedReady, new_feed, fault_of_stage}, Coming.{is_over}, Hand.{HaveApps}, Outcomes.{AreLinesOf, HavePorts, IsOutcomeOf, flow_end, line_of_flow}};
ghost use Rattle.board_face.specs.{NicCalls.{apps_of, IsOpen, HasNoToken}, declared.views.nic.NicView.{NicView}};

use crate::intake::{Intake, Stage};
use crate::tally::Counting;
use crate::{Outcome, Plan};
use flow_table::{FlowInfo, FlowTable};
use page_pool::Pool;
use std::alloc::{AllocError, Global};
use std::collections::hash_map::RandomState;
use std::marker::Model;
use zr_kinds::{AppLine, Fault, FlowEnd, FlowLine};

/// What the card keeps from turn to turn: the reading, the flows, the pool, the frames that were refused, and the one that
/// is at hand.
#[derive(Drop)]
pub struct Feed {
    pub(crate) intake: Intake,
    pub(crate) pool: Pool,
    pub(crate) closed: bool,
}

impl Model for Feed {
    ghost use Rattle.std.specs.Prelude.{◌≡◌};
    ghost use Rattle.card_feed.specs.{Feed.{FeedState}, Parts.{feed_of}};

    ghost Value = { FeedState };

    ghost view = { λ f. feed_of f.intake f.pool f.closed };

    ghost invariant = { λ f. f.pool.split ≡ f.intake.split };
}

impl Feed {
    /// A feed that has read nothing. The keys of the flows are hashed with `random`.
    pub fn new(alloc: Global, random: RandomState, plan: &Plan) -> Result<Feed, AllocError>
        requires { IsPlan plan.now }
        ensures value { IfOk result
            (λ feed. feed ≡ new_feed plan.now.ports.items plan.now.options.split) }
        // It fits each face that is open and has no token out.
        ensures ready { IfOk result
            (λ feed. (v : NicView) → IsOpen v → HasNoToken v
            → length plan.now.ports.items ≡ apps_of v.setting
            → IsFeedReady feed v) }
    {
        Ok(Feed {
            intake: Intake {
                stage: Stage::Unopened,
                bytes: Vec::new(alloc),
                counting: Counting::new(),
                table: FlowTable::new(alloc, random, &plan.ports)?,
                refused: Vec::new(alloc),
                hand: None,
                split: plan.options.split,
                alloc,
            },
            pool: Pool::new(plan.options.split),
            closed: false,
        })
    }

    /// Whether the card was closed.
    pub fn closed(&self) -> bool
        ensures { result ≡ self.now.closed }
    {
        self.closed
    }

    /// Whether a frame is at hand, which is offered before another is taken.
    pub fn at_hand(&self) -> bool
        ensures { result ≡ is_some self.now.at_hand }
    {
        self.intake.hand.is_some()
    }

    /// Whether the reading has ended.
    pub fn ended(&self) -> bool
        ensures { result ≡ is_over self.now.stage }
    {
        self.intake.is_over()
    }

    /// The vector of the frame that was taken last, which isn't wanted any more.
    pub fn spare(&mut self) -> Vec<u8>
        requires none { self.old.at_hand ≡ None }
        ensures same { self.new ≡ self.old }
    {
        self.intake.spare()
    }

    /// No more records were read than are read at most. Only the answer of `records` says so.
    pub fn has_few_records(&self)
        ensures { self.now.tally.records ≤ most_records }
    {
        let _ = self.records();
    }

    /// How many records were read so far.
    pub fn records(&self) -> u32
        ensures count { result ≡ self.now.tally.records }
        ensures most { result ≤ most_records }
    {
        self.intake.counting.tally.records
    }

    /// How many flows there are so far.
    pub fn flows(&self) -> u32
        ensures count { result ≡ length self.now.flows }
        ensures most { result ≤ most_flows }
    {
        self.intake.table.count()
    }

    /// The application that a flow goes to.
    pub fn flow_app(&self, flow: u32) -> u32
        requires { flow < length self.now.flows }
        ensures app { option_map (λ (f : Flow). f.app) (slice_get self.now.flows flow)
            ≡ Some result }
        ensures port { result < length self.now.ports }
    {
        self.intake.table.line(flow).app
    }

    /// Puts the outcome together: `apps` are the lines of the applications, one for each port and in their order, and
    /// `bytes` says how many bytes of each flow were written. A flow's line has the port of its application's.
    pub fn outcome(
        self,
        alloc: Global,
        apps: Vec<AppLine>,
        bytes: Vec<u64>,
    ) -> Result<Outcome, AllocError>
        requires closed { self.closed ≡ true }
        requires apps { vec_len apps ≡ length self.ports }
        requires bytes { vec_len bytes ≡ length self.flows }
        ensures { IfOk result (IsOutcomeOf self apps.items bytes.items) }
    {
        let Feed { intake, pool, .. } = self;
        let flows = flow_lines(alloc, &intake.table, &apps, &bytes)?;
        Ok(Outcome {
            tally: intake.counting.tally,
            apps,
            flows,
            refused: intake.refused,
            pool: pool.stats(),
            end: end_of(intake.stage),
        })
    }
}

/// What ended the reading, if not the end of the bytes.
fn end_of(stage: Stage) -> Option<Fault>
    ensures { result ≡ fault_of_stage stage }
{
    match stage {
        Stage::Over(end) => end,
        _ => None,
    }
}

/// How a flow ended, of which so many bytes were written. They are counted modulo 2^32, as sequence numbers are.
fn flow_end(flow: &FlowInfo, bytes: u64) -> FlowEnd
    ensures { (f : Flow) → info_of f ≡ flow.now → result ≡ flow_end f bytes }
{
    let FlowInfo {
        base,
        fin,
        reset,
        ..
    } = *flow;
    match fin {
        _ if reset => FlowEnd::Reset,
        None => FlowEnd::Going,
        Some(fin) if bytes % (1 << 32) == u64::from(fin.wrapping_sub(base)) => FlowEnd::Whole,
        Some(_) => FlowEnd::Short,
    }
}

/// The line of a flow, of which so many bytes were written.
fn flow_line(flow: &FlowInfo, apps: &[AppLine], bytes: u64) -> FlowLine
    requires { flow.now.app < length apps.now }
    ensures { (f : Flow) (none : AppLine) → info_of f ≡ flow.now
        → (get_or apps.now f.app none).port ≡ f.key.dport → result ≡ line_of_flow f bytes }
{
    FlowLine {
        port: apps[flow.app as usize].port,
        base: flow.base,
        bytes,
        fin: flow.fin.is_some(),
        end: flow_end(flow, bytes),
    }
}

/// The lines of the flows.
fn flow_lines(
    alloc: Global,
    table: &FlowTable,
    apps: &[AppLine],
    bytes: &[u64],
) -> Result<Vec<FlowLine>, AllocError>
    requires many { length apps.now ≡ length table.now.ports }
    requires apps { HaveApps table.now.ports table.now.flows }
    requires bytes { length bytes.now ≡ length table.now.flows }
    ensures { IfOk result (λ lines. HavePorts table.now.ports apps.now
        → AreLinesOf table.now.flows bytes.now lines.items) }
{
    let mut lines = Vec::with_capacity(alloc, bytes.len())?;
    for number in 0..table.count() {
        let flow = table.line(number);
        let count = bytes[number as usize];
        lines.push(flow_line(&flow, apps, count))?;
    }
    Ok(lines)
}
