//! What the card keeps of what it reads.

ghost use Rattle.std.specs.{Prelude.{length, vec_capacity}, Option.{ForSome}};
ghost use Rattle.card_feed.specs.Hand.{HaveApps, HandFits, HasRoomToRefuse};

use crate::tally::Counting;
use flow_table::FlowTable;
use pcapng_reader::AnyCapture;
use std::alloc::Global;
use zr_kinds::Fault;

/// How far the reading has come.
#[derive(Debug, Drop)]
pub enum Stage {
    /// Neither a file header nor a first section header was read here.
    Unopened,
    /// The reading goes on.
    Open(AnyCapture),
    /// It ended, by a fault or at the end of the bytes.
    Over(Option<Fault>),
}

/// Where what counts of a frame's payload goes.
#[derive(Clone, Copy, Debug)]
pub struct Route {
    pub app: u32,
    /// The number of the frame's record, from 1.
    pub frame: u32,
    pub flow: u32,
    /// The sequence number of the flow's first byte.
    pub base: u32,
    /// The sequence number of the payload's first byte.
    pub seq: u32,
    pub fin: bool,
    /// How many bytes of the payload count.
    pub len: u32,
}

/// What was read so far, and the frame that is to be offered.
#[derive(Drop)]
pub struct Intake {
    pub stage: Stage,
    /// The bytes of the frame that was read last.
    pub bytes: Vec<u8>,
    pub counting: Counting,
    pub table: FlowTable,
    /// The numbers of the frames that were refused.
    pub refused: Vec<u32>,
    pub hand: Option<Route>,
    /// The greatest payload that is never refused, in bytes.
    pub split: u32,
    /// What the capture's interfaces and empty vectors are made of.
    pub alloc: Global,
    ghost apps: { HaveApps table.ports table.flows },
    ghost hand_fits: { ForSome hand (HandFits (length table.ports) bytes.items) },
    ghost room: { ForSome hand (HasRoomToRefuse split refused.items (vec_capacity refused)) },
}
