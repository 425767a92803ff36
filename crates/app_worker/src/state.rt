//! What an application keeps between its turns, and its turn.
ghost use Rattle.std.specs.Prelude.{◌≡◌, ℕ, ◌≤◌, List, Option, IfOk};
ghost use Rattle.board_face.specs.{AppCalls.{IsHere}, AppEvents.{app_gist}, declared.views.app.AppView.{AppView}};
ghost use Rattle.app_worker.specs.{declared.turn.{Why.{Why}, Turn.TheVariants.{Idle}}, State.{AppStands}, Kept.{new_state, IsFreshApp, flow_bytes}, Turns.{look_of}, TurnMakes.{TurnMakes, at_work}};
ghost use Rattle.flow_queues.specs.{Shelves.{AreShelved}, Totals.{queue_bytes_of}};

use crate::stack::{Phase, Reader, Stack, Stray, Tally};
use crate::turn::Turn;
use crate::working::turn;
use board_face::AppFace;
use circular_buffer::HeapCircularBuffer;
use completion_ring::CqRing;
use flow_queues::{Queues, find};
use std::alloc::{AllocError, Global};
use std::marker::Model;
use zr_io::Shelf;
use zr_kinds::{Behaviour, Rqe, Stopped};

/// What an application keeps between its turns.
#[derive(Drop)]
pub struct AppState {
    stack: Stack,
}

impl Model for AppState {
    ghost use Rattle.app_worker.specs.{State.{State}, StateOf.{state_of}, Kept.{AreIndexed}};

    ghost Value = { State };

    ghost view = { λ s. state_of s.stack };

    ghost invariant = { λ s. AreIndexed (state_of s.stack) };
}

impl AppState {
    /// An application that has taken no turn, with this many places in its completion ring. It takes the memory for
    /// its rings, for the loans that it leaks, and for the bytes that it reads at once, here.
    pub fn new(alloc: Global, app: u32, places: u32, how: Behaviour) -> Result<AppState, AllocError>
        requires least { 1 ≤ places }
        requires most { places ≤ 256 }
        ensures state { IfOk result (λ st. st ≡ new_state app places how) }
        ensures stands { IfOk result (λ st. (v : AppView) → IsFreshApp app v → AppStands st v) }
        // what the shelf has since the first turn is nothing yet
        ensures shelved { IfOk result
            (λ st. (kept : ℕ → Option (List ℕ)) → (v : AppView) → AreShelved kept kept st.flows v) }
    {
        let room = how.hold as usize + places as usize;
        let reader = Reader::new(alloc, room)?;
        let posted = CqRing::new(alloc, places as usize)?;
        let leaked = HeapCircularBuffer::with_capacity(alloc, how.leak as usize)?;
        let stack = Stack {
            app,
            how,
            queues: Queues::new(alloc),
            reader,
            posted,
            due: None,
            leaked,
            stray: Stray {
                entry: Rqe {
                    off: 0,
                    len: 0,
                    pad: 0,
                },
                buffer: 0,
                left: 0,
            },
            tally: Tally {
                written: 0,
                loans: 0,
                copied: 0,
            },
            phase: Phase::new(how.quit),
        };
        Ok(AppState { stack })
    }

    /// How many bytes the appends that went well took, over all flows.
    pub fn written(&self) -> u64
        ensures { result ≡ self.now.written }
    {
        self.stack.tally.written
    }

    /// How many completions were posted.
    pub fn loans(&self) -> u64
        ensures { result ≡ self.now.loans }
    {
        self.stack.tally.loans
    }

    /// How many of these were of bytes that had to be copied.
    pub fn copied(&self) -> u64
        ensures { result ≡ self.now.copied }
    {
        self.stack.tally.copied
    }

    /// What stopped it.
    pub fn stopped(&self) -> Stopped
        ensures { result ≡ self.now.stopped }
    {
        self.stack.phase.stopped
    }

    /// How many bytes of a flow the appends that went well took.
    pub fn flow_bytes(&self, flow: u32) -> u64
        ensures value { result ≡ flow_bytes flow self.now.flows }
        ensures sum { result ≡ queue_bytes_of flow self.now.flows }
    {
        match find(&self.stack.queues.index, u64::from(flow)) {
            Some(place) => self.stack.queues.flows[place].bytes,
            None => 0,
        }
    }
}

/// One turn of an application.
///
/// Loans that are due are given back first. Where no piece of the active flow is in order, one note is taken, and what
/// its flow wants of it enters the flow's queue. Then pieces in order are lent and posted, and what is more than the
/// application keeps unread is read, appended and given back.
///
/// Bytes that came with their note are copied when it is their turn: into a listed buffer, or else into the reserve. Once
/// a loan in the reserve is posted, all that is kept unread is read and given back.
///
/// The first `leak` loans that would be given back are kept to the end, those in the reserve aside. Each other is followed
/// by up to `stray` raw entries with its `off` and `len`: one is dropped where a loan in its buffer is out, and what a slot
/// in use keeps back comes first in the next turn. Once `quit` bytes are written, the last piece cut there, the
/// application stops: it gives all up that it has, and from then on takes notes and gives their pieces up. It scrubs as soon as
/// it sees each refill slot free, also beside a card that goes on.
pub fn app_turn<F: AppFace, T: Shelf>(face: &mut F, st: &mut AppState, shelf: &mut T) -> Turn
    requires here { IsHere (F.seen face.old) }
    requires stands { AppStands st.old (F.seen face.old) }
    ensures makes { TurnMakes T.kept T.counts (at_work st.old (F.seen face.old) shelf.old)
        (at_work st.new (F.seen face.new) shelf.new) result }
    // What it saw is so, on a board for one thread.
    ensures told { (why : Why) → result ≡ Idle why
        → F.tells (look_of why) (app_gist (F.seen face.new)) (F.beside face.new) }
    ensures beside { F.beside face.new ≡ F.beside face.old }
{
    turn(face, &mut st.stack, shelf)
}
