//! What sits in the lane of an application and takes its turns there.
ghost use Rattle.std.specs.Prelude.{◌≡◌, true, false, Option, None};
ghost use Rattle.board_face.specs.Opened.{new_app};
ghost use Rattle.card_feed.specs.declared.plan.Plan.{Plan};
ghost use Rattle.zc_poll.specs.declared.to_shelf.PollTurn.TheVariants.{Idle};
ghost use Rattle.run_account.specs.Ways.{DidOwn, DidPoll};
ghost use Rattle.replay_threads.specs.declared.seated.Came.TheVariants.{Did};
ghost use Rattle.replay_threads.specs.Seated.{BeginsLane, Fits, SeatedGoes, IsStart, TakesTurn, end_of_seated, is_gone, left_end, seat_of, shelf_of};

use app_worker::{Turn, Why, app_turn};
use run_account::{Leaves, Worker};
use std::alloc::Global;
use word_board::AppSeat;
use zc_forward::{Forward, ShelfCarrier};
use zc_poll::{LoanStream, PollTurn, Poured, Rests, ToShelf, Waits};
use zr_io::Shelf;
use zr_kinds::AppLine;

/// What a turn of an application came to.
#[derive(Clone, Copy, Debug, PartialEq, Eq)]
pub enum Came {
    /// It did something.
    Did,
    /// It has something to do once the card has dealt with entries of its, or its carrier tells of a loan.
    WaitsForCard,
    /// It has nothing to do.
    Rests,
}

/// What an application begins with.
#[derive(Drop)]
pub enum Start {
    /// It takes turns of its own.
    Turning(Worker),
    /// Its loans are polled.
    Pouring,
    /// Its loans go on, each given back once so many more went out.
    Forwarding(u32),
}

/// What is left of an application that has left.
#[derive(Drop)]
pub enum Left {
    Turned(Worker),
    Poured(Poured),
}

/// An application that takes turns of its own.
pub struct Turning<'b, T> {
    seat: AppSeat<'b>,
    worker: Worker,
    shelf: T,
}

/// An application whose loans are polled as a stream, and poured into its shelf.
pub struct Pouring<'b, T> {
    stream: ToShelf<AppSeat<'b>, T>,
    /// What was written, once it has left.
    poured: Option<Poured>,
}

/// An application whose loans go on to a carrier over its shelf.
pub struct Forwarding<'b, T> {
    forward: Forward<AppSeat<'b>, ShelfCarrier<T>>,
    /// What was written, once it has left.
    poured: Option<Poured>,
}

/// An application at its seat, with its shelf.
pub enum Seated<'b, T> {
    Turning(Turning<'b, T>),
    Pouring(Pouring<'b, T>),
    Forwarding(Forwarding<'b, T>),
}

impl Leaves for Left {
    ghost end = { left_end };

    fn line(&self, port: u16) -> AppLine {
        match self {
            Left::Turned(worker) => worker.line(port),
            Left::Poured(poured) => poured.line(port),
        }
    }

    fn flow_bytes(&self, flow: u32) -> u64 {
        match self {
            Left::Turned(worker) => worker.flow_bytes(flow),
            Left::Poured(poured) => poured.flow_bytes(flow),
        }
    }
}

/// What this answer says.
fn came_of(turn: Turn) -> Came
    ensures { result ≡ Did → DidOwn turn }
{
    match turn {
        Turn::Idle(Why::NoNote) => Came::Rests,
        Turn::Idle(_) => Came::WaitsForCard,
        Turn::Did | Turn::Finished | Turn::Failed(_) => Came::Did,
    }
}

/// What this says of a turn that did nothing. One that took notes, and had no item of them, has more to do. Where a carrier has no
/// notice yet, one may come as little later as an entry is dealt with.
fn rests_on(why: Rests) -> Came
    ensures { result ≡ Did → DidPoll (Idle why) }
{
    match why {
        Rests::Stream(Waits::NoNote) => Came::Rests,
        Rests::Stream(Waits::Enough) => Came::Did,
        Rests::Stream(Waits::ReserveHeld) | Rests::RefillFull | Rests::NotQuiet | Rests::NoNotice =>
            Came::WaitsForCard,
    }
}

/// A turn of its own.
fn take_turn<T: Shelf>(own: &mut Turning<'_, T>) -> Came
    requires fits { Fits T.kept T.counts (Seated.Turning own.old) }
    requires here { own.old.worker.left ≡ false }
    ensures goes { SeatedGoes T.kept T.counts (Seated.Turning own.old) (Seated.Turning own.new) }
    ensures takes { TakesTurn T.kept T.counts (Seated.Turning own.old) (Seated.Turning own.new)
        result }
{
    let turn = app_turn(&mut own.seat, &mut own.worker.state, &mut own.shelf);
    own.worker.left = matches!(turn, Turn::Finished);
    came_of(turn)
}

/// A turn of what pours its loans.
fn pour<T: Shelf>(own: &mut Pouring<'_, T>) -> Came
    requires fits { Fits T.kept T.counts (Seated.Pouring own.old) }
    requires here { own.old.poured ≡ None }
    ensures goes { SeatedGoes T.kept T.counts (Seated.Pouring own.old) (Seated.Pouring own.new) }
    ensures takes { TakesTurn T.kept T.counts (Seated.Pouring own.old) (Seated.Pouring own.new)
        result }
{
    match own.stream.turn() {
        PollTurn::Did => Came::Did,
        PollTurn::Idle(why) => rests_on(why),
        PollTurn::Ended(poured) => {
            own.poured = Some(poured);
            Came::Did
        }
    }
}

/// A turn of what hands its loans on.
fn forward<T: Shelf>(own: &mut Forwarding<'_, T>) -> Came
    requires fits { Fits T.kept T.counts (Seated.Forwarding own.old) }
    requires here { own.old.poured ≡ None }
    ensures goes { SeatedGoes T.kept T.counts (Seated.Forwarding own.old)
        (Seated.Forwarding own.new) }
    ensures takes { TakesTurn T.kept T.counts (Seated.Forwarding own.old)
        (Seated.Forwarding own.new) result }
{
    match own.forward.turn() {
        PollTurn::Did => Came::Did,
        PollTurn::Idle(why) => rests_on(why),
        PollTurn::Ended(poured) => {
            own.poured = Some(poured);
            Came::Did
        }
    }
}

impl<'b, T> Seated<'b, T> {
    /// Whether it has left.
    pub fn has_left(&self) -> bool
        ensures { result ≡ is_gone self.now }
    {
        match self {
            Seated::Turning(own) => own.worker.left,
            Seated::Pouring(own) => own.poured.is_some(),
            Seated::Forwarding(own) => own.poured.is_some(),
        }
    }
}

impl<'b, T: Shelf> Seated<'b, T> {
    /// An application sits down at its seat, at which nothing was done, with its shelf. It takes no memory.
    pub fn sit(alloc: Global, seat: AppSeat<'b>, app: u32, start: Start, shelf: T) -> Seated<'b, T>
        requires new { seat.side ≡ new_app seat.board.setting app }
        requires start { (plan : Plan) × IsStart plan app start }
        ensures seat { seat_of result ≡ seat.entry }
        ensures shelf { shelf_of result ≡ shelf }
        ensures begins { (plan : Plan) → IsStart plan app start
            → BeginsLane T.kept T.counts plan result }
    {
        match start {
            Start::Turning(worker) => Seated::Turning(Turning {
                seat,
                worker,
                shelf,
            }),
            Start::Pouring => Seated::Pouring(Pouring {
                stream: ToShelf::new(LoanStream::new(alloc, seat, app), shelf),
                poured: None,
            }),
            Start::Forwarding(delay) => Seated::Forwarding(Forwarding {
                forward: Forward::new(
                    LoanStream::new(alloc, seat, app),
                    ShelfCarrier::new(shelf, delay),
                ),
                poured: None,
            }),
        }
    }

    /// A turn.
    pub fn turn(&mut self) -> Came
        requires fits { Fits T.kept T.counts self.old }
        requires here { is_gone self.old ≡ false }
        ensures goes { SeatedGoes T.kept T.counts self.old self.new }
        ensures takes { TakesTurn T.kept T.counts self.old self.new result }
    {
        match self {
            Seated::Turning(own) => take_turn(own),
            Seated::Pouring(own) => pour(own),
            Seated::Forwarding(own) => forward(own),
        }
    }

    /// Its seat, its shelf, and what is left of it. It has left.
    pub fn rise(self) -> (AppSeat<'b>, T, Left)
        requires left { (seat_of self).side.view.left ≡ true }
        requires gone { is_gone self ≡ true }
        ensures seat { result.0 ≡ seat_of self.entry }
        ensures shelf { result.1 ≡ shelf_of self.entry }
        ensures end { left_end result.2 ≡ end_of_seated self.entry }
    {
        match self {
            Seated::Turning(own) => {
                let Turning {
                    seat,
                    worker,
                    shelf,
                } = own;
                (seat, shelf, Left::Turned(worker))
            }
            Seated::Pouring(own) => {
                let Pouring { stream, poured } = own;
                let Some(poured) = poured else { unreachable!() };
                let (seat, shelf) = stream.parts();
                (seat, shelf, Left::Poured(poured))
            }
            Seated::Forwarding(own) => {
                let Forwarding { forward, poured } = own;
                let Some(poured) = poured else { unreachable!() };
                let (seat, carrier) = forward.parts();
                (seat, carrier.shelf(), Left::Poured(poured))
            }
        }
    }
}
