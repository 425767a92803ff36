//! The loans of a stream go to a carrier, one turn after another.
ghost use Rattle.std.specs.Prelude.{◌≡◌, ℕ, List, [], Option, true, ⊤};
ghost use Rattle.futures.specs.{Poll.{IfReady, OnPending}, Task.{Keeps}};
ghost use Rattle.board_face.specs.AppEvents.{app_gist};
ghost use Rattle.zc_poll.specs.Fresh.{HasDoneNothing, new_stream_desk};
ghost use Rattle.zc_poll.specs.{Polls.{AsksAgain}, PourTurns.{pour_end}, Stops.{HasStopped}, declared.to_shelf.Poured.{Poured as Told}};
ghost use Rattle.flow_queues.specs.Counting.{quit_by};
ghost use Rattle.zc_forward.specs.{GivenUp.{Halts}, Seats.{SameSeat, streaming}, Carrying.{Cancels, carrying}, Sending.{new_outbox}, Turns.{Asks}};
ghost use Rattle.zc_forward.specs.Sights.{MayTurn, ForwardMakes, PollMakes, StandsSince, TellsAt, sight_of, stage_at};
ghost use Rattle.zr_io.specs.Moved.{ShelfCounts};

use crate::asking::{ask, poll_ask};
use crate::carrier::Carrier;
use crate::forwarding::go_on;
use crate::outbox::Outbox;
use crate::stopping::halt;
use board_face::AppFace;
use flow_queues::LoanTally;
use futures::Future;
use futures::task::{Context, Poll};
use std::marker::Model;
use zc_poll::{LoanStream, PollTurn, Poured};

/// Hands the loans of a stream to a carrier, and gives each back once the carrier told of it. At most 64 are out by their tags.
#[derive(Drop)]
pub struct Forward<F, C> {
    stream: LoanStream<F>,
    carrier: C,
    work: Outbox,
}

impl<F, C> Model for Forward<F, C> {
    ghost use Rattle.zc_forward.specs.{Turns.{ForwardView}, OutboxOf.{outbox_of}};

    ghost Value = { ForwardView F C };

    ghost view = { λ s. record { face = s.stream.face; desk = s.stream.desk; carrier = s.carrier; work = outbox_of s.work } };
}

impl<F: AppFace, C: Carrier> Forward<F, C> {
    /// Nothing was handed out yet. Takes no memory.
    pub fn new(stream: LoanStream<F>, carrier: C) -> Forward<F, C>
        requires fresh { (app : ℕ) × (stream.desk ≡ new_stream_desk app)
            × HasDoneNothing app (F.seen stream.face) }
        requires none { C.tags carrier ≡ [] }
        ensures parts { (result.face ≡ stream.face) × (result.carrier ≡ carrier)
            × (result.desk ≡ stream.desk)
            × (result.work ≡ new_outbox result.work.tally.room) }
        ensures stands { let at = sight_of F.seen (carrying C.got C.tags C.counts C.pace) in
            StandsSince (C.got carrier) (C.counts carrier) (at result) }
    {
        let alloc = stream.alloc();
        Forward {
            stream,
            carrier,
            work: Outbox {
                tally: LoanTally::new(alloc),
                out: Vec::new(alloc),
                uncarried: None,
                pressed: false,
            },
        }
    }

    /// One turn: it gives back the loan of a notice that came, or the one that is due, or takes one step and hands its item to the
    /// carrier, or lets the face leave. A loan stays due where the refill slot was seen in use. One that was stopped scrubs as soon
    /// as no tag is out and each refill slot is free, also while notes still come.
    pub fn turn(&mut self) -> PollTurn
        requires stands { let at = sight_of F.seen (carrying C.got C.tags C.counts C.pace) in
            MayTurn (at self.old) }
        ensures makes { let at = sight_of F.seen (carrying C.got C.tags C.counts C.pace) in
            ForwardMakes (λ look.
            F.tells look (app_gist (F.seen self.new.face)) (F.beside self.new.face))
            (at self.old) (at self.new) result }
        // With which urge it asked the carrier for a notice, and that it asked once.
        ensures asks { let at = sight_of F.seen (carrying C.got C.tags C.counts C.pace) in
            Asks C.answers C.tags C.pace (stage_at (at self.old)) (stage_at (at self.new))
            self.old.carrier self.new.carrier }
        ensures seat { SameSeat F.seen F.beside self.old.face self.new.face }
    {
        let told = ask(&mut self.carrier, &self.work);
        go_on(&mut self.stream, &mut self.carrier, &mut self.work, told)
    }

    /// A turn that asks for a notice by a poll.
    pub(crate) fn poll_turn(&mut self, cx: &mut Context<'_>) -> PollTurn
        requires stands { let at = sight_of F.seen (carrying C.got C.tags C.counts C.pace) in
            MayTurn (at self.old) }
        ensures makes { let at = sight_of F.seen (carrying C.got C.tags C.counts C.pace) in
            ForwardMakes (λ look.
            F.tells look (app_gist (F.seen self.new.face)) (F.beside self.new.face))
            (at self.old) (at self.new) result }
        ensures asks { let at = sight_of F.seen (carrying C.got C.tags C.counts C.pace) in
            Asks C.answers C.tags C.pace (stage_at (at self.old)) (stage_at (at self.new))
            self.old.carrier self.new.carrier }
        ensures seat { SameSeat F.seen F.beside self.old.face self.new.face }
        ensures kept { Keeps cx.old cx.new }
    {
        let told = poll_ask(&mut self.carrier, &self.work, cx);
        go_on(&mut self.stream, &mut self.carrier, &mut self.work, told)
    }

    /// Takes each tag back from the carrier, gives all loans and pieces up, and forwards nothing more: what was forwarded, the stream,
    /// which is stopped, and the carrier. `leaving` gives the face of that stream back.
    pub fn stop(self) -> (Poured, LoanStream<F>, C)
        requires stands { let at = sight_of F.seen (carrying C.got C.tags C.counts C.pace) in
            MayTurn (at self) }
        // No loan and no tag is out.
        ensures halts { Halts F.seen F.beside (streaming self.face self.desk) result.1 }
        ensures stops { let at = sight_of F.seen (carrying C.got C.tags C.counts C.pace) in
            (first : ℕ → Option (List ℕ)) (losses : ShelfCounts)
            → StandsSince first losses (at self)
            → HasStopped first (C.got result.2) (F.seen result.1.face) (pour_end result.0) }
        ensures cause { result.0.stopped ≡ quit_by self.work.tally.stopped }
        ensures carrier { let seen = carrying C.got C.tags C.counts C.pace in
            Cancels (seen self.carrier) (seen result.2) }
    {
        let Forward {
            mut stream,
            mut carrier,
            mut work,
        } = self;
        halt(&mut stream, &mut carrier, &mut work);
        let poured = Poured::of_tally(&mut work.tally, stream.alloc());
        (poured, stream, carrier)
    }

    /// The face, which has left, and the carrier.
    pub fn parts(self) -> (F, C)
        requires left { (F.seen self.face).left ≡ true }
        ensures { (result.0 ≡ self.face) × (result.1 ≡ self.carrier) }
    {
        let Forward {
            stream,
            carrier,
            work: _,
        } = self;
        (stream.into_face(), carrier)
    }
}

impl<F: AppFace + Drop, C: Carrier + Drop> Future for Forward<F, C> {
    type Output = Poured;

    ghost can_poll = { λ s. MayTurn (sight_of F.seen (carrying C.got C.tags C.counts C.pace) s) };

    ghost needs = { λ _ _. ⊤ };

    /// What a last turn gives and does.
    ghost gives = { λ s. TellsAt (sight_of F.seen (carrying C.got C.tags C.counts C.pace) s) };

    /// One turn, which asks for a notice by `poll_notice`.
    fn poll(&mut self, cx: &mut Context<'_>) -> Poll<Poured>
        requires { let at = sight_of F.seen (carrying C.got C.tags C.counts C.pace) in
            MayTurn (at self.old) }
        ensures value { let at = sight_of F.seen (carrying C.got C.tags C.counts C.pace) in
            IfReady result (TellsAt (at self.old)) }
        ensures same { let at = sight_of F.seen (carrying C.got C.tags C.counts C.pace) in
            OnPending result ((x : Told) → TellsAt (at self.new) x → TellsAt (at self.old) x) }
        ensures again { let at = sight_of F.seen (carrying C.got C.tags C.counts C.pace) in
            OnPending result (MayTurn (at self.new)) }
        ensures wakes { AsksAgain cx.old cx.new result }
        ensures makes { let at = sight_of F.seen (carrying C.got C.tags C.counts C.pace) in
            PollMakes (λ look.
            F.tells look (app_gist (F.seen self.new.face)) (F.beside self.new.face))
            (at self.old) (at self.new) result }
        // With which urge it asked the carrier for a notice, and that it asked once.
        ensures asks { let at = sight_of F.seen (carrying C.got C.tags C.counts C.pace) in
            Asks C.answers C.tags C.pace (stage_at (at self.old)) (stage_at (at self.new))
            self.old.carrier self.new.carrier }
        ensures seat { SameSeat F.seen F.beside self.old.face self.new.face }
    {
        match self.poll_turn(cx) {
            PollTurn::Did => cx.yield_now(),
            PollTurn::Idle(_) => cx.yield_now(),
            PollTurn::Ended(poured) => Poll::Ready(poured),
        }
    }
}
