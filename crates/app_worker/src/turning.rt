//! The steps of a turn, over all that an application keeps.
ghost use Rattle.std.specs.Prelude.{◌≡◌, ◌≢◌, false, true, ◌<◌, [], length, ◌^◌, IfSome, ◌⊎◌};
ghost use Rattle.board_face.specs.{declared.views.app.AppLook.TheVariants.{RefillInUse}, AppEvents.{app_gist}};
ghost use Rattle.flow_queues.specs.Totals.{wanted_of};
ghost use Rattle.app_worker.specs.{StateOf.{state_of}, Works.{Works, NoneDue, StillWorks}, ShelfWent.{ShelfWent}, Whole.{GivesOneOrNone, Reads}};

use crate::reading::{give_due, keep_due, read_loan};
use crate::stack::Stack;
use board_face::AppFace;
use circular_buffer::HeapCircularBuffer;
use flow_queues::{Lending, find};
use zr_io::{Failed, Shelf};
use zr_kinds::{Completion, Stopped};

/// What a reading did.
#[derive(Clone, Copy, Debug, PartialEq, Eq)]
pub enum Read {
    /// The oldest loan was read and appended, and is due.
    Did,
    /// Nothing is unread.
    NoneUnread,
    /// The application has written as many bytes as it is to write, which stopped it. The loan is due.
    Quit,
    /// The shelf failed. The loan is due.
    Failed,
}

/// Gives the loan back that is due, if one is, or keeps it to the end: whether none is due any more.
pub fn give_one<F: AppFace>(face: &mut F, st: &mut Stack) -> bool
    requires works { Works (state_of st.old) (F.seen face.old) }
    ensures works { StillWorks (state_of st.old) (state_of st.new) (F.seen face.old)
        (F.seen face.new) }
    ensures gives { GivesOneOrNone (state_of st.old) (state_of st.new) (F.seen face.old)
        (F.seen face.new)
        result }
    ensures told { result ≡ false
        → F.tells RefillInUse (app_gist (F.seen face.new)) (F.beside face.new) }
    ensures beside { F.beside face.new ≡ F.beside face.old }
{
    let reserve = face.reserve();
    if keep_due(reserve, st.how.leak, &mut st.due, &mut st.leaked) {
        return true;
    }
    give_due(face, &mut st.due, st.how.stray, &mut st.stray)
}

/// Whether all that is unread is to be read, once the oldest was taken out: no more once nothing is unread.
fn still_flushes(flush: bool, unread: &HeapCircularBuffer<(Completion, Lending)>) -> bool
    ensures on { result ≡ true → (flush ≡ true) × (unread.now.items ≢ []) }
    ensures off { result ≡ false → (flush ≡ false) ⊎ (unread.now.items ≡ []) }
{
    flush && !unread.is_empty()
}

/// How many of the next bytes the application is to write.
fn wanted(quit: Option<u64>, written: u64, len: u32) -> u32
    ensures is { result ≡ wanted_of quit written len }
    ensures range { IfSome quit (λ bytes. bytes < 2 ^ 64) }
{
    let Some(bytes) = quit else {
        return len;
    };
    u64::from(len).min(bytes.saturating_sub(written)) as u32
}

/// Reads the oldest loan that isn't read yet, and appends it, up to the byte at which the application quits. Then the
/// loan is due.
pub fn read_one<F: AppFace, T: Shelf>(face: &mut F, st: &mut Stack, shelf: &mut T) -> Read
    requires none { NoneDue (state_of st.old) (F.seen face.old) }
    requires more { st.old.phase.ended ≡ false → st.old.reader.flush ≡ false
        → st.old.how.hold < length st.old.reader.unread.items }
    ensures reads { Reads (state_of st.old) (state_of st.new) (F.seen face.old) (F.seen face.new)
        (T.kept shelf.old) (T.kept shelf.new) (T.counts shelf.old).faults
        (T.counts shelf.new).faults result }
    ensures went { ShelfWent Read.Failed (state_of st.old) (state_of st.new) (T.counts shelf.old)
        (T.counts shelf.new) result }
    ensures beside { F.beside face.new ≡ F.beside face.old }
{
    let Some((completion, lending)) = st.reader.unread.pop_front() else {
        return Read::NoneUnread;
    };
    st.reader.flush = still_flushes(st.reader.flush, &st.reader.unread);
    let Some(i) = find(&st.queues.index, completion.user_data) else {
        // Each completion is of a flow that has a queue, so this is never reached.
        st.due = Some(lending);
        return Read::Failed;
    };
    let own = &mut st.queues.flows[i];
    own.has_sound_queue();
    let before = own.bytes;
    let most = wanted(st.how.quit, st.tally.written, lending.loan.place().len);
    let chunk = &mut *st.reader.chunk;
    let result = read_loan(
        face,
        &lending,
        most,
        own.number,
        &mut own.bytes,
        chunk,
        shelf,
    );
    let gained = own.bytes - before;
    st.tally.written = st.tally.written.saturating_add(gained);
    st.due = Some(lending);
    if let Err(Failed) = result {
        return Read::Failed;
    }
    if st.how.quit == Some(st.tally.written) {
        st.phase.stopped = Stopped::Quit;
        return Read::Quit;
    }
    Read::Did
}
