ghost use Rattle.std.specs.Prelude.{◌≡◌, ◌<◌, length, slice_set, IfOk};
ghost use Rattle.board_parts.specs.Opened.{new_apps};

use area_layout::Layout;
use atomic_table::{Play, Seat, Table, TableRule};
use board_face::{AppSide, NicSide};
use std::alloc::{AllocError, Global};
use std::marker::{Brand, Model, PhantomData};

/// What a role's diary says after a step. A call passes `Brand`, and its proof picks the value.
pub trait Next<V> {
    ghost next: { V };
}

impl Next<NicSide> for Brand {
    ghost use Rattle.board_face.specs.Blank.{blank_nic};

    ghost next = { blank_nic };
}

impl Next<AppSide> for Brand {
    ghost use Rattle.board_face.specs.Blank.{blank_app};

    ghost next = { blank_app };
}

/// Any state is allowed: a diary says what its one writer did.
pub struct AnyState<V, B: Next<V>> {
    marker: PhantomData<(V, B)>,
}

impl<V, B: Next<V>> TableRule<(), V, ()> for AnyState<V, B> {
    ghost holds = { λ _ _. Unit {0} };

    ghost first = { λ _. B.next };
}

/// A step after which the diary says `N.next`.
pub struct Turn<V, N: Next<V>> {
    marker: PhantomData<(V, N)>,
}

impl<V, N: Next<V>> Play<(), V> for Turn<V, N> {
    ghost then = { λ _ _ _ w. w.0 ≡ N.next };
}

/// What one role has done and knows: the view of its seat at a table of one word. Contracts see it as that view.
#[derive(Drop)]
pub struct Diary<V, B: Next<V>> {
    table: Table<(), V, (), AnyState<V, B>, Global>,
    seat: Seat<(), V>,
}

impl<V, B: Next<V>> Model for Diary<V, B> {
    ghost Value = { V };

    ghost coded = { V.code };

    ghost view = { λ d. d.seat.me.0 };

    ghost invariant = { λ d. (d.seat.table_id ≡ d.table.shared.table_id)
        × (0 < d.table.shared.table_id.words) };
}

impl<V, B: Next<V>> Diary<V, B> {
    /// A diary whose memory is taken here.
    pub fn open(alloc: Global) -> Result<Diary<V, B>, AllocError>
        ensures { IfOk result (λ d. d ≡ B.next) }
    {
        let (table, seat) = Table::of_words(alloc, &[0], &())?;
        Ok(Diary { table, seat })
    }

    /// One step on the table. `_about` is what the step is about, from which the caller's proof picks what the diary
    /// says then.
    pub fn note<N: Next<V>, X: Copy>(&mut self, _about: X)
        ensures { self.new ≡ N.next }
    {
        let table = &self.table;
        table.shared.load::<Turn<V, N>>(&mut self.seat, 0);
    }
}

/// The diaries of so many applications that have done nothing.
pub fn diaries(
    alloc: Global,
    layout: Layout,
    apps: u32,
    places: u32,
) -> Result<Vec<Diary<AppSide, Brand>>, AllocError>
    ensures { IfOk result (λ v.
        v.items ≡ new_apps (record { layout = layout; places = places }) 0 apps) }
{
    let mut diaries = Vec::with_capacity(alloc, apps as usize)?;
    for app in 0..apps {
        let mut diary = Diary::open(alloc)?;
        diary.note::<Brand, (Layout, u32, u32)>((layout, places, app));
        diaries.push(diary)?;
    }
    Ok(diaries)
}

/// One step in the diary of an application.
pub fn note_at<N: Next<AppSide>, X: Copy>(
    diaries: &mut Vec<Diary<AppSide, Brand>>,
    at: usize,
    about: X,
)
    requires { at < length diaries.old.items }
    ensures { diaries.new.items ≡ slice_set diaries.old.items at N.next }
{
    let diary = &mut diaries[at];
    diary.note::<N, X>(about);
}
