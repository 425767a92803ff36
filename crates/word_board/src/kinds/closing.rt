ghost use Rattle.std.specs.Prelude.{◌≡◌, ◌<◌, [], ◌∷◌, true, length, nat_lt, if◌then◌else◌};
ghost use Rattle.area_layout.specs.Layout.{all_buffers, pool_buffers};
ghost use Rattle.board_face.specs.{AppCalls.{HasHeld}, AppEvents.{released}, NicCalls.{HasOwn}, NicEvents.{cache_room, shut, gave_up}, Sides.{nic_at, app_at}, SlotSteps.{side_dealt}, declared.views.nic.{Fate.TheVariants.{Honoured}, Judged.TheVariants.{Owed}}};
ghost use Rattle.word_board.specs.AtHand.{AppIsBare, CardIsBare, HasEntry};

use crate::kinds::{free_honoured, give_back, list_by_app, list_by_card, release_held, shut_own};
use crate::stepper::{AppStepper, CardStepper};
use board_face::Filling;
use zr_kinds::{Place, Rqe};

/// The card lists this buffer where it has it in hand. It has no other in hand.
fn list_last_by_card(card: &mut CardStepper, buffer: u32, in_hand: bool)
    requires of_pool { in_hand ≡ true → buffer < pool_buffers card.old.board.setting.layout }
    requires hands { card.old.side.inside.hands ≡ (if in_hand then buffer ∷ [] else []) }
    ensures { card.new ≡ record card.old {
      side = record card.old.side {
        inside = record card.old.side.inside {
          hands = [];
        };
      };
    } }
{
    if in_hand {
        list_by_card(card, buffer);
    }
}

/// So does an application.
pub(crate) fn list_last_by_app(app: &mut AppStepper, buffer: u32, in_hand: bool)
    requires of_pool { in_hand ≡ true → buffer < pool_buffers app.old.board.setting.layout }
    requires hands { app.old.side.inside.hands ≡ (if in_hand then buffer ∷ [] else []) }
    ensures { app.new ≡ record app.old {
      side = record app.old.side {
        inside = record app.old.side.inside {
          hands = [];
        };
      };
    } }
{
    if in_hand {
        list_by_app(app, buffer);
    }
}

/// The card closes a buffer: its own reference goes. A pool buffer that comes to be free by that is cached where the cache has
/// `room`, and listed else. It answers whether no holder is left.
pub(crate) fn shut_buffer(card: &mut CardStepper, own: Filling, pool: u32, room: bool) -> bool
    requires bare { CardIsBare card.old }
    requires within { own.buffer < all_buffers card.old.board.setting.layout }
    requires out { HasOwn card.old.side.view own }
    requires pool { pool ≡ pool_buffers card.old.board.setting.layout }
    requires room { room ≡ nat_lt (length card.old.side.view.cache) cache_room }
    ensures { card.new ≡ record card.old {
      side = nic_at card.old.side (shut card.old.side.view own result);
    } }
{
    let last = shut_own(card, own);
    list_last_by_card(card, own.buffer, last && own.buffer < pool && !room);
    last
}

/// An entry in hand, with its application and the slot that it was loaded from.
#[derive(Clone, Copy)]
pub(crate) struct Loaded {
    pub(crate) app: u32,
    pub(crate) slot: u32,
    pub(crate) entry: Rqe,
}

/// The card deals with an entry in hand that is a return: both counts are lowered, a pool buffer that comes to be free by that
/// is cached or listed as in `shut_buffer`, and then the slot is freed. It answers whether no holder is left.
pub(crate) fn honour_entry(
    card: &mut CardStepper,
    loaded: Loaded,
    buffer: u32,
    pool: u32,
    room: bool,
) -> bool
    requires bare { CardIsBare card.old }
    requires entry { HasEntry card.old loaded.app loaded.slot loaded.entry (Owed buffer) }
    requires within { buffer < all_buffers card.old.board.setting.layout }
    requires pool { pool ≡ pool_buffers card.old.board.setting.layout }
    requires room { room ≡ nat_lt (length card.old.side.view.cache) cache_room }
    ensures { card.new ≡ record card.old {
      side = side_dealt
          (nic_at card.old.side (gave_up card.old.side.view buffer result)) loaded.app loaded.entry
          (Honoured buffer);
    } }
{
    let last = give_back(card, loaded.app, loaded.entry, buffer);
    list_last_by_card(card, buffer, last && buffer < pool && !room);
    free_honoured(card, loaded.app, loaded.slot, loaded.entry, buffer);
    last
}

/// An application gives a held piece up. A pool buffer that comes to be free by that is listed.
pub(crate) fn release_piece(app: &mut AppStepper, place: Place, pool: u32)
    requires bare { AppIsBare app.old }
    requires within { place.buffer < all_buffers app.old.board.setting.layout }
    requires out { HasHeld app.old.side.view place }
    requires pool { pool ≡ pool_buffers app.old.board.setting.layout }
    ensures { app.new ≡ record app.old {
      side = app_at app.old.side (released app.old.side.view place);
    } }
{
    let last = release_held(app, place);
    list_last_by_app(app, place.buffer, last && place.buffer < pool);
}
