ghost use Rattle.std.specs.Prelude.{◌≡◌, ◌<◌, None, Some, ◌≢◌};
ghost use Rattle.area_layout.specs.Layout.{all_buffers, pool_buffers, judged};
ghost use Rattle.board_face.specs.{declared.{views.nic.Judged.TheVariants.{Not}, answers.Entry.TheVariants.{Empty as got_none}}, NicEvents.{nic_gist}};
ghost use Rattle.word_board.specs.{AtHand.{CardIsBare, DealtEntry, HasEntry, TakesEntryAt}, Told.{SawRingEmpty}};

use crate::found::cache_if;
use crate::kinds::{Loaded, free_stray, free_void, honour_entry, look_user, take_entry};
use crate::stepper::CardStepper;
use area_layout::Layout;
use board_face::Entry;
use board_parts::{CACHE_ROOM, Cache};

/// The card deals with an entry in hand that names this buffer: the application's user count there tells whether it is a return
/// or a stray. A pool buffer that comes to be free enters the cache where that has room.
fn deal_with(
    card: &mut CardStepper,
    loaded: Loaded,
    buffer: u32,
    pool: u32,
    cache: &mut Cache,
) -> Entry
    requires bare { CardIsBare card.old }
    requires entry { HasEntry card.old loaded.app loaded.slot loaded.entry Not }
    requires within { buffer < all_buffers card.old.board.setting.layout }
    requires names { judged card.old.board.setting.layout loaded.entry ≡ Some buffer }
    requires pool { pool ≡ pool_buffers card.old.board.setting.layout }
    requires cache { cache.old.items ≡ card.old.side.view.cache }
    ensures dealt { DealtEntry card.old card.new loaded.app result cache.new.items }
    ensures some { result ≢ got_none }
{
    if look_user(card, loaded.app, loaded.entry, buffer) {
        free_stray(card, loaded.app, loaded.slot, loaded.entry);
        return Entry::Stray;
    }
    let room = cache.len() < CACHE_ROOM;
    let free = honour_entry(card, loaded, buffer, pool, room) && buffer < pool;
    cache_if(free, buffer, cache);
    if free { Entry::Freed } else { Entry::Honoured }
}

/// The card looks at the next slot of an application, and deals with the entry there. A pool buffer that comes to be free by it
/// enters the cache where that has room, and is listed else.
pub(crate) fn next_entry(
    card: &mut CardStepper,
    layout: &Layout,
    app: u32,
    slot: u32,
    cache: &mut Cache,
) -> Entry
    requires bare { CardIsBare card.old }
    requires layout { layout.now ≡ card.old.board.setting.layout }
    requires slot { TakesEntryAt card.old app slot }
    requires idle { card.old.side.inside.entry ≡ None }
    requires cache { cache.old.items ≡ card.old.side.view.cache }
    ensures dealt { DealtEntry card.old card.new app result cache.new.items }
    ensures told { result ≡ got_none
        → SawRingEmpty card.old.board.setting (nic_gist card.old.side.view) app }
{
    let Some(entry) = take_entry(card, app, slot) else {
        return Entry::Empty;
    };
    let Some(buffer) = layout.judge(&entry) else {
        free_void(card, app, slot, entry);
        return Entry::Stray;
    };
    let loaded = Loaded { app, slot, entry };
    deal_with(card, loaded, buffer, layout.buffers(), cache)
}
