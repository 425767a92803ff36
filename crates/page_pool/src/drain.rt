ghost use Rattle.std.specs.Prelude.{◌≡◌, ℕ, ◌+◌, ◌<◌};
ghost use Rattle.zr_kinds.specs.declared.outcome.PoolStats.{PoolStats};
ghost use Rattle.board_face.specs.{Looks.{NicRose}, NicCalls.{apps_of, NicOnlySaw}, NicEvents.{nic_gist}, declared.views.nic.NicLook.TheVariants.{RingEmpty}};
ghost use Rattle.page_pool.specs.{Pool.{PoolStands}, Dealing.{DrainsRings}, Gathering.{DrainsRing}};

use crate::Pool;
use board_face::{Entry, NicFace};
use zr_kinds::PoolStats;

/// More buffers than the cache holds.
const MORE_THAN_CACHED: u32 = 129;

/// Deals with entries of one application: as many as its ring has places, until the ring was seen empty, or until so many
/// buffers are cached. It answers how many.
pub(crate) fn drain_ring<F: NicFace>(
    face: &mut F,
    stats: &mut PoolStats,
    app: u32,
    enough: u32,
) -> u32
    requires app { app < apps_of (F.seen face.old).setting }
    ensures drains { DrainsRing stats.old stats.new (F.seen face.old) (F.seen face.new) app enough
        result }
    ensures none { result ≡ 0 → 128 < enough →
        NicOnlySaw (RingEmpty app) (F.seen face.old) (F.seen face.new)
        × F.tells (RingEmpty app) (nic_gist (F.seen face.new)) (F.beside face.new) }
    ensures beside { F.beside face.new ≡ F.beside face.old }
{
    let places = face.places();
    let mut count = 0;
    let mut cached = face.cached();
    while count < places && cached < enough {
        match face.entry(app) {
            Entry::Empty => break,
            Entry::Stray => stats.strays = stats.strays.saturating_add(1),
            Entry::Freed => {}
            Entry::Honoured => {}
        }
        count += 1;
        cached = face.cached();
    }
    count
}

/// Deals with refill entries of each application: up to as many as its ring has places, until the ring is seen empty. It
/// answers how many, strays included. It may be called after `nic_close` too.
pub fn nic_drain<F: NicFace>(face: &mut F, pool: &mut Pool) -> u32
    requires stands { PoolStands pool.old (F.seen face.old) }
    ensures stands { PoolStands pool.new (F.seen face.new) }
    ensures drains { DrainsRings pool.old.stats pool.new.stats (F.seen face.old) (F.seen face.new)
        result }
    ensures pool { pool.new ≡ record pool.old { stats = pool.new.stats } }
    ensures none { result ≡ 0 → (a : ℕ) → a < apps_of (F.seen face.old).setting →
        NicRose (RingEmpty a) (F.seen face.old) (F.seen face.new)
        × F.tells (RingEmpty a) (nic_gist (F.seen face.new)) (F.beside face.new) }
    ensures still { result ≡ 0 → nic_gist (F.seen face.new) ≡ nic_gist (F.seen face.old) }
    ensures beside { F.beside face.new ≡ F.beside face.old }
{
    let mut count = 0;
    for app in 0..face.apps() {
        count += drain_ring(face, &mut pool.stats, app, MORE_THAN_CACHED);
    }
    count
}
