ghost use Rattle.std.specs.Prelude.{◌≡◌, true, None};
ghost use Rattle.board_face.specs.NicCalls.{IsOpen, HasNoToken};
ghost use Rattle.page_pool.specs.Pool.{PoolStands, HasNonePending, Closes};

use crate::Pool;
use board_face::NicFace;

/// Closes the current buffer and ends. Of this crate's calls only `nic_drain` may follow.
pub fn nic_close<F: NicFace>(face: &mut F, pool: &mut Pool)
    requires open { IsOpen (F.seen face.old) }
    requires stands { PoolStands pool.old (F.seen face.old) }
    requires none { HasNonePending pool.old }
    ensures stands { PoolStands pool.new (F.seen face.new) }
    ensures closes { Closes pool.old.current (F.seen face.old) (F.seen face.new) }
    ensures pool { pool.new ≡ record pool.old { current = None } }
    ensures out { HasNoToken (F.seen face.new) }
    ensures ended { (F.seen face.new).ended ≡ true }
    ensures beside { F.beside face.new ≡ F.beside face.old }
{
    if let Some(own) = pool.current.take() {
        face.shut(own);
    }
    face.end();
}
