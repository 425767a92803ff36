//! The numbered calls of what stands over memory, and how they go.
ghost use Rattle.std.specs.{Prelude.{◌≡◌, ◌≤◌, ◌<◌, ◌+◌, ◌-◌, ◌++◌, ◌⊎◌, ◌↔◌, nat_eq, length, IsErr, IsSome, MatchResult, vec_capacity}, Map.{lookup}};
ghost use Rattle.zr_io.specs.Memory.{raised, front_out};

use crate::traits::Failed;

/// Makes a count one higher.
pub(crate) fn raise(count: &mut u64)
    ensures value { count.new ≡ raised count.old }
    ensures later { count.old ≤ count.new }
{
    *count = count.saturating_add(1);
}

/// How many bytes go out before the fault of a call, where the list names the call.
pub(crate) fn entry_for(fails: &[(u64, usize)], call: u64) -> Option<usize>
    ensures { result ≡ lookup (nat_eq call) fails.now }
{
    for &(number, count) in fails {
        if number == call {
            return Some(count);
        }
    }
    None
}

/// Adds a piece to bytes that have room for `room` in all, or at a listed fault its front.
pub(crate) fn receive(
    bytes: &mut Vec<u8>,
    room: usize,
    entry: Option<usize>,
    piece: &[u8],
) -> Result<(), Failed>
    requires held { length bytes.old.items ≤ room }
    requires reserved { room ≤ vec_capacity bytes.old }
    ensures fails { IsErr result ↔ (room < length bytes.old.items + length piece.now)
        ⊎ IsSome entry }
    ensures after { MatchResult result
        (λ _. bytes.new.items ≡ bytes.old.items ++ piece.now)
        (λ _. bytes.new.items ≡ bytes.old.items
        ++ front_out (room - length bytes.old.items) entry piece.now) }
    ensures within { length bytes.new.items ≤ room }
    ensures capacity { room ≤ vec_capacity bytes.new }
{
    if room - bytes.len() < piece.len() {
        return Err(Failed);
    }
    match entry {
        None => {
            bytes.extend_from_slice(piece).unwrap();
            Ok(())
        }
        Some(count) => {
            bytes
                .extend_from_slice(&piece[..count.min(piece.len())])
                .unwrap();
            Err(Failed)
        }
    }
}
