//! Values that move from the end of one list to the end of another.
ghost use Rattle.std.specs.Prelude.{◌≡◌, ◌+◌, ◌-◌, ◌≤◌, ◌++◌, reverse, vec_len, vec_capacity};

/// Moves the last of a list, until so many are left. It takes no memory.
pub fn move_last<T>(from: &mut Vec<T>, keep: usize, to: &mut Vec<T>)
    requires keep { keep ≤ vec_len from.old }
    requires room { vec_len to.old + (vec_len from.old - keep) ≤ vec_capacity to.old }
    ensures many { vec_len to.new + keep ≡ vec_len to.old + vec_len from.old }
    ensures kept { vec_len from.new ≡ keep }
    ensures moved { to.new.items ++ reverse from.new.items
        ≡ to.old.items ++ reverse from.old.items }
    ensures room { vec_capacity from.new ≡ vec_capacity from.old }
{
    while from.len() > keep {
        let Some(last) = from.pop() else {
            unreachable!()
        };
        to.push_reserved(last);
    }
}
