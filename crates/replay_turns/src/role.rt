//! Whose turn it is.

ghost use Rattle.std.specs.Prelude.{◌≡◌};
ghost use Rattle.replay_turns.specs.Schedule.{IsTurn, role_of};

/// Whose turn it is.
#[derive(Clone, Copy, Debug, PartialEq, Eq)]
pub enum Role {
    Card,
    /// The application with this number, from 0.
    App(u32),
}

/// Whose turn a letter asks for: `n` is the card, a digit the application with that number.
pub fn role_of(letter: u8, apps: u32) -> Role
    requires { IsTurn apps letter }
    ensures { result ≡ role_of letter }
{
    if letter == b'n' {
        return Role::Card;
    }
    Role::App(u32::from(letter - b'0'))
}
