//! What a call does in its turn.

ghost use Rattle.std.specs.Prelude.{◌≡◌};
ghost use Rattle.sg_demo.specs.Actions.{action_of};

/// What a call does in its turn.
#[derive(Clone, Copy, PartialEq, Eq)]
pub enum Action {
    /// The peer seals its next packet, which is lost.
    Lose,
    /// What the peer sealed last arrives again.
    Repeat,
    /// The peer seals two packets, which arrive in the other order.
    Swap,
    /// A plain packet arrives.
    Answer,
    /// The peer seals its next packet, which arrives changed.
    Change,
    /// The peer seals its next packet, which arrives.
    Send,
}

/// The action that a word draws.
pub fn action_of(word: u32) -> Action
    ensures { result ≡ action_of word }
{
    match word % 8 {
        0 => Action::Lose,
        1 => Action::Repeat,
        2 => Action::Swap,
        3 => Action::Answer,
        4 => Action::Change,
        _ => Action::Send,
    }
}
