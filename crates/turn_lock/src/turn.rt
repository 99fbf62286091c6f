ghost use Rattle.std.specs.Prelude.{◌≡◌, ℕ, List, [], ◌∷◌, ◌++◌};

use crate::chain::Link;

/// A state that stands for a log of its turns.
pub trait Logged {
    /// One turn in the log.
    type Entry;

    /// The log that the state stands for.
    ghost log: { Self → List Self.Entry };

    /// The session whose turn an entry tells.
    ghost session_of: { Self.Entry → ℕ };

    /// Whether a state, with its log, may come about from an opening state.
    ghost lawful: { Self → Self → Type 0 };
}

/// One turn on a state.
pub trait Turn<T: Logged> {
    /// What the turn tells its session.
    type Answer;

    /// The session whose turn it is.
    ghost session: { Self → ℕ };

    /// What the turn answers and leaves, by the state before it, its answer and the state behind it.
    ghost gives: { Self → T → Self.Answer → T → Type 0 };

    /// Takes the turn: it adds exactly one entry, of its session, and keeps the state lawful from each opening state from
    /// which it was.
    fn go(self, state: &mut T, link: Link<T::Entry>) -> Self::Answer
        ensures one { (e : T.Entry) × (T.log state.new ≡ T.log state.old ++ e ∷ []) × (T.session_of e ≡ session self) }
        ensures gives { gives self state.old result state.new }
        ensures lawful { (opening : T) → T.lawful opening state.old → T.lawful opening state.new };
}
