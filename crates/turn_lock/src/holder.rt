// What the holders of seats and notes know of the lock, in proofs alone, and the rule that ties it to the two words and the slot.
use crate::turn::Logged;
use atomic_table::{Join, Play, Seat, Shared, Split, TableRule};
use std::collections::LinkedList;
use std::snapshot::Snapshot;

// Where a holder stands: it was spent, has a note, has a seat between turns, waits with a ticket, or has the turn and found this log.
pub enum Phase<E> {
    Gone,
    Told,
    Idle,
    Waiting(u64),
    InTurn(u64, LinkedList<E>),
}

// What a holder knows. No value of it is made.
pub struct Holder<T, E> {
    pub opening: Option<T>,
    pub session: u64,
    // Of session 0 alone: how many seats were made.
    pub sessions: u64,
    // How many tickets it may have out, those of the seats that it may still make included.
    pub parts: u64,
    pub seen: LinkedList<E>,
    pub mine: LinkedList<E>,
    // The sessions that it gathered, each with its entries.
    pub gathered: LinkedList<(u64, LinkedList<E>)>,
    // More lists that begin the log.
    pub aside: LinkedList<LinkedList<E>>,
    pub phase: Phase<E>,
}

pub(crate) type Place<T, E> = Seat<Option<T>, Holder<T, E>>;

pub(crate) type Words<T, E> = Shared<Option<T>, Holder<T, E>, Snapshot<T>, Tickets>;

// The rule of the lock. Word 0 counts the tickets that were taken, word 1 the turns that are over.
pub struct Tickets;

impl<T: Logged> TableRule<Option<T>, Holder<T, T::Entry>, Snapshot<T>> for Tickets {
    ghost use Rattle.turn_lock.specs.Rule.{IsTurnLock};
    ghost use Rattle.turn_lock.specs.Steps.{first_holder};

    ghost holds = { λ opening. IsTurnLock T.log T.session_of T.lawful opening.value };

    ghost first = { λ opening. first_holder opening.value };
}

pub(crate) struct TakeTicket;

impl<T, E> Play<Option<T>, Holder<T, E>> for TakeTicket {
    ghost use Rattle.turn_lock.specs.Steps.{Takes};

    ghost then = { Takes };
}

pub(crate) struct LookAtServed;

impl<T: Logged> Play<Option<T>, Holder<T, T::Entry>> for LookAtServed {
    ghost use Rattle.turn_lock.specs.Steps.{Looks};

    ghost then = { Looks T.log T.session_of T.lawful };
}

pub(crate) struct FinishTurn;

impl<T: Logged> Play<Option<T>, Holder<T, T::Entry>> for FinishTurn {
    ghost use Rattle.turn_lock.specs.Steps.{Finishes};

    ghost then = { Finishes T.log T.session_of };
}

// A look at the tickets, which tells that all that was set aside begins one log.
pub(crate) struct TellAside;

impl<T, E> Play<Option<T>, Holder<T, E>> for TellAside {
    ghost use Rattle.turn_lock.specs.Steps.{Tells};

    ghost then = { Tells };
}

pub(crate) struct MakeNote;

impl<T, E> Split<Holder<T, E>> for MakeNote {
    ghost use Rattle.turn_lock.specs.Steps.{note_holder};

    ghost left = { λ v. v };

    ghost right = { note_holder };
}

pub(crate) struct LearnNote;

impl<T, E> Join<Holder<T, E>> for LearnNote {
    ghost use Rattle.turn_lock.specs.Steps.{learned_holder, spent_holder};

    ghost both = { learned_holder };

    ghost spent = { spent_holder };
}

pub(crate) struct MakeSeat;

impl<T, E> Split<Holder<T, E>> for MakeSeat {
    ghost use Rattle.turn_lock.specs.Steps.{maker_holder, made_holder};

    ghost left = { maker_holder };

    ghost right = { made_holder };
}

pub(crate) struct GatherSeat;

impl<T, E> Join<Holder<T, E>> for GatherSeat {
    ghost use Rattle.turn_lock.specs.Steps.{gathering_holder, spent_holder};

    ghost both = { gathering_holder };

    ghost spent = { spent_holder };
}
