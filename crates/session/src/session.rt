ghost use Rattle.std.specs.Prelude.{◌≡◌, IfOk};
ghost use Rattle.session_model.specs.Session.{IsReady, IsWaiting, asked, told, new_member, after};
ghost use Rattle.session_model.specs.Runs.{is_first_close};
ghost use Rattle.session.specs.Asks.{ask_of, behind_ask, IsAsk, OnEnd, WaitsOn};

use crate::Script;
use crate::begin::{is_open, upcoming};
use crate::hear::heard;
use script_model::{Op, SLOTS};
use session_model::{Answer, Ask, Begun, Doing, Hand, Heard, Reply, Slot};
use std::alloc::{AllocError, Global};
use std::collections::VecDeque;
use std::marker::Model;

/// A session: what is left of its script, its slots, and the replies that it has.
#[derive(Debug, Drop)]
pub struct Session {
    id: u32,
    left: VecDeque<Op>,
    slots: [Slot; SLOTS],
    past: u32,
    hand: Hand,
    replies: Vec<Reply>,
}

impl Model for Session {
    ghost use Rattle.std.specs.Prelude.{length, vec_capacity};
    ghost use Rattle.session_model.specs.Session.{Member};
    ghost use Rattle.session.specs.Keeps.{Keeps};

    ghost Value = { Member };

    ghost view = { λ s. record { session = record { id = s.id; op = length s.replies.items; left = s.left.items; slots = s.slots; past = s.past; hand = s.hand }; replies = s.replies.items } };

    ghost invariant = { λ s. Keeps s.left.items s.past s.hand (length s.replies.items) (vec_capacity s.replies) };
}

impl Session {
    /// The session of this number, before its first operation, with the room for all of its replies.
    pub fn new(alloc: Global, id: u32, script: Script) -> Result<Session, AllocError>
        ensures { IfOk result (λ s. s ≡ new_member id script) }
    {
        let ops = script.into_ops();
        let replies = Vec::with_capacity(alloc, ops.len() + SLOTS)?;
        Ok(Session {
            id,
            left: VecDeque::from(ops),
            slots: [Slot::Closed; SLOTS],
            past: 0,
            hand: Hand::Nothing,
            replies,
        })
    }

    /// The number of the operation that is being done or comes next.
    pub fn op(&self) -> u32
        ensures { result ≡ self.now.session.op }
    {
        self.replies.len() as u32
    }

    /// Its number.
    pub fn id(&self) -> u32
        ensures { result ≡ self.now.session.id }
    {
        self.id
    }

    /// Whether it waits for the first close of a slot, for whose entry the opening took the room.
    pub fn has_room(&self) -> bool
        ensures { result ≡ is_first_close self.now.session.slots self.now.session.hand }
    {
        match self.hand {
            Hand::Closes(slot, _) => is_open(&self.slots, slot),
            _ => false,
        }
    }

    /// The replies so far, one for each operation.
    pub fn replies(&self) -> &[Reply]
        ensures { result.now ≡ self.now.replies }
    {
        self.replies.as_slice()
    }

    /// What it asks for next: a call, whose answer it waits for then; nothing, where its operation
    /// made none and its reply is kept; or nothing, where it has ended. It takes no memory.
    pub fn ask(&mut self) -> Ask
        requires { IsReady self.old.session.hand }
        ensures asks { result ≡ ask_of (asked self.old.session).doing }
        ensures goes_on { self.new ≡ behind_ask self.old }
        ensures lawful { IsAsk result }
        ensures waits { WaitsOn result self.new.session.hand }
        ensures ended { OnEnd result (self.new ≡ self.old) }
    {
        let Begun { doing, hand } = upcoming(
            &mut self.left,
            &self.slots,
            &mut self.past,
            self.hand,
        );
        match doing {
            Doing::CallsTree(call) => {
                self.hand = hand;
                Ask::Tree(call)
            }
            Doing::CallsFile(node, call) => {
                self.hand = hand;
                Ask::File(node, call)
            }
            Doing::Replies(reply) => {
                self.hand = Hand::Nothing;
                self.replies.push(reply).unwrap();
                Ask::Done
            }
            Doing::Ends => {
                self.hand = hand;
                Ask::End
            }
        }
    }

    /// Tells it the answer to its call. It takes no memory.
    pub fn tell(&mut self, answer: Answer)
        requires { IsWaiting self.old.session.hand }
        ensures told { self.new ≡ after self.old (told self.old.session answer) }
        ensures ready { IsReady self.new.session.hand }
    {
        match heard(self.hand, answer) {
            Heard::GoesOn(hand) => self.hand = hand,
            Heard::Ends(reply) => {
                self.hand = Hand::Nothing;
                self.replies.push(reply).unwrap();
            }
            Heard::EndsWith(slot, what, reply) => {
                self.slots[slot as usize] = what;
                self.hand = Hand::Nothing;
                self.replies.push(reply).unwrap();
            }
        }
    }
}
