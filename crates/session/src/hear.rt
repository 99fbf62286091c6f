ghost use Rattle.std.specs.Prelude.{◌≡◌};
ghost use Rattle.session_model.specs.Session.{heard as heard_of, reply_of as reply_to, heard_found as heard_found_of, heard_attached as heard_attached_of, heard_closed as heard_closed_of};

use session_model::{Answer, FileReply, Hand, Heard, Reply, Slot};
use tree_model::TreeReply;

fn reply_of(answer: Answer) -> Reply
    ensures { result ≡ reply_to answer }
{
    match answer {
        Answer::Tree(reply) => Reply::Tree(reply),
        Answer::File(reply) => Reply::File(reply),
        Answer::Memory => Reply::Memory,
    }
}

fn heard_found(slot: u32, answer: Answer) -> Heard
    ensures { result ≡ heard_found_of slot answer }
{
    match answer {
        Answer::Tree(TreeReply::Node(node)) => Heard::GoesOn(Hand::Found(slot, node)),
        answer => Heard::Ends(reply_of(answer)),
    }
}

fn heard_attached(slot: u32, node: u32, answer: Answer) -> Heard
    ensures { result ≡ heard_attached_of slot node answer }
{
    match answer {
        Answer::File(FileReply::Done) => {
            Heard::EndsWith(slot, Slot::Open(node), Reply::Opened(node))
        }
        answer => Heard::Ends(reply_of(answer)),
    }
}

fn heard_closed(slot: u32, node: u32, answer: Answer) -> Heard
    ensures { result ≡ heard_closed_of slot node answer }
{
    match answer {
        Answer::File(FileReply::Done) => {
            Heard::EndsWith(slot, Slot::Closed, Reply::File(FileReply::Done))
        }
        answer => Heard::EndsWith(slot, Slot::Kept(node), reply_of(answer)),
    }
}

/// What an answer comes to, with this in hand. It takes no memory.
pub(crate) fn heard(hand: Hand, answer: Answer) -> Heard
    ensures { result ≡ heard_of hand answer }
{
    match hand {
        Hand::Finds(slot) => heard_found(slot, answer),
        Hand::Attaches(slot, node) => heard_attached(slot, node, answer),
        Hand::Closes(slot, node) => heard_closed(slot, node, answer),
        _ => Heard::Ends(reply_of(answer)),
    }
}
