//! About how much room a report takes, so that its octets aren't moved while it grows. The contracts say nothing: what is written
//! is right with any room, and where it is short, as it may be for long lists of names, the report grows.

use lower_image::image_length;
use served_model::ReportEnd;
use session::Session;
use session_model::{FileCall, FileEntry, FileReply, Reply, TreeEntry};
use tree_model::TreeCall;

/// The octets of a reply's line without its data.
const REPLY_LINE: usize = 16;

/// The octets of an entry's line without its data.
const ENTRY_LINE: usize = 64;

// Two digits for each octet.
fn digits_room(octets: usize) -> usize {
    octets.saturating_mul(2)
}

fn call_room(call: &FileCall) -> usize {
    match call {
        FileCall::Write(_, _, octets) => digits_room(octets.len()),
        _ => 0,
    }
}

fn file_reply_room(reply: &FileReply) -> usize {
    match reply {
        FileReply::Octets(octets) => digits_room(octets.len()),
        _ => 0,
    }
}

fn reply_room(reply: &Reply) -> usize {
    match reply {
        Reply::File(reply) => file_reply_room(reply),
        _ => 0,
    }
}

fn replies_room(replies: &[Reply]) -> usize {
    let mut room = 0usize;
    for reply in replies {
        room = room
            .saturating_add(REPLY_LINE)
            .saturating_add(reply_room(reply));
    }
    room
}

fn sessions_room(sessions: &[Session]) -> usize {
    let mut room = 0usize;
    for session in sessions {
        room = room
            .saturating_add(ENTRY_LINE)
            .saturating_add(replies_room(session.replies()));
    }
    room
}

fn file_entries_room(entries: &[&FileEntry]) -> usize {
    let mut room = 0usize;
    for entry in entries {
        room = room
            .saturating_add(ENTRY_LINE)
            .saturating_add(call_room(&entry.call))
            .saturating_add(file_reply_room(&entry.reply));
    }
    room
}

fn tree_call_room(call: &TreeCall) -> usize {
    match call {
        TreeCall::Resolve(path)
        | TreeCall::Create(path)
        | TreeCall::Mkdir(path)
        | TreeCall::Rmdir(path)
        | TreeCall::Unlink(path)
        | TreeCall::List(path)
        | TreeCall::Stat(path) => path.parts().octets().len(),
        TreeCall::Rename(paths) => {
            let old = paths.old().octets().len();
            old.saturating_add(paths.new().octets().len())
        }
    }
}

fn tree_entries_room(entries: &[&TreeEntry]) -> usize {
    let mut room = 0usize;
    for entry in entries {
        room = room
            .saturating_add(ENTRY_LINE)
            .saturating_add(tree_call_room(&entry.call));
    }
    room
}

fn end_room(end: &ReportEnd) -> usize {
    match end {
        ReportEnd::Image(tree) => image_length(tree).saturating_add(ENTRY_LINE),
        ReportEnd::Stuck { .. } => ENTRY_LINE,
    }
}

/// The room of a report of these sessions, entries and end.
pub(crate) fn report_room(
    sessions: &[Session],
    tree_entries: &[&TreeEntry],
    file_entries: &[&FileEntry],
    end: &ReportEnd,
) -> usize {
    sessions_room(sessions)
        .saturating_add(tree_entries_room(tree_entries))
        .saturating_add(file_entries_room(file_entries))
        .saturating_add(end_room(end))
}
