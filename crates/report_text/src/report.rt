ghost use Rattle.std.specs.Prelude.{◌≡◌, ◌∷◌, ◌++◌, [], List, map, IfOk, OnOk};
ghost use Rattle.std.specs.List.{flat_map};
ghost use Rattle.text_model.specs.Line.{line, number};
ghost use Rattle.image_model.specs.ImageText.{image};
ghost use Rattle.job_model.specs.JobText.{image_text};
ghost use Rattle.session_model.specs.declared.entry.FileEntry.{FileEntry};
ghost use Rattle.file_model.specs.FileLog.{AreShardLogs};
ghost use Rattle.served_model.specs.ReportText.{reply_line, session_text, sessions_text, entry_line, tree_text, stuck_line, end_text, report_head, stuck_text, report_text};

use crate::entry::put_entry_line;
use crate::files::{entries_by_node, put_files};
use crate::reply::put_reply_line;
use crate::room::report_room;
use line_writer::{put_line_end, put_number, put_space, put_word};
use lower_image::{append_image, image_length};
use lower_tree::LowerTree;
use served_model::ReportEnd;
use session::Session;
use session_model::{FileEntry, Reply, TreeEntry};
use std::alloc::{AllocError, Global};
use turn_lock::Chain;

fn put_report_head(out: &mut Vec<u8>) -> Result<(), AllocError>
    ensures { OnOk result (out.new.items ≡ out.old.items ++ report_head) }
{
    put_word(out, "ecryptfs-report 1\n")
}

// A line of a word and how many of them follow.
fn put_count_line(out: &mut Vec<u8>, word: &str, count: usize) -> Result<(), AllocError>
    ensures { OnOk result (out.new.items ≡ out.old.items ++ line (word.now ∷ number count ∷ [])) }
{
    put_word(out, word)?;
    put_space(out)?;
    put_number(out, count as u64)?;
    put_line_end(out)
}

fn put_replies(out: &mut Vec<u8>, replies: &[Reply]) -> Result<(), AllocError>
    ensures { OnOk result (out.new.items ≡ out.old.items ++ flat_map reply_line replies.now) }
{
    for reply in replies {
        put_reply_line(out, reply)?;
    }
    Ok(())
}

fn put_session(out: &mut Vec<u8>, session: usize, replies: &[Reply]) -> Result<(), AllocError>
    ensures { OnOk result (out.new.items ≡ out.old.items ++ session_text session replies.now) }
{
    put_word(out, "session ")?;
    put_number(out, session as u64)?;
    put_space(out)?;
    put_number(out, replies.len() as u64)?;
    put_line_end(out)?;
    put_replies(out, replies)
}

fn put_sessions(out: &mut Vec<u8>, sessions: &[Session]) -> Result<(), AllocError>
    ensures { OnOk result (out.new.items ≡ out.old.items ++ sessions_text 0 (map (λ s. s.replies) sessions.now)) }
{
    for (number, session) in sessions.iter().enumerate() {
        put_session(out, number, session.replies())?;
    }
    Ok(())
}

fn put_entries(out: &mut Vec<u8>, log: &[&TreeEntry]) -> Result<(), AllocError>
    ensures { OnOk result (out.new.items ≡ out.old.items ++ flat_map entry_line (map (λ e. e.now) log.now)) }
{
    for entry in log {
        put_entry_line(out, entry)?;
    }
    Ok(())
}

fn put_tree(out: &mut Vec<u8>, log: &[&TreeEntry]) -> Result<(), AllocError>
    ensures { OnOk result (out.new.items ≡ out.old.items ++ tree_text (map (λ e. e.now) log.now)) }
{
    put_count_line(out, "tree", log.len())?;
    put_entries(out, log)
}

fn put_image(alloc: Global, out: &mut Vec<u8>, tree: &LowerTree) -> Result<(), AllocError>
    ensures { OnOk result (out.new.items ≡ out.old.items ++ image_text (image tree.now)) }
{
    let length = image_length(tree);
    put_count_line(out, "image", length)?;
    // Where the room is short, it grows by the image, and isn't doubled.
    out.reserve_exact(length.saturating_add("\nend\n".len()))?;
    append_image(alloc, out, tree)?;
    put_line_end(out)
}

// The line of a part that failed, with its counts of faults before and after.
fn put_stuck(out: &mut Vec<u8>, part: u32, before: u64, after: u64) -> Result<(), AllocError>
    ensures { OnOk result (out.new.items ≡ out.old.items ++ stuck_line part before after) }
{
    put_word(out, "stuck ")?;
    put_number(out, part as u64)?;
    put_space(out)?;
    put_number(out, before)?;
    put_space(out)?;
    put_number(out, after)?;
    put_line_end(out)
}

fn put_end(alloc: Global, out: &mut Vec<u8>, end: &ReportEnd) -> Result<(), AllocError>
    ensures { OnOk result (out.new.items ≡ out.old.items ++ end_text end.now) }
{
    match end {
        ReportEnd::Image(tree) => {
            put_image(alloc, out, tree)?;
            put_word(out, "end\n")
        }
        ReportEnd::Stuck {
            part,
            before,
            after,
        } => put_stuck(out, *part, *before, *after),
    }
}

/// The text of a report: the replies of each session, by the sessions' numbers, the histories of
/// the tree and of the files, by the logs of their shards, which are read from their chains without
/// a copy, and how the run ended.
pub fn write_report(
    alloc: Global,
    sessions: &[Session],
    tree_log: &Chain<TreeEntry>,
    file_logs: &[Chain<FileEntry>],
    end: &ReportEnd,
) -> Result<Vec<u8>, AllocError>
    ensures { IfOk result (λ out. (log : List FileEntry) → AreShardLogs file_logs.now log → out.items ≡ report_text (record {
      sessions = map (λ s. s.replies) sessions.now;
      histories = record { tree = tree_log.now; file = log };
      end = end.now;
    })) }
{
    let tree_entries = tree_log.entries(alloc)?;
    let file_entries = entries_by_node(alloc, file_logs)?;
    let room = report_room(sessions, &tree_entries, &file_entries, end);
    let mut out = Vec::with_capacity(alloc, room)?;
    put_report_head(&mut out)?;
    put_sessions(&mut out, sessions)?;
    put_tree(&mut out, &tree_entries)?;
    put_files(&mut out, &file_entries)?;
    put_end(alloc, &mut out, end)?;
    Ok(out)
}

/// The whole output where nothing was mounted: the part that failed, with its counts of faults
/// before and after.
pub fn write_stuck(alloc: Global, part: u32, before: u64, after: u64) -> Result<Vec<u8>, AllocError>
    ensures { IfOk result (λ out. out.items ≡ stuck_text part before after) }
{
    let mut out = Vec::new(alloc);
    put_report_head(&mut out)?;
    put_stuck(&mut out, part, before, after)?;
    Ok(out)
}
