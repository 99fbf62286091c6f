ghost use Rattle.std.specs.Prelude.{◌≡◌, ◌∷◌, ◌++◌, [], OnOk};
ghost use Rattle.std.specs.List.{join_with_byte};
ghost use Rattle.text_model.specs.Line.{number, path};
ghost use Rattle.served_model.specs.ReportText.{tree_call, entry_line};

use crate::reply::put_tree_reply;
use line_writer::{put_line_end, put_number, put_path, put_space, put_word};
use session_model::TreeEntry;
use std::alloc::AllocError;
use tree_model::{Parts, TreeCall};

// A number and the space behind it.
fn put_count(out: &mut Vec<u8>, n: u64) -> Result<(), AllocError>
    ensures { OnOk result (out.new.items ≡ out.old.items ++ number n ++ 32 ∷ []) }
{
    put_number(out, n)?;
    put_space(out)
}

// A word, which has its space, and the path behind it.
fn put_word_and_path(out: &mut Vec<u8>, word: &str, to: Parts<'_>) -> Result<(), AllocError>
    ensures { OnOk result (out.new.items ≡ out.old.items ++ word.now ++ path to.entry) }
{
    put_word(out, word)?;
    put_path(out, to)
}

// The fields of a call on the tree.
fn put_tree_call(out: &mut Vec<u8>, call: &TreeCall) -> Result<(), AllocError>
    ensures { OnOk result (out.new.items ≡ out.old.items ++ join_with_byte 32 (tree_call call.now)) }
{
    match call {
        TreeCall::Resolve(path) => put_word_and_path(out, "resolve ", path.parts()),
        TreeCall::Create(path) => put_word_and_path(out, "create ", path.parts()),
        TreeCall::Mkdir(path) => put_word_and_path(out, "mkdir ", path.parts()),
        TreeCall::Rmdir(path) => put_word_and_path(out, "rmdir ", path.parts()),
        TreeCall::Unlink(path) => put_word_and_path(out, "unlink ", path.parts()),
        TreeCall::Rename(paths) => {
            put_word_and_path(out, "rename ", paths.old())?;
            put_space(out)?;
            put_path(out, paths.new())
        }
        TreeCall::List(path) => put_word_and_path(out, "list ", path.parts()),
        TreeCall::Stat(path) => put_word_and_path(out, "stat ", path.parts()),
    }
}

/// Adds the front of an entry's line: the session, its operation, and the counts of faults around
/// the turn, each with a space behind it.
pub(crate) fn put_turn(
    out: &mut Vec<u8>,
    session: u32,
    op: u32,
    before: u64,
    after: u64,
) -> Result<(), AllocError>
    ensures { OnOk result (out.new.items ≡ out.old.items ++ number session ++ 32 ∷ [] ++ number op ++ 32 ∷ [] ++ number before ++ 32 ∷ [] ++ number after ++ 32 ∷ []) }
{
    put_count(out, session as u64)?;
    put_count(out, op as u64)?;
    put_count(out, before)?;
    put_count(out, after)
}

/// Adds the line of a turn of the tree: the session, its operation, the counts of faults around the
/// turn, the call and its reply.
pub fn put_entry_line(out: &mut Vec<u8>, entry: &TreeEntry) -> Result<(), AllocError>
    ensures { OnOk result (out.new.items ≡ out.old.items ++ entry_line entry.now) }
{
    put_turn(out, entry.session, entry.op, entry.before, entry.after)?;
    put_tree_call(out, &entry.call)?;
    put_word(out, " = ")?;
    put_tree_reply(out, &entry.reply)?;
    put_line_end(out)
}
