ghost use Rattle.std.specs.Prelude.{◌≡◌, ◌++◌, OnOk};
ghost use Rattle.std.specs.List.{join_with_byte};
ghost use Rattle.text_model.specs.Line.{number};
ghost use Rattle.served_model.specs.ReportText.{file_call, file_entry_line};

use crate::entry::put_turn;
use crate::fields::{put_hex_field, put_number_field};
use crate::reply::put_file_reply;
use line_writer::{put_line_end, put_number, put_word};
use session_model::{FileCall, FileEntry};
use std::alloc::AllocError;

// A word, which has its space, and the slot behind it.
fn put_word_and_slot(out: &mut Vec<u8>, word: &str, slot: u32) -> Result<(), AllocError>
    ensures { OnOk result (out.new.items ≡ out.old.items ++ word.now ++ number slot) }
{
    put_word(out, word)?;
    put_number(out, slot as u64)
}

// The fields of a call on a file.
fn put_file_call(out: &mut Vec<u8>, call: &FileCall) -> Result<(), AllocError>
    ensures { OnOk result (out.new.items ≡ out.old.items ++ join_with_byte 32 (file_call call.now)) }
{
    match call {
        FileCall::Attach(slot) => put_word_and_slot(out, "attach ", *slot),
        FileCall::Read(slot, at, len) => {
            put_word_and_slot(out, "read ", *slot)?;
            put_number_field(out, *at)?;
            put_number_field(out, *len as u64)
        }
        FileCall::Write(slot, at, octets) => {
            put_word_and_slot(out, "write ", *slot)?;
            put_number_field(out, *at)?;
            put_hex_field(out, octets.as_slice())
        }
        FileCall::Truncate(slot, size) => {
            put_word_and_slot(out, "truncate ", *slot)?;
            put_number_field(out, *size)
        }
        FileCall::Size(slot) => put_word_and_slot(out, "size ", *slot),
        FileCall::Sync(slot) => put_word_and_slot(out, "sync ", *slot),
        FileCall::Detach(slot) => put_word_and_slot(out, "detach ", *slot),
    }
}

/// Adds the line of a turn of a file: the session, its operation, the counts of faults around the
/// turn, the call and its reply.
pub fn put_file_entry_line(out: &mut Vec<u8>, entry: &FileEntry) -> Result<(), AllocError>
    ensures { OnOk result (out.new.items ≡ out.old.items ++ file_entry_line entry.now) }
{
    put_turn(out, entry.session, entry.op, entry.before, entry.after)?;
    put_file_call(out, &entry.call)?;
    put_word(out, " = ")?;
    put_file_reply(out, &entry.reply)?;
    put_line_end(out)
}
