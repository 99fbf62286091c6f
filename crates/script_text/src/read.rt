ghost use Rattle.std.specs.Prelude.{◌≡◌, IfOk, Err};
ghost use Rattle.std.specs.Option.{option_copied};
ghost use Rattle.script_model.specs.declared.op.Op.{Op as OpValue};
ghost use Rattle.reading_model.specs.OpReading.{fields_behind, number_words, file_words, op_words, op_behind as op_behind_test, op_in, IsOpText};
ghost use Rattle.script_text.specs.OpAnswer.{ReadsOp};

use crate::fields::{first_field, read_alone, read_pair};
use crate::file_fields::{
    read_slot, read_slot_offset_length, read_slot_offset_octets, read_slot_path, read_slot_size,
};
use script_model::Op;
use std::alloc::{AllocError, Global};
use tree_model::Renaming;

/// Why a line of a script wasn't read.
#[derive(Clone, Copy, Debug, PartialEq, Eq)]
pub enum OpError {
    /// The line isn't in the grammar.
    Bad,
    /// Memory ran out.
    Memory,
}

/// The operation of a word that numbers follow.
fn number_op(word: &[u8], fields: Option<&[u8]>) -> Option<Op>
    ensures { result ≡ op_behind_test number_words word.now (fields_behind (option_copied fields.entry)) }
{
    if word == b"read".as_slice() {
        let (slot, offset, len) = read_slot_offset_length(fields)?;
        return Some(Op::Read(slot, offset, len));
    }
    if word == b"truncate".as_slice() {
        let (slot, size) = read_slot_size(fields)?;
        return Some(Op::Truncate(slot, size));
    }
    if word == b"size".as_slice() {
        return read_slot(fields).map(Op::Size);
    }
    if word == b"sync".as_slice() {
        return read_slot(fields).map(Op::Sync);
    }
    if word == b"close".as_slice() {
        return read_slot(fields).map(Op::Close);
    }
    None
}

/// The operation of a word of files.
fn file_op(alloc: Global, word: &[u8], fields: Option<&[u8]>) -> Result<Option<Op>, AllocError>
    ensures { IfOk result (λ found. found ≡ op_behind_test file_words word.now (fields_behind (option_copied fields.entry))) }
{
    if word == b"open".as_slice() {
        let Some((slot, path)) = read_slot_path(alloc, fields)? else {
            return Ok(None);
        };
        return Ok(Some(Op::Open(slot, path)));
    }
    if word == b"create".as_slice() {
        let Some((slot, path)) = read_slot_path(alloc, fields)? else {
            return Ok(None);
        };
        return Ok(Some(Op::Create(slot, path)));
    }
    if word == b"write".as_slice() {
        let Some((slot, offset, octets)) = read_slot_offset_octets(alloc, fields)? else {
            return Ok(None);
        };
        return Ok(Some(Op::Write(slot, offset, octets)));
    }
    Ok(number_op(word, fields))
}

/// The operation of a word and its fields.
fn op_behind(alloc: Global, word: &[u8], fields: Option<&[u8]>) -> Result<Option<Op>, AllocError>
    ensures { IfOk result (λ found. found ≡ op_behind_test op_words word.now (fields_behind (option_copied fields.entry))) }
{
    if word == b"mkdir".as_slice() {
        return Ok(read_alone(alloc, fields)?.map(Op::Mkdir));
    }
    if word == b"rmdir".as_slice() {
        return Ok(read_alone(alloc, fields)?.map(Op::Rmdir));
    }
    if word == b"unlink".as_slice() {
        return Ok(read_alone(alloc, fields)?.map(Op::Unlink));
    }
    if word == b"rename".as_slice() {
        let Some((old, new)) = read_pair(alloc, fields)? else {
            return Ok(None);
        };
        return Ok(Some(Op::Rename(Renaming::between(old, &new)?)));
    }
    if word == b"list".as_slice() {
        return Ok(read_alone(alloc, fields)?.map(Op::List));
    }
    if word == b"stat".as_slice() {
        return Ok(read_alone(alloc, fields)?.map(Op::Stat));
    }
    file_op(alloc, word, fields)
}

/// The operation whose line this is, without its line end; `Bad` exactly where it is the line of
/// none.
pub fn read_op(alloc: Global, line: &[u8]) -> Result<Op, OpError>
    ensures found { IfOk result (λ op. IsOpText op line.now) }
    ensures bad { result ≡ Err OpError.Bad → (op : OpValue) → IsOpText op line.now → ⊥ }
    ensures value { ReadsOp result (op_in line.now) }
{
    let (word, fields) = first_field(line);
    match op_behind(alloc, word, fields) {
        Ok(Some(op)) => Ok(op),
        Ok(None) => Err(OpError::Bad),
        Err(_) => Err(OpError::Memory),
    }
}
