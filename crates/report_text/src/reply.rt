ghost use Rattle.std.specs.Prelude.{◌≡◌, ◌∷◌, ◌++◌, map, codes, OnOk};
ghost use Rattle.std.specs.List.{join_with_byte};
ghost use Rattle.text_model.specs.Line.{number};
ghost use Rattle.line_writer.specs.Fields.{spaced};
ghost use Rattle.served_model.specs.ReportText.{kind_word as word_of_kind, refusal_word as word_of_refusal, shown_field, tree_reply, file_reply, reply_fields, reply_line};

use crate::fields::{kind_letter, put_cause, put_data, put_number_field, put_word_field};
use line_writer::{put_line_end, put_name, put_number, put_space, put_word};
use lower_model::Kind;
use session_model::{FileReply, Reply};
use std::alloc::AllocError;
use tree_model::{DirEntries, TreeRefusal, TreeReply};

fn kind_word(kind: Kind) -> &'static str
    ensures { result.now ≡ word_of_kind kind }
{
    match kind {
        Kind::Dir => "d:",
        Kind::File => "f:",
    }
}

fn refusal_word(refusal: TreeRefusal) -> &'static str
    ensures { result.now ≡ word_of_refusal refusal }
{
    match refusal {
        TreeRefusal::NameLong => "namelong",
        TreeRefusal::NotFound => "notfound",
        TreeRefusal::NotDir => "notdir",
        TreeRefusal::IsRoot => "isroot",
        TreeRefusal::Exists => "exists",
        TreeRefusal::IsDir => "isdir",
        TreeRefusal::Inside => "inside",
        TreeRefusal::NotEmpty => "notempty",
        TreeRefusal::NoNodes => "nonodes",
    }
}

// A space, and an entry as a list tells it.
fn put_shown(out: &mut Vec<u8>, kind: Kind, name: &[u8]) -> Result<(), AllocError>
    ensures { OnOk result (out.new.items ≡ out.old.items ++ 32 ∷ shown_field (record { kind = kind; name = name.now })) }
{
    put_space(out)?;
    put_word(out, kind_word(kind))?;
    put_name(out, name)
}

fn put_names(out: &mut Vec<u8>, entries: DirEntries<'_>) -> Result<(), AllocError>
    ensures { OnOk result (out.new.items ≡ out.old.items ++ spaced (map shown_field entries.entry)) }
{
    let mut rest = entries;
    while let Some((kind, name, others)) = rest.split_first() {
        put_shown(out, kind, name)?;
        rest = others;
    }
    Ok(())
}

fn put_error(out: &mut Vec<u8>, word: &str) -> Result<(), AllocError>
    ensures { OnOk result (out.new.items ≡ out.old.items ++ codes "err " ++ word.now) }
{
    put_word(out, "err ")?;
    put_word(out, word)
}

fn put_ok_number(out: &mut Vec<u8>, n: u64) -> Result<(), AllocError>
    ensures { OnOk result (out.new.items ≡ out.old.items ++ codes "ok " ++ number n) }
{
    put_word(out, "ok ")?;
    put_number(out, n)
}

/// Adds the fields of a reply of the tree.
pub fn put_tree_reply(out: &mut Vec<u8>, reply: &TreeReply) -> Result<(), AllocError>
    ensures { OnOk result (out.new.items ≡ out.old.items ++ join_with_byte 32 (tree_reply reply.now)) }
{
    match reply {
        TreeReply::Node(node) => put_ok_number(out, *node as u64),
        TreeReply::Done => put_word(out, "ok"),
        TreeReply::Names(names) => {
            put_word(out, "names")?;
            put_names(out, names.entries())
        }
        TreeReply::Info(kind, node) => {
            put_word(out, "ok")?;
            put_word_field(out, kind_letter(*kind))?;
            put_number_field(out, *node as u64)
        }
        TreeReply::Refused(refusal) => put_error(out, refusal_word(*refusal)),
        TreeReply::LowerFault => put_error(out, "lower"),
        TreeReply::Memory => put_error(out, "memory"),
    }
}

/// Adds the fields of a reply of a file.
pub fn put_file_reply(out: &mut Vec<u8>, reply: &FileReply) -> Result<(), AllocError>
    ensures { OnOk result (out.new.items ≡ out.old.items ++ join_with_byte 32 (file_reply reply.now)) }
{
    match reply {
        FileReply::Done => put_word(out, "ok"),
        FileReply::Octets(octets) => {
            put_word(out, "data ")?;
            put_data(out, octets.as_slice())
        }
        FileReply::Length(size) => put_ok_number(out, *size),
        FileReply::Refused(cause) => {
            put_word(out, "err bad")?;
            put_cause(out, cause)
        }
        FileReply::NotOpen => put_error(out, "notopen"),
        FileReply::TooBig => put_error(out, "toobig"),
        FileReply::LowerFault => put_error(out, "lower"),
        FileReply::Memory => put_error(out, "memory"),
    }
}

fn put_reply(out: &mut Vec<u8>, reply: &Reply) -> Result<(), AllocError>
    ensures { OnOk result (out.new.items ≡ out.old.items ++ join_with_byte 32 (reply_fields reply.now)) }
{
    match reply {
        Reply::Tree(reply) => put_tree_reply(out, reply),
        Reply::File(reply) => put_file_reply(out, reply),
        Reply::Opened(node) => put_ok_number(out, *node as u64),
        Reply::Slot => put_error(out, "slot"),
        Reply::Handle => put_error(out, "handle"),
        Reply::Memory => put_error(out, "memory"),
    }
}

/// Adds the line of a reply.
pub fn put_reply_line(out: &mut Vec<u8>, reply: &Reply) -> Result<(), AllocError>
    ensures { OnOk result (out.new.items ≡ out.old.items ++ reply_line reply.now) }
{
    put_reply(out, reply)?;
    put_line_end(out)
}
