ghost use Rattle.std.specs.Prelude.{◌≡◌, ◌∷◌, ◌++◌, [], IfOk, OnOk, OnErr};
ghost use Rattle.std.specs.List.{flat_map};
ghost use Rattle.octet_model.specs.Octets.{BeginsWith};
ghost use Rattle.text_model.specs.Line.{path as path_text};
ghost use Rattle.line_writer.specs.Fields.{spaced};
ghost use Rattle.show_model.specs.ShowText.{content_fields, item_line, kind_letter as letter_of_kind, path_to, show_end, show_head, show_text, what_fields};

use crate::fields::{put_cause, put_count, put_data, put_number_field, put_word_field};
use body_model::Content;
use line_writer::{put_entry_path, put_line_end, put_path, put_space, put_word};
use show_model::{ShowItem, ShowWhat};
use std::alloc::{AllocError, Global};

fn put_content(out: &mut Vec<u8>, content: &Content) -> Result<(), AllocError>
    ensures ok { OnOk result (out.new.items ≡ out.old.items ++ spaced (content_fields content.now)) }
    ensures err { OnErr result (BeginsWith out.new.items out.old.items) }
{
    match content {
        Content::Empty => put_word_field(out, "empty"),
        Content::Good(octets) => {
            put_count(out, "good", octets.len() as u64)?;
            put_space(out)?;
            put_data(out, octets.as_slice())
        }
        Content::Bad(cause) => {
            put_word_field(out, "bad")?;
            put_cause(out, cause)
        }
    }
}

// What a line tells behind the path.
fn put_what(out: &mut Vec<u8>, what: &ShowWhat) -> Result<(), AllocError>
    ensures ok { OnOk result (out.new.items ≡ out.old.items ++ spaced (what_fields what.now)) }
    ensures err { OnErr result (BeginsWith out.new.items out.old.items) }
{
    match what {
        ShowWhat::File(content) => put_content(out, content),
        ShowWhat::Dir | ShowWhat::Foreign(_) => Ok(()),
    }
}

fn kind_letter(what: &ShowWhat) -> &'static str
    ensures { result.now ≡ letter_of_kind what.now }
{
    match what {
        ShowWhat::Dir => "d",
        ShowWhat::File(_) => "f",
        ShowWhat::Foreign(_) => "x",
    }
}

// The path from the root to an item.
fn put_path_to(out: &mut Vec<u8>, item: &ShowItem) -> Result<(), AllocError>
    ensures ok { OnOk result (out.new.items ≡ out.old.items ++ path_text (path_to item.now.path item.now.what)) }
    ensures err { OnErr result (BeginsWith out.new.items out.old.items) }
{
    match &item.what {
        ShowWhat::Foreign(lower) => put_entry_path(out, item.path.parts(), lower.as_slice()),
        ShowWhat::Dir | ShowWhat::File(_) => put_path(out, item.path.parts()),
    }
}

/// Adds the first line of a show text.
pub fn put_show_head(out: &mut Vec<u8>) -> Result<(), AllocError>
    ensures ok { OnOk result (out.new.items ≡ out.old.items ++ show_head) }
    ensures err { OnErr result (out.new.items ≡ out.old.items) }
{
    put_word(out, "ecryptfs-show 1\n")
}

/// Adds the line of a node, or of a foreign entry.
pub fn put_show_item(out: &mut Vec<u8>, item: &ShowItem) -> Result<(), AllocError>
    ensures ok { OnOk result (out.new.items ≡ out.old.items ++ item_line item.now) }
    ensures err { OnErr result (BeginsWith out.new.items out.old.items) }
{
    put_word(out, kind_letter(&item.what))?;
    put_number_field(out, item.node as u64)?;
    put_space(out)?;
    put_path_to(out, item)?;
    put_what(out, &item.what)?;
    put_line_end(out)
}

/// Adds the last line of a show text.
pub fn put_show_end(out: &mut Vec<u8>) -> Result<(), AllocError>
    ensures ok { OnOk result (out.new.items ≡ out.old.items ++ show_end) }
    ensures err { OnErr result (out.new.items ≡ out.old.items) }
{
    put_word(out, "end\n")
}

fn put_items(out: &mut Vec<u8>, items: &[ShowItem]) -> Result<(), AllocError>
    ensures { OnOk result (out.new.items ≡ out.old.items ++ flat_map item_line items.now) }
{
    for item in items {
        put_show_item(out, item)?;
    }
    Ok(())
}

/// The show text of some nodes, a line for each.
pub fn write_show(alloc: Global, items: &[ShowItem]) -> Result<Vec<u8>, AllocError>
    ensures { IfOk result (λ out. out.items ≡ show_text items.now) }
{
    let mut out = Vec::new(alloc);
    put_show_head(&mut out)?;
    put_items(&mut out, items)?;
    put_show_end(&mut out)?;
    Ok(out)
}
