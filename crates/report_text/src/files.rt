ghost use Rattle.std.specs.Prelude.{◌≡◌, ℕ, ◌++◌, ◌<◌, ◌≤◌, All, length, map, take, drop, IfOk, OnOk};
ghost use Rattle.std.specs.List.{flat_map};
ghost use Rattle.std.specs.List.Sorted.{IsNonDecreasingBy};
ghost use Rattle.file_model.specs.FileLog.{entries_at};
ghost use Rattle.served_model.specs.ReportText.{file_entry_line, file_text, files_text};

use crate::file_entry::put_file_entry_line;
use line_writer::{put_line_end, put_number, put_space, put_word};
use session_model::FileEntry;
use std::alloc::{AllocError, Global};
use turn_lock::Chain;

// All entries of some logs, log by log.
fn entries_of_all(alloc: Global, logs: &[Chain<FileEntry>]) -> Result<Vec<&FileEntry>, AllocError>
    ensures { IfOk result (λ entries. map (λ e. e.now) entries.items ≡ flat_map (λ log. log) logs.now) }
{
    let mut entries = Vec::new(alloc);
    for log in logs {
        entries.append(&mut log.entries(alloc)?)?;
    }
    Ok(entries)
}

/// All entries of some logs by rising nodes, those of a node in the order in which they come.
pub(crate) fn entries_by_node(
    alloc: Global,
    logs: &[Chain<FileEntry>],
) -> Result<Vec<&FileEntry>, AllocError>
    ensures rising { IfOk result (λ entries. IsNonDecreasingBy (λ e. e.now.node) entries.items) }
    ensures same { IfOk result (λ entries. (node : ℕ) → entries_at node (map (λ e. e.now) entries.items) ≡ entries_at node (flat_map (λ log. log) logs.now)) }
{
    let mut entries = entries_of_all(alloc, logs)?;
    entries.sort_by_key(|entry| entry.node)?;
    Ok(entries)
}

// How many entries are of nodes up to this one.
fn count_up_to(entries: &[&FileEntry], node: u32) -> usize
    requires { IsNonDecreasingBy (λ e. e.now.node) entries.now }
    ensures bound { result ≤ length entries.now }
    ensures inside { All (λ e. e.now.node ≤ node) (take result entries.now) }
    ensures behind { All (λ e. node < e.now.node) (drop result entries.now) }
{
    entries.partition_point(|entry| entry.node <= node)
}

fn put_file_entries(out: &mut Vec<u8>, log: &[&FileEntry]) -> Result<(), AllocError>
    ensures { OnOk result (out.new.items ≡ out.old.items ++ flat_map file_entry_line (map (λ e. e.now) log.now)) }
{
    for entry in log {
        put_file_entry_line(out, entry)?;
    }
    Ok(())
}

// The history of one file.
fn put_file(out: &mut Vec<u8>, node: u32, log: &[&FileEntry]) -> Result<(), AllocError>
    ensures { OnOk result (out.new.items ≡ out.old.items ++ file_text node (map (λ e. e.now) log.now)) }
{
    put_word(out, "file ")?;
    put_number(out, node as u64)?;
    put_space(out)?;
    put_number(out, log.len() as u64)?;
    put_line_end(out)?;
    put_file_entries(out, log)
}

/// Adds the histories of all files whose entries these are, which stand by rising nodes.
pub(crate) fn put_files(out: &mut Vec<u8>, entries: &[&FileEntry]) -> Result<(), AllocError>
    requires { IsNonDecreasingBy (λ e. e.now.node) entries.now }
    ensures { OnOk result (out.new.items ≡ out.old.items ++ files_text (map (λ e. e.now) entries.now)) }
{
    let mut start = 0;
    while start < entries.len() {
        let rest = &entries[start..];
        let node = rest[0].node;
        let file = &rest[..count_up_to(rest, node)];
        put_file(out, node, file)?;
        start += file.len();
    }
    Ok(())
}
