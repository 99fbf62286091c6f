ghost use Rattle.std.specs.Prelude.{◌≡◌, ◌<◌, ◌≤◌, ◌^◌, ◌∷◌, ◌++◌, List, length, OnOk, IfOk};
ghost use Rattle.lower_model.specs.declared.node.LowerNode.{LowerNode};
ghost use Rattle.octet_model.specs.Octets.{AreOctets};
ghost use Rattle.lower_model.specs.LowerTree.{HoldsOctets, IsLowerTree, AreEntries, level_in, root_path};
ghost use Rattle.image_model.specs.ImageText.{file_octets, entry, entries, image, root, kind_code as code_of_kind, sized};

use crate::path::{go_behind, path_of_root};
use lower_tree::{Kind, LowerNode, LowerTree, MOST_ENTRIES, OpenDir};
use std::alloc::{AllocError, Global};

fn put_with_length(out: &mut Vec<u8>, octets: &[u8]) -> Result<(), AllocError>
    requires { length octets.now < 2 ^ 32 }
    ensures { OnOk result (out.new.items ≡ out.old.items ++ sized octets.now) }
{
    out.extend_from_slice(&(octets.len() as u32).to_be_bytes())?;
    out.extend_from_slice(octets)?;
    Ok(())
}

fn put_file_octets(out: &mut Vec<u8>, node: &LowerNode) -> Result<(), AllocError>
    requires { HoldsOctets node.now.kind node.now.attribute node.now.body }
    ensures { OnOk result (out.new.items ≡ out.old.items ++ file_octets node.now.kind node.now.attribute node.now.body) }
{
    match node.kind {
        Kind::Dir => Ok(()),
        Kind::File => {
            match &node.attribute {
                None => out.push(0)?,
                Some(octets) => {
                    out.push(1)?;
                    put_with_length(out, octets.as_slice())?;
                }
            }
            put_with_length(out, node.body.as_slice())
        }
    }
}

fn kind_code(kind: Kind) -> u8
    ensures { result ≡ code_of_kind kind }
{
    match kind {
        Kind::Dir => 0,
        Kind::File => 1,
    }
}

fn put_entry(out: &mut Vec<u8>, level: usize, node: &LowerNode) -> Result<(), AllocError>
    requires level { level < 65535 }
    requires name { length node.now.name < 256 }
    requires octets { HoldsOctets node.now.kind node.now.attribute node.now.body }
    ensures { OnOk result (out.new.items ≡ out.old.items ++ entry level node.now) }
{
    out.extend_from_slice(&((level + 1) as u16).to_be_bytes())?;
    out.push(kind_code(node.kind))?;
    out.push(node.name.len() as u8)?;
    out.extend_from_slice(node.name.as_slice())?;
    put_file_octets(out, node)
}

fn level_of(path: &[OpenDir], parent: u32) -> usize
    ensures { result ≡ level_in path.now parent }
{
    for (level, open) in path.iter().enumerate() {
        if open.node == parent {
            return level;
        }
    }
    path.len()
}

fn put_entries(alloc: Global, out: &mut Vec<u8>, nodes: &[LowerNode]) -> Result<(), AllocError>
    requires few { length nodes.now ≤ MOST_ENTRIES }
    requires entries { AreEntries root_path 1 nodes.now }
    ensures { OnOk result (out.new.items ≡ out.old.items ++ entries root_path 1 nodes.now) }
{
    let mut path = path_of_root(alloc)?;
    let mut number = 1;
    for node in nodes {
        let level = level_of(&path, node.parent);
        put_entry(out, level, node)?;
        go_behind(alloc, &mut path, level, number, node)?;
        number += 1;
    }
    Ok(())
}

fn put_counted(alloc: Global, out: &mut Vec<u8>, nodes: &[LowerNode]) -> Result<(), AllocError>
    requires few { length nodes.now ≤ MOST_ENTRIES }
    requires entries { AreEntries root_path 1 nodes.now }
    ensures { OnOk result (out.new.items ≡ out.old.items ++ image (root ∷ nodes.now)) }
{
    out.extend_from_slice(b"ECRYIMG1")?;
    out.extend_from_slice(&(nodes.len() as u32).to_be_bytes())?;
    put_entries(alloc, out, nodes)?;
    Ok(())
}

fn put_nodes(alloc: Global, out: &mut Vec<u8>, nodes: &[LowerNode]) -> Result<(), AllocError>
    requires { IsLowerTree nodes.now }
    ensures { OnOk result (out.new.items ≡ out.old.items ++ image nodes.now) }
{
    match nodes {
        [] => Ok(()),
        [_, entries @ ..] => put_counted(alloc, out, entries),
    }
}

fn write_nodes(alloc: Global, nodes: &[LowerNode]) -> Result<Vec<u8>, AllocError>
    requires { IsLowerTree nodes.now }
    ensures { IfOk result (λ octets. octets.items ≡ image nodes.now) }
{
    let mut out = Vec::new(alloc);
    put_nodes(alloc, &mut out, nodes)?;
    Ok(out)
}

/// Adds the image of a lower tree behind what stands there.
pub fn append_image(alloc: Global, out: &mut Vec<u8>, tree: &LowerTree) -> Result<(), AllocError>
    ensures { OnOk result (out.new.items ≡ out.old.items ++ image tree.now) }
{
    put_nodes(alloc, out, tree.nodes())
}

/// The image of a lower tree.
pub fn write_image(alloc: Global, tree: &LowerTree) -> Result<Vec<u8>, AllocError>
    ensures spelled { IfOk result (λ octets. octets.items ≡ image tree.now) }
    ensures octets { AreOctets (image tree.now) }
    // No other lower tree has this image.
    ensures one { (other : List LowerNode) → IsLowerTree other → image other ≡ image tree.now → other ≡ tree.now }
{
    write_nodes(alloc, tree.nodes())
}
