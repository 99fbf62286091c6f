ghost use Rattle.std.specs.Prelude.{◌≡◌, ◌+◌, ◌<◌, ◌≤◌, ◌^◌, length, IfSome};
ghost use Rattle.lower_model.specs.LowerTree.{HoldsOctets, IsLowerTree, AreEntries, root_path};
ghost use Rattle.image_model.specs.ImageText.{attribute, file_octets, entry, entries, image};

use lower_tree::{Kind, LONGEST_ATTRIBUTE, LowerNode, LowerTree, MOST_ENTRIES};

// A flag, and the octets behind their length where there are any.
fn attribute_length(node: &LowerNode) -> usize
    requires { IfSome node.now.attribute (λ octets. length octets ≤ LONGEST_ATTRIBUTE) }
    ensures length { result ≡ length (attribute node.now.attribute) }
    ensures bound { result ≤ 5 + LONGEST_ATTRIBUTE }
{
    match &node.attribute {
        None => 1,
        Some(octets) => 1 + 4 + octets.len(),
    }
}

// What stands behind the name: nothing for a directory, the attribute and the body behind its length for a file.
fn file_length(node: &LowerNode) -> usize
    requires { HoldsOctets node.now.kind node.now.attribute node.now.body }
    ensures length { result ≡ length (file_octets node.now.kind node.now.attribute node.now.body) }
    ensures bound { result < 9 + LONGEST_ATTRIBUTE + 2 ^ 32 }
{
    match node.kind {
        Kind::Dir => 0,
        Kind::File => attribute_length(node) + 4 + node.body.len(),
    }
}

// An entry has as many octets at each level; the level, the kind and the length of the name take four.
fn entry_length(node: &LowerNode) -> usize
    requires name { length node.now.name < 256 }
    requires octets { HoldsOctets node.now.kind node.now.attribute node.now.body }
    ensures length { result ≡ length (entry 0 node.now) }
    ensures bound { result < 2 ^ 33 }
{
    4 + node.name.len() + file_length(node)
}

fn entries_length(nodes: &[LowerNode]) -> usize
    requires few { length nodes.now ≤ MOST_ENTRIES }
    requires entries { AreEntries root_path 1 nodes.now }
    ensures length { result ≡ length (entries root_path 1 nodes.now) }
    ensures bound { result < 2 ^ 46 }
{
    let mut total = 0;
    for node in nodes {
        total += entry_length(node);
    }
    total
}

fn nodes_length(nodes: &[LowerNode]) -> usize
    requires { IsLowerTree nodes.now }
    ensures { result ≡ length (image nodes.now) }
{
    match nodes {
        [] => 0,
        // The magic, the number of entries, and the entries.
        [_, entries @ ..] => 8 + 4 + entries_length(entries),
    }
}

/// How many octets the image of a lower tree has.
pub fn image_length(tree: &LowerTree) -> usize
    ensures { result ≡ length (image tree.now) }
{
    nodes_length(tree.nodes())
}
