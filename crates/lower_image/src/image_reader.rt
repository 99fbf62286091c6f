ghost use Rattle.std.specs.Prelude.{◌≡◌, ◌≤◌, ⊤, ◌∷◌, [], List, length, IfOk, IfErr, Ok, nat_eq};
ghost use Rattle.std.specs.List.{starts_with};
ghost use Rattle.lower_model.specs.declared.node.LowerNode.{LowerNode};
ghost use Rattle.lower_model.specs.LowerTree.{IsLowerTree, root_path};
ghost use Rattle.image_model.specs.ImageText.{magic, image, root};
ghost use Rattle.image_model.specs.ImageReading.{entries_at, counted_nodes_at, nodes_at, reading, fault_of, HasOffsetWithin};
ghost use Rattle.answer_model.specs.Answer.{GivesAs};
ghost use Rattle.lower_image.specs.FieldErrors.{Gives, behind};

use crate::error::{FieldError, wrong};
use crate::fields::{entry_of, u32_at};
use crate::path::{go_behind, path_of_root};
use image_model::{ImageError, ImageFault, ImageKind};
use lower_tree::{Items, Kind, LowerNode, LowerTree, MOST_ENTRIES};
use std::alloc::Global;

fn root_node(alloc: Global) -> LowerNode
    ensures { result ≡ root }
{
    LowerNode {
        parent: 0,
        kind: Kind::Dir,
        name: Items::new(alloc),
        attribute: None,
        body: Items::new(alloc),
    }
}

/// The root with these many entries, and the octets behind them.
fn entries_of(
    alloc: Global,
    count: u32,
    octets: &[u8],
) -> Result<(Vec<LowerNode>, &[u8]), FieldError>
    requires { count ≤ MOST_ENTRIES }
    ensures { Gives (λ x. (x.0.items, x.1.now)) result (behind (root ∷ []) (entries_at count root_path 1 octets.now)) }
{
    let mut path = path_of_root(alloc)?;
    let mut nodes = Vec::new(alloc);
    nodes.push(root_node(alloc))?;
    let mut rest = octets;
    for number in 0..count {
        let (node, level, after) = entry_of(alloc, &path, rest)?;
        go_behind(alloc, &mut path, level, number + 1, &node)?;
        nodes.push(node)?;
        rest = after;
    }
    Ok((nodes, rest))
}

#[tactic(auto, unfolding(image_model::specs::ImageReading::counted_nodes_at))]
fn counted_nodes(alloc: Global, octets: &[u8]) -> Result<Vec<LowerNode>, FieldError>
    ensures { Gives (λ v. v.items) result (counted_nodes_at octets.now) }
{
    let (count, rest) = u32_at(octets)?;
    if count as usize > MOST_ENTRIES {
        return Err(wrong(ImageKind::TooMany, octets));
    }
    let (nodes, rest) = entries_of(alloc, count, rest)?;
    if !rest.is_empty() {
        return Err(wrong(ImageKind::Extra, rest));
    }
    Ok(nodes)
}

fn starts_with_magic(octets: &[u8]) -> bool
    ensures { result ≡ starts_with nat_eq octets.now magic }
{
    octets.starts_with(b"ECRYIMG1")
}

#[tactic(auto, unfolding(image_model::specs::ImageReading::nodes_at))]
fn nodes_of(alloc: Global, octets: &[u8]) -> Result<Vec<LowerNode>, FieldError>
    ensures { Gives (λ v. v.items) result (nodes_at octets.now) }
{
    if !starts_with_magic(octets) {
        return Err(wrong(ImageKind::Magic, octets));
    }
    counted_nodes(alloc, &octets[8..])
}

fn tree_of(alloc: Global, octets: &[u8]) -> Result<LowerTree, ImageError>
    ensures { GivesAs (λ nodes. nodes) fault_of ⊤ result (reading octets.now) }
{
    match nodes_of(alloc, octets) {
        Ok(nodes) => Ok(LowerTree::from_vec(nodes)),
        Err(FieldError::Fault { left, kind }) => Err(ImageError::Fault(ImageFault {
            offset: octets.len() - left,
            kind,
        })),
        Err(FieldError::Memory) => Err(ImageError::Memory),
    }
}

/// The lower tree whose image these octets are; a fault exactly where they are none.
pub fn read_image(alloc: Global, octets: &[u8]) -> Result<LowerTree, ImageError>
    // What is read is a lower tree that is spelled so.
    ensures found { IfOk result (λ tree. IsLowerTree tree × (octets.now ≡ image tree)) }
    // What is spelled so is read, unless memory ran out.
    ensures only { (nodes : List LowerNode) → IsLowerTree nodes → octets.now ≡ image nodes
        → GivesAs (λ nodes. nodes) fault_of ⊤ result (Ok nodes) }
    // Which fault it is, and where.
    ensures exact { GivesAs (λ nodes. nodes) fault_of ⊤ result (reading octets.now) }
    ensures within { IfErr result (HasOffsetWithin octets.now) }
{
    tree_of(alloc, octets)
}
