ghost use Rattle.std.specs.Prelude.{◌≡◌, ◌∷◌, [], ℕ, List, Some, IfOk, OnOk, slice_get};
ghost use Rattle.std.specs.List.{AllByRecursion};
ghost use Rattle.tree_model.specs.declared.listed.Listed.TheVariants.{Shown};
ghost use Rattle.tree_model.specs.Listing.{ListsTree};
ghost use Rattle.names_model.specs.ShownBy.{shown_of};
ghost use Rattle.mount_model.specs.MountForm.{form_of_job};
ghost use Rattle.job_model.specs.Job.{IsJob};
ghost use Rattle.show_model.specs.Show.{Shows, TellsNode, listed_by, listed_item};
ghost use Rattle.mount_run.specs.ShowLines.{AddsLine, AddsLines, IsNumber};

use crate::listed::image_listing;
use crate::ring::{name_key, passphrase_ring};
use extent_file::decode_body;
use job_model::NameCoding;
use job_text::Job;
use lower_model::{Kind, LowerNode};
use name_tag70::{PlainNames, Tag70};
use packet_set::OneKeyRing;
use report_text::{put_show_end, put_show_head, put_show_item};
use show_model::{ShowItem, ShowWhat};
use std::alloc::{AllocError, Global};
use tree_model::Listed;

// The listing of the tree that a job's image shows.
fn job_listing(alloc: Global, job: &Job) -> Result<Vec<Listed>, AllocError>
    requires lawful { IsJob job.now }
    ensures lists { IfOk result (λ items. ListsTree (shown_of (form_of_job job.now) job.now.image).places items.items) }
    ensures numbers { IfOk result (λ items. AllByRecursion (IsNumber job.now.image) items.items) }
{
    match job.names {
        NameCoding::Plain => image_listing(alloc, &job.image, PlainNames),
        NameCoding::Tag70 => {
            let form = Tag70::new(name_key(&job.namesalt, job.passphrase.as_slice()));
            let listing = image_listing(alloc, &job.image, &form);
            form.end();
            listing
        }
    }
}

// What stands at a node, a file with its content.
fn node_content(alloc: Global, node: &LowerNode, ring: &OneKeyRing) -> Result<ShowWhat, AllocError>
    ensures tells { IfOk result (λ what. TellsNode (ring.now ∷ []) (Some node.now) what) }
    ensures listed { IfOk result (λ what. (path : List (List ℕ)) (number : ℕ) → listed_by path number what ≡ Shown path number) }
{
    if node.kind == Kind::Dir {
        return Ok(ShowWhat::Dir);
    }
    let attribute = match &node.attribute {
        Some(octets) => Some(octets.as_slice()),
        None => None,
    };
    let content = decode_body(alloc, node.body.as_slice(), attribute, ring)?;
    Ok(ShowWhat::File(content))
}

// The item of a show text that tells an item of a listing.
fn show_item(
    alloc: Global,
    listed: Listed,
    nodes: &[LowerNode],
    ring: &OneKeyRing,
) -> Result<ShowItem, AllocError>
    requires number { IsNumber nodes.now listed }
    ensures listed { IfOk result (λ item. listed_item item ≡ listed) }
    ensures tells { IfOk result (λ item. TellsNode (ring.now ∷ []) (slice_get nodes.now item.node) item.what) }
{
    match listed {
        Listed::Shown(path, node) => {
            let what = node_content(alloc, &nodes[node as usize], ring)?;
            Ok(ShowItem { node, path, what })
        }
        Listed::Foreign(path, lower, node) => Ok(ShowItem {
            node,
            path,
            what: ShowWhat::Foreign(lower),
        }),
    }
}

// Adds the line of an item of a listing.
fn put_listed(
    alloc: Global,
    out: &mut Vec<u8>,
    nodes: &[LowerNode],
    listed: Listed,
    ring: &OneKeyRing,
) -> Result<(), AllocError>
    requires number { IsNumber nodes.now listed }
    ensures { OnOk result (AddsLine (ring.now ∷ []) nodes.now listed out.old.items out.new.items) }
{
    let item = show_item(alloc, listed, nodes, ring)?;
    put_show_item(out, &item)
}

// Adds the lines of a listing. One content at a time is in memory.
fn put_listing(
    alloc: Global,
    out: &mut Vec<u8>,
    nodes: &[LowerNode],
    listing: Vec<Listed>,
    ring: &OneKeyRing,
) -> Result<(), AllocError>
    requires numbers { AllByRecursion (IsNumber nodes.now) listing.items }
    ensures { OnOk result (AddsLines (ring.now ∷ []) nodes.now listing.items out.old.items out.new.items) }
{
    for listed in listing {
        put_listed(alloc, out, nodes, listed, ring)?;
    }
    Ok(())
}

/// The show text of a job's image, written into this room.
pub fn show(alloc: Global, job: &Job, room: Vec<u8>) -> Result<Vec<u8>, AllocError>
    requires lawful { IsJob job.now }
    requires empty { room.items ≡ [] }
    ensures { IfOk result (λ output. Shows job.now output.items) }
{
    let listing = job_listing(alloc, job)?;
    let mut out = room;
    put_show_head(&mut out)?;
    let ring = passphrase_ring(&job.salt, job.passphrase.as_slice());
    let added = put_listing(alloc, &mut out, job.image.nodes(), listing, &ring);
    ring.end();
    added?;
    put_show_end(&mut out)?;
    Ok(out)
}
