ghost use Rattle.std.specs.Prelude.{◌≡◌, [], IfOk};
ghost use Rattle.make_model.specs.MakeJobs.{random_of as octets_of_number, meta_place_of as place_of_number, empty_image as empty_tree, job_of as job_with, job_a as first_job, job_b_from};

use crate::draws::Draws;
use crate::new_files::script_a;
use crate::rounds::{schedule_b, scripts_b};
use job_model::{Job, MetaPlace, NameCoding};
use lower_model::{Items, Kind, LowerNode, LowerTree};
use script_model::Op;
use std::alloc::{AllocError, Global};

/// The passphrase of both jobs.
const PASSPHRASE: &[u8] = b"make";

/// The salts of both jobs.
const SALT: [u8; 8] = [0x00, 0x11, 0x22, 0x33, 0x44, 0x55, 0x66, 0x77];

// The number as eight octets, the highest first, and zeros.
fn random_of(number: u32) -> [u8; 32]
    ensures { result ≡ octets_of_number number }
{
    let mut random = [0; 32];
    random[..8].copy_from_slice(&u64::from(number).to_be_bytes());
    random
}

fn meta_place_of(number: u32) -> MetaPlace
    ensures { result ≡ place_of_number number }
{
    if number % 2 == 0 {
        MetaPlace::Header
    } else {
        MetaPlace::Attribute
    }
}

// A lower tree of the root alone.
#[tactic(auto, using(make_model::proofs::LawfulJobs::empty_image_lawful))]
fn empty_image(alloc: Global) -> Result<LowerTree, AllocError>
    ensures { IfOk result (λ image. image ≡ empty_tree) }
{
    let mut nodes = Vec::new(alloc);
    nodes.push(LowerNode {
        parent: 0,
        kind: Kind::Dir,
        name: Items::new(alloc),
        attribute: None,
        body: Items::new(alloc),
    })?;
    Ok(LowerTree::from_vec(nodes))
}

fn job_of(
    alloc: Global,
    number: u32,
    image: LowerTree,
    scripts: Items<Items<Op>>,
    schedule: Items<u32>,
) -> Result<Job, AllocError>
    ensures { IfOk result (λ job. job ≡ job_with number image scripts schedule) }
{
    let passphrase = Items::from_slice(alloc, PASSPHRASE)?;
    Ok(Job {
        passphrase,
        salt: SALT,
        namesalt: SALT,
        names: NameCoding::Tag70,
        meta_place: meta_place_of(number),
        random: random_of(number),
        image,
        scripts,
        schedule,
    })
}

/// Job A of a `make`, and the draws behind it.
pub fn job_a(alloc: Global, number: u32) -> Result<(Job, Draws), AllocError>
    ensures { IfOk result (λ made. (made.0, made.1) ≡ first_job number) }
{
    let mut draws = Draws::new(number);
    let mut scripts = Items::new(alloc);
    scripts.push(script_a(alloc, &mut draws)?)?;
    let image = empty_image(alloc)?;
    let job = job_of(alloc, number, image, scripts, Items::new(alloc))?;
    Ok((job, draws))
}

/// Job B of a `make`, of the image that came out of job A and the draws behind it.
pub fn job_b(alloc: Global, number: u32, draws: Draws, image: LowerTree) -> Result<Job, AllocError>
    ensures { IfOk result (λ job. job ≡ job_b_from number draws image) }
{
    let mut draws = draws;
    let scripts = scripts_b(alloc, &mut draws)?;
    let schedule = schedule_b(alloc, &mut draws)?;
    job_of(alloc, number, image, scripts, schedule)
}
