// The opening of a file.
ghost use Rattle.std.specs.Prelude.{◌≡◌, IfOk};
ghost use Rattle.octet_model.specs.Octets.{AreOctets};
ghost use Rattle.body_model.specs.Format.{kept_of};
ghost use Rattle.content_model.specs.Ecryptfs.{EcryptfsMount};
ghost use Rattle.lower_tree.specs.Opening.{AnswersOpening};
ghost use Rattle.extent_file.specs.Reading.{opened_in};

use crate::extents::are_octets;
use file_header::HeaderError;
use lower_model::Items;
use lower_tree::{OpenFault, Opened};
use packet_model::MetaPlace;
use packet_set::OneKeyRing;
use secret_key::Fek;
use std::alloc::{AllocError, Global};
use xattr_meta::{FileMeta, file_meta_in};

/// What is opened of the metadata in these octets, of a file with a body of `len` octets.
pub fn open_in(
    alloc: Global,
    octets: &[u8],
    meta_place: MetaPlace,
    len: u64,
    ring: &OneKeyRing,
) -> Result<Opened<Fek>, OpenFault>
    ensures { (mount : EcryptfsMount) → mount.key ≡ ring.now → AnswersOpening result (opened_in mount meta_place octets.now len) }
{
    match file_meta_in(alloc, octets, meta_place, len, ring) {
        Ok(meta) => match opened(alloc, octets, meta) {
            Ok(o) => Ok(o),
            Err(_) => Err(OpenFault::Memory),
        },
        Err(HeaderError::Bad(cause)) => Err(OpenFault::Bad(cause)),
        Err(HeaderError::Memory) => Err(OpenFault::Memory),
    }
}

// What this metadata in these octets says.
fn opened(alloc: Global, octets: &[u8], meta: FileMeta) -> Result<Opened<Fek>, AllocError>
    ensures value { IfOk result (λ o. o ≡ record { key = meta.fek; size = meta.size; data_start = meta.data_start; meta_place = meta.meta_place; metadata = kept_of meta.meta_place octets.now }) }
    ensures key { IfOk result (λ o. AreOctets o.key) }
{
    let FileMeta {
        size,
        meta_place,
        data_start,
        fek,
    } = meta;
    match kept(alloc, meta_place, octets) {
        Ok(metadata) => {
            has_octets(&fek);
            Ok(Opened {
                key: fek,
                size,
                data_start,
                meta_place,
                metadata,
            })
        }
        Err(error) => {
            fek.spend();
            Err(error)
        }
    }
}

fn kept(alloc: Global, meta_place: MetaPlace, octets: &[u8]) -> Result<Items<u8>, AllocError>
    ensures { IfOk result (λ metadata. metadata ≡ kept_of meta_place octets.now) }
{
    match meta_place {
        MetaPlace::Header => Ok(Items::new(alloc)),
        MetaPlace::Attribute => Items::from_slice(alloc, octets),
    }
}

// For contracts: the numbers of a file key are octets.
fn has_octets(fek: &Fek)
    ensures { AreOctets fek.now }
{
    are_octets(fek.octets());
}
