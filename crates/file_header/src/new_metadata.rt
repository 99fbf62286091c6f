ghost use Rattle.std.specs.Prelude.{◌≡◌, ◌≤◌, ◌<◌, ◌^◌, ◌++◌, ◌-◌, length, drop, replicate, IfOk, OnOk, IsTrue, not, bit_xor};
ghost use Rattle.std.specs.Int.{w32, w64, to_be_bytes};
ghost use Rattle.packet_model.specs.Metadata.{fixed_part, new_pair, new_metadata, has_flag};
ghost use Rattle.file_header.specs.Meta.{new_header};

use crate::meta::NewMeta;
use lower_model::Items;
use packet_model::{
    AES_128, ENCRYPTED_FLAG, EXTENT_SIZE, HMAC_FLAG, MARKER, MAX_SIZE, MIN_META_SIZE, MetaPlace,
    VERSION,
};
use std::alloc::{AllocError, Global};
use tag3_packet::{Tag3, write_tag3};
use tag11_packet::{Tag11, write_tag11};

const META_SIZE: usize = MIN_META_SIZE as usize;

const HEADER_EXTENT: u32 = EXTENT_SIZE as u32;

// The version stands above the 24 bits of the flags.
const VERSION_BITS: u32 = (VERSION as u32) << 24;

/// Writes another size into metadata; its other octets stay.
pub fn write_size(octets: &mut [u8], size: u64)
    requires { 8 ≤ length octets.old }
    ensures { octets.new ≡ to_be_bytes w64 size ++ drop 8 octets.old }
{
    octets[..8].copy_from_slice(&size.to_be_bytes());
}

/// The octets of new metadata: 8,192 for the head of a body, 81 for an attribute.
pub fn write_header(alloc: Global, meta: &NewMeta) -> Result<Vec<u8>, AllocError>
    requires size { meta.now.size ≤ MAX_SIZE }
    requires flags { meta.now.flags < 2 ^ 24 }
    requires encrypted { IsTrue (has_flag ENCRYPTED_FLAG meta.now.flags) }
    requires no_hmac { IsTrue (not (has_flag HMAC_FLAG meta.now.flags)) }
    ensures { IfOk result (λ octets. octets.items ≡ new_metadata meta.now.meta_place (new_header meta.now)) }
{
    let mut octets = Vec::with_capacity(alloc, META_SIZE)?;
    put_fields(&mut octets, meta)?;
    put_pair(alloc, &mut octets, meta)?;
    match meta.meta_place {
        MetaPlace::Header => {
            fill_up(&mut octets)?;
            Ok(octets)
        }
        MetaPlace::Attribute => Ok(octets),
    }
}

// Zeros up to the end of the header extents.
fn fill_up(out: &mut Vec<u8>) -> Result<(), AllocError>
    ensures { OnOk result (out.new.items ≡ out.old.items ++ replicate (MIN_META_SIZE - length out.old.items) 0) }
{
    let len = out.len();
    out.resize(len + META_SIZE.saturating_sub(len), 0)?;
    Ok(())
}

fn put_fields(out: &mut Vec<u8>, meta: &NewMeta) -> Result<(), AllocError>
    requires { meta.now.flags < 2 ^ 24 }
    ensures { OnOk result (out.new.items ≡ out.old.items ++ fixed_part (new_header meta.now)) }
{
    put_size_and_marker(out, meta)?;
    out.extend_from_slice(&(VERSION_BITS + meta.flags).to_be_bytes())?;
    out.extend_from_slice(&HEADER_EXTENT.to_be_bytes())?;
    out.extend_from_slice(&2u16.to_be_bytes())?;
    Ok(())
}

// The size and the marker.
fn put_size_and_marker(out: &mut Vec<u8>, meta: &NewMeta) -> Result<(), AllocError>
    ensures { OnOk result (out.new.items ≡ out.old.items ++ (to_be_bytes w64 meta.now.size ++ (to_be_bytes w32 meta.now.m1 ++ to_be_bytes w32 (bit_xor meta.now.m1 MARKER)))) }
{
    out.extend_from_slice(&meta.size.to_be_bytes())?;
    out.extend_from_slice(&meta.m1.to_be_bytes())?;
    out.extend_from_slice(&(meta.m1 ^ MARKER).to_be_bytes())?;
    Ok(())
}

fn put_pair(alloc: Global, out: &mut Vec<u8>, meta: &NewMeta) -> Result<(), AllocError>
    ensures { OnOk result (out.new.items ≡ out.old.items ++ new_pair (new_header meta.now)) }
{
    let wrapped = Items::from_slice(alloc, &meta.wrapped)?;
    let tag3 = Tag3 {
        cipher: AES_128,
        salt: meta.salt,
        count: 0x60,
        wrapped,
    };
    let key = write_tag3(alloc, &tag3)?;
    let tag11 = Tag11 {
        signature: meta.signature,
    };
    let signature = write_tag11(alloc, &tag11)?;
    out.extend_from_slice(&key)?;
    out.extend_from_slice(&signature)?;
    Ok(())
}
