ghost use Rattle.std.specs.Prelude.{◌≡◌, codes, IfOk};
ghost use Rattle.job_text.specs.JobReading.{Gives, field_at, passphrase_in, coding_in, meta_place_in, keys_at, making_at};
ghost use Rattle.reading_model.specs.Fields.{sized_hex_in};

use crate::fault::LineError;
use crate::line::word_line;
use job_model::{LONGEST_PASSPHRASE, MetaPlace, NameCoding};
use line_reader::{read_hex, read_hex_array};
use lower_model::Items;
use std::alloc::{AllocError, Global};

/// The passphrase and the two salts of a job.
#[derive(Drop)]
pub struct Keys {
    /// At least one octet, and at most `LONGEST_PASSPHRASE`.
    pub passphrase: Items<u8>,
    /// The salt of the file key-encryption key.
    pub salt: [u8; 8],
    /// The salt of the name key.
    pub namesalt: [u8; 8],
}

/// How a mount makes new names and files.
#[derive(Drop)]
pub struct Making {
    /// How new names are written.
    pub names: NameCoding,
    /// Where new files keep their metadata.
    pub meta_place: MetaPlace,
    /// The random octets from which the keys of new files are made.
    pub random: [u8; 32],
}

fn read_passphrase(alloc: Global, text: &[u8]) -> Result<Option<Items<u8>>, AllocError>
    ensures { IfOk result (λ found. found ≡ passphrase_in text.now) }
{
    let Some(octets) = read_hex(alloc, text)? else {
        return Ok(None);
    };
    if 1 <= octets.len() && octets.len() <= LONGEST_PASSPHRASE {
        Ok(Some(octets))
    } else {
        Ok(None)
    }
}

fn passphrase_of(alloc: Global, octets: &[u8]) -> Result<(Items<u8>, &[u8]), LineError>
    ensures { Gives (λ x. (x.0, x.1.now)) result (field_at (codes "passphrase ") passphrase_in octets.now) }
{
    let (text, rest) = word_line(b"passphrase ", octets)?;
    let Some(passphrase) = read_passphrase(alloc, text)? else {
        return Err(LineError::Wrong(octets.len()));
    };
    Ok((passphrase, rest))
}

fn octets_of<'a, const N: usize>(
    word: &[u8],
    octets: &'a [u8],
) -> Result<([u8; N], &'a [u8]), LineError>
    ensures { Gives (λ x. (x.0, x.1.now)) result (field_at word.now (sized_hex_in N) octets.now) }
{
    let (text, rest) = word_line(word, octets)?;
    let Some(list) = read_hex_array::<N>(text) else {
        return Err(LineError::Wrong(octets.len()));
    };
    Ok((list, rest))
}

fn read_coding(text: &[u8]) -> Option<NameCoding>
    ensures { result ≡ coding_in text.now }
{
    if text == b"plain".as_slice() {
        return Some(NameCoding::Plain);
    }
    if text == b"tag70".as_slice() {
        return Some(NameCoding::Tag70);
    }
    None
}

fn read_meta_place(text: &[u8]) -> Option<MetaPlace>
    ensures { result ≡ meta_place_in text.now }
{
    if text == b"header".as_slice() {
        return Some(MetaPlace::Header);
    }
    if text == b"attribute".as_slice() {
        return Some(MetaPlace::Attribute);
    }
    None
}

fn names_of(octets: &[u8]) -> Result<(NameCoding, &[u8]), LineError>
    ensures { Gives (λ x. (x.0, x.1.now)) result (field_at (codes "names ") coding_in octets.now) }
{
    let (text, rest) = word_line(b"names ", octets)?;
    let Some(names) = read_coding(text) else {
        return Err(LineError::Wrong(octets.len()));
    };
    Ok((names, rest))
}

fn meta_place_of(octets: &[u8]) -> Result<(MetaPlace, &[u8]), LineError>
    ensures { Gives (λ x. (x.0, x.1.now)) result (field_at (codes "meta ") meta_place_in octets.now) }
{
    let (text, rest) = word_line(b"meta ", octets)?;
    let Some(meta_place) = read_meta_place(text) else {
        return Err(LineError::Wrong(octets.len()));
    };
    Ok((meta_place, rest))
}

/// The passphrase and the salts, and the octets behind their lines.
#[tactic(auto, unfolding(crate::specs::JobReading::keys_at))]
pub fn keys_of(alloc: Global, octets: &[u8]) -> Result<(Keys, &[u8]), LineError>
    ensures { Gives (λ x. (x.0, x.1.now)) result (keys_at octets.now) }
{
    let (passphrase, rest) = passphrase_of(alloc, octets)?;
    let (salt, rest) = octets_of::<8>(b"salt ", rest)?;
    let (namesalt, rest) = octets_of::<8>(b"namesalt ", rest)?;
    let keys = Keys {
        passphrase,
        salt,
        namesalt,
    };
    Ok((keys, rest))
}

/// How new names and files are made, and the octets behind its lines.
#[tactic(auto, unfolding(crate::specs::JobReading::making_at))]
pub fn making_of(octets: &[u8]) -> Result<(Making, &[u8]), LineError>
    ensures { Gives (λ x. (x.0, x.1.now)) result (making_at octets.now) }
{
    let (names, rest) = names_of(octets)?;
    let (meta_place, rest) = meta_place_of(rest)?;
    let (random, rest) = octets_of::<32>(b"random ", rest)?;
    let making = Making {
        names,
        meta_place,
        random,
    };
    Ok((making, rest))
}
