ghost use Rattle.std.specs.Prelude.{◌≡◌, ◌∷◌, ◌++◌, [], OnOk, OnErr};
ghost use Rattle.octet_model.specs.Octets.{BeginsWith};
ghost use Rattle.line_writer.specs.Fields.{spaced};
ghost use Rattle.text_model.specs.Line.{number, hex};
ghost use Rattle.field_model.specs.CauseText.{cause_fields};
ghost use Rattle.field_model.specs.NodeText.{data_field, kind_letter as letter_of_kind};

use line_writer::{put_hex, put_number, put_space, put_word};
use lower_model::Kind;
use packet_model::BadCause;
use std::alloc::AllocError;

/// The letter of a kind.
pub(crate) fn kind_letter(kind: Kind) -> &'static str
    ensures { result.now ≡ letter_of_kind kind }
{
    match kind {
        Kind::Dir => "d",
        Kind::File => "f",
    }
}

// The fields of a line behind its first, each with a space before it.

pub(crate) fn put_word_field(out: &mut Vec<u8>, word: &str) -> Result<(), AllocError>
    ensures ok { OnOk result (out.new.items ≡ out.old.items ++ 32 ∷ word.now) }
    ensures err { OnErr result (BeginsWith out.new.items out.old.items) }
{
    put_space(out)?;
    put_word(out, word)
}

pub(crate) fn put_number_field(out: &mut Vec<u8>, n: u64) -> Result<(), AllocError>
    ensures ok { OnOk result (out.new.items ≡ out.old.items ++ 32 ∷ number n) }
    ensures err { OnErr result (BeginsWith out.new.items out.old.items) }
{
    put_space(out)?;
    put_number(out, n)
}

pub(crate) fn put_hex_field(out: &mut Vec<u8>, octets: &[u8]) -> Result<(), AllocError>
    ensures ok { OnOk result (out.new.items ≡ out.old.items ++ 32 ∷ hex octets.now) }
    ensures err { OnErr result (BeginsWith out.new.items out.old.items) }
{
    put_space(out)?;
    put_hex(out, octets)
}

pub(crate) fn put_count(out: &mut Vec<u8>, word: &str, n: u64) -> Result<(), AllocError>
    ensures ok { OnOk result (out.new.items ≡ out.old.items ++ spaced (word.now ∷ number n ∷ [])) }
    ensures err { OnErr result (BeginsWith out.new.items out.old.items) }
{
    put_word_field(out, word)?;
    put_number_field(out, n)
}

fn put_octets(out: &mut Vec<u8>, word: &str, first: &[u8], second: &[u8]) -> Result<(), AllocError>
    ensures ok { OnOk result (out.new.items ≡ out.old.items ++ spaced (word.now ∷ hex first.now ∷ hex second.now ∷ [])) }
    ensures err { OnErr result (BeginsWith out.new.items out.old.items) }
{
    put_word_field(out, word)?;
    put_hex_field(out, first)?;
    put_hex_field(out, second)
}

pub(crate) fn put_cause(out: &mut Vec<u8>, cause: &BadCause) -> Result<(), AllocError>
    ensures ok { OnOk result (out.new.items ≡ out.old.items ++ spaced (cause_fields cause.now)) }
    ensures err { OnErr result (BeginsWith out.new.items out.old.items) }
{
    match cause {
        BadCause::Short(have) => put_count(out, "short", *have as u64),
        BadCause::Marker(first, second) => put_octets(
            out,
            "marker",
            &first.to_be_bytes(),
            &second.to_be_bytes(),
        ),
        BadCause::Version(version) => put_count(out, "version", *version as u64),
        BadCause::Hmac => put_word_field(out, "hmac"),
        BadCause::NotEncrypted => put_word_field(out, "notencrypted"),
        BadCause::HeaderSize(size) => put_count(out, "headersize", *size),
        BadCause::NoPacket => put_word_field(out, "nopacket"),
        BadCause::Tag1(offset) => put_count(out, "tag1", *offset as u64),
        BadCause::Packet(offset) => put_count(out, "packet", *offset as u64),
        BadCause::WrongKey(theirs, ours) => put_octets(out, "wrongkey", theirs, ours),
        BadCause::Cipher(code) => put_count(out, "cipher", *code as u64),
        BadCause::TooLarge(size) => put_count(out, "toolarge", *size),
        BadCause::ShortData(have, need) => {
            put_count(out, "shortdata", *have)?;
            put_number_field(out, *need)
        }
    }
}

// The octets of a file, or `-` for none.
pub(crate) fn put_data(out: &mut Vec<u8>, octets: &[u8]) -> Result<(), AllocError>
    ensures ok { OnOk result (out.new.items ≡ out.old.items ++ data_field octets.now) }
    ensures err { OnErr result (BeginsWith out.new.items out.old.items) }
{
    if octets.is_empty() {
        return put_word(out, "-");
    }
    put_hex(out, octets)
}
