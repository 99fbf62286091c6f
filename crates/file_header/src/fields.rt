// The fields before the packets.
ghost use Rattle.std.specs.Prelude.{◌≡◌, ◌≤◌, length, IfNone};
ghost use Rattle.packet_model.specs.Metadata.{size_in, mark_in, second_mark_in, flags_in, meta_size_in, packets_in, is_meta_size as meta_size_test, fields_fault as first_fault};

use byteorder::{BigEndian, ByteOrder};
use packet_model::{
    BadCause, ENCRYPTED_FLAG, EXTENT_SIZE, HMAC_FLAG, MARKER, MAX_META_SIZE, MIN_META_SIZE,
    MetaPlace, SET_END, SET_OFFSET, VERSION,
};

/// The size of the file's content.
pub fn size_of(octets: &[u8]) -> u64
    requires { 8 ≤ length octets.now }
    ensures { result ≡ size_in octets.now }
{
    BigEndian::read_u64(&octets[..8])
}

fn mark_of(octets: &[u8]) -> u32
    requires { 12 ≤ length octets.now }
    ensures { result ≡ mark_in octets.now }
{
    BigEndian::read_u32(&octets[8..12])
}

fn second_mark_of(octets: &[u8]) -> u32
    requires { 16 ≤ length octets.now }
    ensures { result ≡ second_mark_in octets.now }
{
    BigEndian::read_u32(&octets[12..16])
}

/// The flags, 24 bits.
pub fn flags_of(octets: &[u8]) -> u32
    requires { 20 ≤ length octets.now }
    ensures { result ≡ flags_in octets.now }
{
    BigEndian::read_u32(&octets[16..20]) % 0x100_0000
}

/// The size of a header extent times the number of header extents.
pub fn meta_size_of(octets: &[u8]) -> u64
    requires { 26 ≤ length octets.now }
    ensures { result ≡ meta_size_in octets.now }
{
    BigEndian::read_u32(&octets[20..24]) as u64 * BigEndian::read_u16(&octets[24..26]) as u64
}

/// The octets in which the packets stand.
pub fn packets_of(octets: &[u8]) -> &[u8]
    requires { SET_OFFSET ≤ length octets.now }
    ensures { result.now ≡ packets_in octets.now }
{
    if octets.len() < SET_END {
        &octets[SET_OFFSET..]
    } else {
        &octets[SET_OFFSET..SET_END]
    }
}

fn is_meta_size(meta_place: MetaPlace, size: u64) -> bool
    ensures { result ≡ meta_size_test meta_place size }
{
    match meta_place {
        MetaPlace::Header => size % EXTENT_SIZE == 0
            && MIN_META_SIZE <= size
            && size <= MAX_META_SIZE,
        MetaPlace::Attribute => true,
    }
}

/// The first fault of the fields before the packets.
#[tactic(auto, unfolding(packet_model::specs::Metadata::fields_fault))]
pub fn fields_fault(meta_place: MetaPlace, octets: &[u8]) -> Option<BadCause>
    ensures exact { result ≡ first_fault meta_place octets.now }
    ensures long { IfNone result (SET_OFFSET ≤ length octets.now) }
{
    if octets.len() < SET_OFFSET {
        return Some(BadCause::Short(octets.len()));
    }
    let mark = mark_of(octets);
    let second_mark = second_mark_of(octets);
    let flags = flags_of(octets);
    let meta_size = meta_size_of(octets);
    if mark ^ second_mark != MARKER {
        Some(BadCause::Marker(mark, second_mark))
    } else if octets[16] != VERSION {
        Some(BadCause::Version(octets[16]))
    } else if flags & HMAC_FLAG != 0 {
        Some(BadCause::Hmac)
    } else if flags & ENCRYPTED_FLAG == 0 {
        Some(BadCause::NotEncrypted)
    } else if !is_meta_size(meta_place, meta_size) {
        Some(BadCause::HeaderSize(meta_size))
    } else {
        None
    }
}
