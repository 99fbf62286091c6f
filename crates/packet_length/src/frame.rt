ghost use Rattle.std.specs.Prelude.{◌≡◌, ◌≤◌, ◌++◌, ℕ, List, length};
ghost use Rattle.std.specs.Option.{option_map};
ghost use Rattle.packet_model.specs.Length.{length_at};
ghost use Rattle.packet_model.specs.FrontPacket.{body_at, body_behind};
ghost use Rattle.packet_model.specs.Packet.{packet};

use crate::length::read_length;
use packet_model::MAX_LENGTH;

/// The body of the packet with this tag octet at the front, and how many octets the packet has (RFC 2440, 4.2). None where the
/// first octet is another, the length is cut or refused, or the body isn't all there.
#[tactic(auto, unfolding(packet_model::specs::FrontPacket::body_at))]
pub fn read_packet(tag: u8, octets: &[u8]) -> Option<(&[u8], usize)>
    ensures { option_map (λ x. (x.0.now, x.1)) result ≡ body_at tag octets.now }
{
    match octets {
        [] => None,
        [first, rest @ ..] => { if *first == tag { body_of(rest) } else { None } }
    }
}

fn body_of(rest: &[u8]) -> Option<(&[u8], usize)>
    ensures { option_map (λ x. (x.0.now, x.1)) result ≡ body_behind rest.now (length_at rest.now) }
{
    match read_length(rest) {
        Err(_) => None,
        Ok((len, used)) => {
            if used + len <= rest.len() {
                let behind = &rest[used..];
                Some((&behind[..len], 1 + used + len))
            } else {
                None
            }
        }
    }
}

/// No packet is a proper prefix of another: two packets at the front of the same octets are one, and what stands behind them
/// is the same.
pub fn no_packet_begins_another()
    ensures { (t u : ℕ) (a b x y : List ℕ) → length a ≤ MAX_LENGTH → length b ≤ MAX_LENGTH → packet t a ++ x ≡ packet u b ++ y → (t ≡ u) × (a ≡ b) × (x ≡ y) }
{}
