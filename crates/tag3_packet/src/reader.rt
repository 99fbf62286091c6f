ghost use Rattle.std.specs.Prelude.{◌≡◌, ◌≤◌, ◌++◌, ℕ, List, length, drop, IfOk, Some};
ghost use Rattle.packet_model.specs.declared.packet.Tag3.{Tag3};
ghost use Rattle.packet_model.specs.Packet.{tag3, IsTag3};
ghost use Rattle.packet_model.specs.FrontPacket.{tag3_at, tag3_fields, GivesPacket, is_tag3_body as body_test};

use lower_model::Items;
use packet_length::read_packet;
use packet_model::{MAX_WRAPPED, PacketError, TAG3, Tag3};
use std::alloc::{AllocError, Global};

/// The tag 3 packet at the front of some octets (RFC 2440, 5.3), and how many octets it has. `Bad` exactly where no front of
/// the octets is such a packet.
pub fn read_tag3(alloc: Global, octets: &[u8]) -> Result<(Tag3, usize), PacketError>
    ensures exact { GivesPacket result (tag3_at octets.now) }
    // What is read is what was written.
    ensures found { IfOk result (λ x. IsTag3 x.0 × (octets.now ≡ tag3 x.0 ++ drop x.1 octets.now) × (x.1 ≡ length (tag3 x.0))) }
    // What was written is read again, whatever follows, unless memory ran out.
    ensures again { (p : Tag3) (rest : List ℕ) → IsTag3 p → octets.now ≡ tag3 p ++ rest → GivesPacket result (Some (p, length (tag3 p))) }
{
    tag3_of(alloc, octets)
}

#[tactic(auto, unfolding(packet_model::specs::FrontPacket::tag3_at))]
fn tag3_of(alloc: Global, octets: &[u8]) -> Result<(Tag3, usize), PacketError>
    ensures { GivesPacket result (tag3_at octets.now) }
{
    match read_packet(TAG3, octets) {
        None => Err(PacketError::Bad),
        Some((body, used)) => {
            if is_tag3_body(body) {
                Ok((fields_of(alloc, body)?, used))
            } else {
                Err(PacketError::Bad)
            }
        }
    }
}

// Version 4, S2K 3, hash 1, and a wrapped key behind the 13 octets of the fields.
fn is_tag3_body(body: &[u8]) -> bool
    ensures { result ≡ body_test body.now }
{
    13 <= body.len()
        && body.len() <= 13 + MAX_WRAPPED
        && body[0] == 4
        && body[2] == 3
        && body[3] == 1
}

fn fields_of(alloc: Global, body: &[u8]) -> Result<Tag3, AllocError>
    requires { 13 ≤ length body.now }
    ensures { IfOk result (λ p. p ≡ tag3_fields body.now) }
{
    let mut salt = [0; 8];
    salt.copy_from_slice(&body[4..12]);
    Ok(Tag3 {
        cipher: body[1],
        salt,
        count: body[12],
        wrapped: Items::from_slice(alloc, &body[13..])?,
    })
}
