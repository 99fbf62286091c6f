ghost use Rattle.std.specs.Prelude.{◌≡◌, ◌≤◌, ◌++◌, ℕ, List, length, drop, IfOk};
ghost use Rattle.std.specs.Option.{ok_or};
ghost use Rattle.packet_model.specs.declared.packet.PacketError.TheVariants.{Bad};
ghost use Rattle.packet_model.specs.declared.packet.Tag11.{Tag11};
ghost use Rattle.packet_model.specs.Packet.{tag11, IsTag11, Skipped};
ghost use Rattle.packet_model.specs.FrontPacket.{tag11_at, tag11_fields, is_tag11_body as body_test};

use packet_length::read_packet;
use packet_model::{PacketError, TAG11, Tag11};

/// The tag 11 packet at the front of some octets (cf. RFC 2440, 5.9), and how many octets it has. Its format, name and date are
/// skipped. `Bad` exactly where no front of the octets is such a packet. It takes no memory, so
/// `Memory` never is its answer.
pub fn read_tag11(octets: &[u8]) -> Result<(Tag11, usize), PacketError>
    ensures exact { result ≡ ok_or (tag11_at octets.now) Bad }
    // What is read is what was written, with some skipped fields.
    ensures found { IfOk result (λ x. (s : Skipped) × IsTag11 s x.0 × (octets.now ≡ tag11 s x.0 ++ drop x.1 octets.now) × (x.1 ≡ length (tag11 s x.0))) }
    // What was written is read again, whatever its skipped fields are and whatever follows.
    ensures again { (s : Skipped) (p : Tag11) (rest : List ℕ) → IsTag11 s p → octets.now ≡ tag11 s p ++ rest → result ≡ Ok (p, length (tag11 s p)) }
{
    tag11_of(octets)
}

#[tactic(auto, unfolding(packet_model::specs::FrontPacket::tag11_at))]
fn tag11_of(octets: &[u8]) -> Result<(Tag11, usize), PacketError>
    ensures { result ≡ ok_or (tag11_at octets.now) Bad }
{
    match read_packet(TAG11, octets) {
        None => Err(PacketError::Bad),
        Some((body, used)) => {
            if is_tag11_body(body) {
                Ok((fields_of(body), used))
            } else {
                Err(PacketError::Bad)
            }
        }
    }
}

// Behind the name, whose length is the second octet, there are the date and the signature.
fn is_tag11_body(body: &[u8]) -> bool
    ensures { result ≡ body_test body.now }
{
    14 <= body.len() && body.len() == 14 + body[1] as usize
}

fn fields_of(body: &[u8]) -> Tag11
    requires { 14 ≤ length body.now }
    ensures { result ≡ tag11_fields body.now }
{
    let mut signature = [0; 8];
    signature.copy_from_slice(&body[body.len() - 8..]);
    Tag11 { signature }
}
