ghost use Rattle.std.specs.Prelude.{◌≡◌, ℕ, List, Ok};
ghost use Rattle.octet_model.specs.Octets.{AreOctets};
ghost use Rattle.packet_model.specs.declared.packet.Pair.{Pair};
ghost use Rattle.packet_model.specs.PacketSet.{pairs_from, IsSet};

/// What is spelled as a set of pairs is read as these pairs, whatever their skipped fields are and whatever stands behind
/// the set's end; and what is read as pairs is spelled so.
pub fn sets_are_read_as_spelled()
    ensures again { (pairs : List Pair) (offset : ℕ) (octets : List ℕ) → IsSet pairs octets → pairs_from offset octets ≡ Ok pairs }
    ensures found { (pairs : List Pair) (offset : ℕ) (octets : List ℕ) → AreOctets octets → pairs_from offset octets ≡ Ok pairs → IsSet pairs octets }
{}
