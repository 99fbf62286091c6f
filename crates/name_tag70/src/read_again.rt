ghost use Rattle.std.specs.Prelude.{◌≡◌, ◌<◌, ◌≤◌, ℕ, nat_eq, List, length, Ok, IsTrue};
ghost use Rattle.std.specs.List.{starts_with};
ghost use Rattle.octet_model.specs.Octets.{AreOctets, HasOctets};
ghost use Rattle.key_model.specs.SignedKey.{SignedKey};
ghost use Rattle.coding_model.specs.declared.constants.TheConstants.{PREFIX, LONGEST_CODED_OCTETS};
ghost use Rattle.coding_model.specs.CodedName.{lower_octets, written_name};
ghost use Rattle.coding_model.specs.IsCodedName.{IsCodedName};

/// A lower name that has the form of a coded name, with whatever lead, is read as the octets that it holds; what is written has that
/// form, and so has each lower name with the prefix that is read as octets.
pub fn coded_names_are_read_again()
    ensures again { (key : SignedKey) (lower octets : List ℕ) → HasOctets 8 key.signature → IsCodedName key lower octets → lower_octets key lower ≡ Ok octets }
    ensures only { (key : SignedKey) (lower octets : List ℕ) → IsTrue (starts_with nat_eq lower PREFIX) → lower_octets key lower ≡ Ok octets → IsCodedName key lower octets }
    ensures written { (key : SignedKey) (octets : List ℕ) → AreOctets octets → 0 < length octets → length octets ≤ LONGEST_CODED_OCTETS → IsCodedName key (written_name key octets) octets }
{}
