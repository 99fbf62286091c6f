ghost use Rattle.std.specs.Prelude.{◌≡◌, ◌≤◌, ◌++◌, ℕ, List, length, replicate, Ok};
ghost use Rattle.octet_model.specs.Octets.{AreOctets};
ghost use Rattle.coding_model.specs.NameCoding.{coded, decoded, missing};

/// The letters of some octets are read as these octets, with 0 to 2 zeros behind them; and letters that are read as octets are the
/// letters of these octets.
pub fn coded_octets_are_read_again()
    ensures again { (octets : List ℕ) → AreOctets octets → decoded (coded octets) ≡ Ok (octets ++ replicate (missing 3 (length octets)) 0) }
    ensures only { (letters octets : List ℕ) → decoded letters ≡ Ok octets → coded octets ≡ letters }
    ensures few { (n : ℕ) → missing 3 n ≤ 2 }
{}
