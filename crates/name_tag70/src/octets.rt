ghost use Rattle.octet_model.specs.Octets.{AreOctets};

/// Nothing is done: to contracts, each number of a slice of octets fits an octet.
pub fn are_octets(octets: &[u8])
    ensures { AreOctets octets.now }
{
    let _count = octets.len();
}
