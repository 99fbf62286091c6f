// The plain text of a coded name: a lead, a zero, and the name.
ghost use Rattle.std.specs.Prelude.{◌≡◌, ◌<◌, ◌≤◌, ◌==◌, length, IfSome};
ghost use Rattle.std.specs.List.{position};
ghost use Rattle.name_tag70.specs.Reading.{seen};
ghost use Rattle.coding_model.specs.CodedName.{behind_lead as octets_behind_lead, behind_zero, some_octets as octets_if_some, lead_length as length_of_lead};
ghost use Rattle.coding_model.specs.declared.constants.TheConstants.{LONGEST_CODED_OCTETS};

use coding_model::LEAST_LEAD;
use name_form::NameFault;

/// The octets behind the first zero. `NoZero`, `Lead` and `EmptyName` come in this order.
pub fn behind_lead(plain: &[u8]) -> Result<&[u8], NameFault>
    ensures { seen (λ octets. octets.now) result ≡ octets_behind_lead plain.now }
{
    match first_zero(plain) {
        None => Err(NameFault::NoZero),
        Some(zero) => {
            if zero < LEAST_LEAD {
                Err(NameFault::Lead(zero))
            } else {
                some_octets(&plain[zero + 1..])
            }
        }
    }
}

fn first_zero(plain: &[u8]) -> Option<usize>
    ensures first { result ≡ position (λ c. c == 0) plain.now }
    ensures within { IfSome result (λ zero. zero < length plain.now) }
{
    plain.iter().position(|octet| *octet == 0)
}

fn some_octets(octets: &[u8]) -> Result<&[u8], NameFault>
    ensures { seen (λ octets. octets.now) result ≡ octets_if_some octets.now }
{
    match octets {
        [] => Err(NameFault::EmptyName),
        [_, ..] => Ok(octets),
    }
}

/// How many octets the lead of these octets has.
pub fn lead_length(octets: &[u8]) -> usize
    requires { length octets.now ≤ LONGEST_CODED_OCTETS }
    ensures { result ≡ length_of_lead octets.now }
{
    LEAST_LEAD + (16 - (LEAST_LEAD + 1 + octets.len()) % 16) % 16
}
