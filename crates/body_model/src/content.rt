use lower_model::Items;
use packet_model::BadCause;

/// What a lower file decodes to.
#[derive(Debug, Drop)]
pub enum Content {
    /// It has neither a body nor the attribute.
    Empty,
    /// These octets.
    Good(Items<u8>),
    /// It can't be decoded, for this cause.
    Bad(BadCause),
}
