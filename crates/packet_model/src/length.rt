use thiserror::Error;

/// The greatest length of a packet body that two octets can say (RFC 2440, 4.2.2.2).
pub const MAX_LENGTH: u16 = 8_383;

/// Why no packet length stands at the front of some octets.
#[derive(Clone, Copy, Debug, PartialEq, Eq, Error)]
pub enum LengthFault {
    /// There is no octet, or the second of two is missing.
    #[error("the packet length is cut")]
    Cut,
    /// This first octet is over 223: it begins one of the forms that eCryptfs doesn't use (RFC 2440, 4.2.2.3 and
    /// 4.2.2.4).
    #[error("no packet length begins with the octet {0}")]
    First(u8),
}
