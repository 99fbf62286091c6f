/// Where a file has its metadata.
#[derive(Clone, Copy, Debug, PartialEq, Eq)]
pub enum MetaPlace {
    /// In the first octets of its body.
    Header,
    /// In the attribute `user.ecryptfs`.
    Attribute,
}
