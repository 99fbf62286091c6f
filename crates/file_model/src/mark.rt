/// What of a file's metadata is still to be written.
#[derive(Clone, Copy, Debug, PartialEq, Eq)]
pub enum MetadataMark {
    /// Nothing.
    Clean,
    /// The octets of the size, in a header.
    Size,
    /// All of it: a new header, or the attribute.
    Whole,
}
