/// What is wrong with the first wrong field of an image.
#[derive(Clone, Copy, Debug, PartialEq, Eq)]
pub enum ImageKind {
    /// The first 8 octets aren't the magic, or there are fewer.
    Magic,
    /// The count of entries is over 4,095.
    TooMany,
    /// No open directory stands at this level.
    Level,
    /// The kind is neither 0 nor 1.
    Kind,
    /// The length of the name is 0.
    NameLength,
    /// The octets can't be a name.
    Name,
    /// The name isn't greater than the one before it in the same directory.
    Order,
    /// The attribute flag is neither 0 nor 1.
    Flag,
    /// The length of the attribute is over 65,536.
    AttributeLength,
    /// The image ends within this field.
    Cut,
    /// Octets follow the last entry.
    Extra,
}

/// The first fault of octets that are no image.
#[derive(Clone, Copy, Debug, PartialEq, Eq)]
pub struct ImageFault {
    /// The first octet of the wrong field, counted from 0.
    pub offset: usize,
    /// What is wrong with that field.
    pub kind: ImageKind,
}

/// Why an image wasn't read.
#[derive(Clone, Copy, Debug, PartialEq, Eq)]
pub enum ImageError {
    /// The octets are no image.
    Fault(ImageFault),
    /// Memory ran out.
    Memory,
}
