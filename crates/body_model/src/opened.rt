use lower_model::{Items, MetaPlace};

/// What the metadata of a file says, and where its data stands. The key, of the format's type, has to be spent.
#[derive(Debug)]
pub struct Opened<K> {
    /// The file key.
    pub key: K,
    /// The size of the file's content, in octets.
    pub size: u64,
    /// The offset in the body at which the data begins.
    pub data_start: u64,
    /// Where the metadata stands.
    pub meta_place: MetaPlace,
    /// The whole attribute, or all of a new file's metadata; empty for a header that is there.
    pub metadata: Items<u8>,
}
