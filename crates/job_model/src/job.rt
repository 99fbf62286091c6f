ghost use Rattle.std.specs.Prelude.{Some, codes};

use lower_model::{Items, LowerTree, MetaPlace};
use script_model::Op;
use std::fmt::{self, Debug, Formatter, Write};

/// How a mount reads and writes names.
#[derive(Clone, Copy, Debug, PartialEq, Eq)]
pub enum NameCoding {
    /// Each name stands for itself.
    Plain,
    /// They are encrypted, in tag 70 packets.
    Tag70,
}

/// What a run of the program is given.
#[derive(Drop)]
pub struct Job {
    /// 1 to 64 octets.
    pub passphrase: Items<u8>,
    /// The salt of the file key-encryption key.
    pub salt: [u8; 8],
    /// The salt of the name key.
    pub namesalt: [u8; 8],
    /// How names are read and written.
    pub names: NameCoding,
    /// Where new files keep their metadata.
    pub meta_place: MetaPlace,
    /// The random octets from which the keys of new files are made.
    pub random: [u8; 32],
    /// The lower tree.
    pub image: LowerTree,
    /// The operations of each session, 1 to 16 sessions of at most 65,536 operations.
    pub scripts: Items<Items<Op>>,
    /// Whose turn it is, one session after another, in a run on one thread.
    pub schedule: Items<u32>,
}

// The name alone, since a job holds a passphrase.
impl Debug for Job {
    ghost debug_output = { λ _. Some (codes "Job") };

    fn fmt<W: Write>(&self, f: &mut Formatter<W>) -> fmt::Result {
        f.write_str("Job")
    }
}
