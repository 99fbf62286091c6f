ghost use Rattle.std.specs.Prelude.{◌≡◌, ℕ, List, EachIndex, slice_index, Some, codes};
ghost use Rattle.key_model.specs.FileKey.{aes128_words, file_key, file_mark, stream_word};

use crate::file_key::Fek;
use rand_chacha::ChaCha20Rng;
use rand_core::SeedableRng;
use rand_core::utils::NextWord;
use std::fmt::{self, Debug, Formatter, Write};
use std::marker::Model;

const KEY_WORDS: usize = 4;

/// Where new files get their keys and marks: 32 random octets, which the caller hands in. Contracts see
/// the octets.
#[derive(Drop)]
pub struct KeySource {
    random: [u8; 32],
}

impl Model for KeySource {
    ghost Value = { List ℕ };

    ghost view = { λ s. s.random };
}

impl KeySource {
    /// The source with these random octets.
    pub fn new(random: [u8; 32]) -> KeySource
        ensures { result ≡ random }
    {
        KeySource { random }
    }

    /// A new file's key: words 0 to 3 of the ChaCha20 stream of this node (RFC 8439, 2.3), each with the
    /// lowest octet first.
    #[tactic(auto, unfolding(key_model::specs::FileKey::file_key))]
    pub fn fek(&self, node: u32) -> Fek
        ensures { result ≡ file_key self.now node aes128_words }
    {
        let words = self.words(node);
        let mut octets = [0; 16];
        for i in 0..KEY_WORDS {
            octets[4 * i..4 * i + 4].copy_from_slice(&words[i].to_le_bytes());
        }
        Fek::new(octets)
    }

    /// The mark of a new file's metadata: word 4 of the stream that gives its key.
    pub fn mark(&self, node: u32) -> u32
        ensures { result ≡ file_mark self.now node aes128_words }
    {
        self.words(node)[KEY_WORDS]
    }

    // The words of a node's stream from the first on: a key and its mark.
    fn words(&self, node: u32) -> [u32; KEY_WORDS + 1]
        ensures { EachIndex result (λ i. slice_index result i ≡ stream_word self.now node i) }
    {
        let mut stream = ChaCha20Rng::from_seed(self.random);
        stream.set_stream(u64::from(node));
        let mut words = [0; KEY_WORDS + 1];
        for word in words.iter_mut() {
            *word = stream.next_word();
        }
        words
    }
}

// The name alone.
impl Debug for KeySource {
    ghost debug_output = { λ _. Some (codes "KeySource") };

    fn fmt<W: Write>(&self, f: &mut Formatter<W>) -> fmt::Result {
        f.write_str("KeySource")
    }
}
