// The key expansion (FIPS 197, 5.2) for a key of four words.

ghost use Rattle.std.specs.Prelude.{◌≡◌, ◌<◌, ◌≤◌};
ghost use Rattle.cipher_model.specs.Field.{power};
ghost use Rattle.cipher_model.specs.Aes.{key_schedule, next_word, sub_word, word};

use crate::cipher::subbed_column;
use crate::words::word_at;

// The powers of x, each as the first byte of a word.
const ROUND_CONSTANTS: [u32; 10] = [
    0x01000000, 0x02000000, 0x04000000, 0x08000000, 0x10000000, 0x20000000, 0x40000000, 0x80000000,
    0x1b000000, 0x36000000,
];

#[tactic(auto, using(crate::proofs::KeySchedule::round_constant_at))]
fn round_constant(i: usize) -> u32
    requires { i < 10 }
    ensures { result ≡ word (power 2 i) 0 0 0 }
{
    ROUND_CONSTANTS[i]
}

fn sub_word(w: u32) -> u32
    ensures { result ≡ sub_word w }
{
    subbed_column(w, w, w, w)
}

// The word after the first `i`.
fn next_word(ws: &[u32; 44], i: usize) -> u32
    requires low { 4 ≤ i }
    requires high { i < 44 }
    ensures { result ≡ next_word 4 ws.now i }
{
    let before = ws[i - 1];
    let turned = if i % 4 == 0 {
        sub_word(before.rotate_left(8)) ^ round_constant(i / 4 - 1)
    } else {
        before
    };
    ws[i - 4] ^ turned
}

// The 44 words of the schedule.
pub fn key_schedule(key: &[u8; 16]) -> [u32; 44]
    ensures { result ≡ key_schedule 4 key.now }
{
    let mut ws = [0u32; 44];
    ws[0] = word_at(key, 0);
    ws[1] = word_at(key, 4);
    ws[2] = word_at(key, 8);
    ws[3] = word_at(key, 12);
    'words: for i in 4..44 {
        ws[i] = next_word(&ws, i);
    }
    ws
}
