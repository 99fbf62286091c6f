// Blocks as four words each, a column of the state in a word.
ghost use Rattle.std.specs.Prelude.{◌≡◌, ◌+◌, ◌≤◌, slice_index};
ghost use Rattle.std.specs.Int.{to_le_bytes, w128};
ghost use Rattle.cipher_model.specs.Aes.{add_round_key, byte_of, bytes_at, word};

#[inline(always)]
pub fn byte0(w: u32) -> usize
    ensures { result ≡ byte_of w 0 }
{
    (w >> 24) as usize % 256
}

#[inline(always)]
pub fn byte1(w: u32) -> usize
    ensures { result ≡ byte_of w 1 }
{
    (w >> 16) as usize % 256
}

#[inline(always)]
pub fn byte2(w: u32) -> usize
    ensures { result ≡ byte_of w 2 }
{
    (w >> 8) as usize % 256
}

#[inline(always)]
pub fn byte3(w: u32) -> usize
    ensures { result ≡ byte_of w 3 }
{
    w as usize % 256
}

#[inline(always)]
pub fn word_at(block: &[u8; 16], i: usize) -> u32
    requires { i + 4 ≤ 16 }
    ensures { result ≡ word (slice_index block.now i) (slice_index block.now (i + 1))
        (slice_index block.now (i + 2)) (slice_index block.now (i + 3)) }
{
    u32::from_be_bytes([block[i], block[i + 1], block[i + 2], block[i + 3]])
}

// The words of a block that comes as a number, its first octet the lowest. The first octet of a word is its highest (FIPS 197, 3.5).
#[inline(always)]
pub fn words_of(block: u128) -> [u32; 4]
    ensures { bytes_at result 0 ≡ to_le_bytes w128 block }
{
    [
        ((block % 0x1_0000_0000) as u32).swap_bytes(),
        (((block >> 32) % 0x1_0000_0000) as u32).swap_bytes(),
        (((block >> 64) % 0x1_0000_0000) as u32).swap_bytes(),
        ((block >> 96) as u32).swap_bytes(),
    ]
}

// The number of the block of four words.
#[inline(always)]
pub fn number_of(words: [u32; 4]) -> u128
    ensures { to_le_bytes w128 result ≡ bytes_at words 0 }
{
    let [a, b, c, d] = words;
    let lower = a.swap_bytes() as u64 + b.swap_bytes() as u64 * 0x1_0000_0000;
    let upper = c.swap_bytes() as u64 + d.swap_bytes() as u64 * 0x1_0000_0000;
    upper as u128 * 0x1_0000_0000_0000_0000 + lower as u128
}

// The round key that begins at word `i` of the schedule.
#[inline(always)]
pub fn key_at(ws: &[u32; 44], i: usize) -> [u32; 4]
    requires { i + 4 ≤ 44 }
    ensures { bytes_at result 0 ≡ bytes_at ws.now i }
{
    [ws[i], ws[i + 1], ws[i + 2], ws[i + 3]]
}

#[inline(always)]
pub fn add_round_key(s: [u32; 4], ws: &[u32; 44], i: usize) -> [u32; 4]
    requires { i + 4 ≤ 44 }
    ensures { bytes_at result 0 ≡ add_round_key (bytes_at s 0) (bytes_at ws.now i) }
{
    let [a, b, c, d] = s;
    let [p, q, r, t] = key_at(ws, i);
    [a ^ p, b ^ q, c ^ r, d ^ t]
}
