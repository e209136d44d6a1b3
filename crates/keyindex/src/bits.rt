// The bucket and the bits of a key.

ghost use Rattle.std.specs.Prelude.{◌≡◌, ◌+◌, ◌*◌, ◌<◌, ◌≤◌, length, slice_index};
ghost use Rattle.keyindex.specs.Walks.{key_bit, bucket_of, word_of, mix};

use crate::index::MAX_BUCKETS;

/// The bucket of a key.
pub(crate) fn bucket(key: &[u8], buckets: usize) -> usize
    requires low { 0 < buckets }
    requires high { buckets ≤ MAX_BUCKETS }
    ensures bucket { result ≡ bucket_of buckets key.now }
    ensures within { result < buckets }
{
    let words = key.len() / 8;
    let mut hash: u64 = 0x9e37_79b9_7f4a_7c15;
    for i in 0..words {
        hash = mixed(hash, word(key, i));
    }
    if key.len() % 8 != 0 {
        hash = mixed(hash, last_word(key, words));
    }
    ((hash >> 32) * buckets as u64 >> 32) as usize
}

/// A word of a key.
fn word(key: &[u8], i: usize) -> u64
    requires { 8 * i + 8 ≤ length key.now }
    ensures { result ≡ word_of key.now i }
{
    let w = 8 * i;
    u64::from_le_bytes([
        key[w],
        key[w + 1],
        key[w + 2],
        key[w + 3],
        key[w + 4],
        key[w + 5],
        key[w + 6],
        key[w + 7],
    ])
}

/// The word that a key ends in, with zeros past its end.
fn last_word(key: &[u8], i: usize) -> u64
    requires low { 8 * i < length key.now }
    requires high { length key.now < 8 * i + 8 }
    ensures { result ≡ word_of key.now i }
{
    let w = 8 * i;
    if key.len() - w == 4 {
        u32::from_le_bytes([key[w], key[w + 1], key[w + 2], key[w + 3]]) as u64
    } else {
        u64::from_le_bytes([
            key[w],
            byte(key, w + 1),
            byte(key, w + 2),
            byte(key, w + 3),
            byte(key, w + 4),
            byte(key, w + 5),
            byte(key, w + 6),
            0,
        ])
    }
}

/// A byte of a key, 0 past its end.
fn byte(key: &[u8], i: usize) -> u8
    ensures { result ≡ slice_index key.now i }
{
    if i < key.len() { key[i] } else { 0 }
}

/// A hash with a word more.
fn mixed(hash: u64, word: u64) -> u64
    ensures { result ≡ mix hash word }
{
    let product = (hash ^ word).wrapping_mul(0xff51_afd7_ed55_8ccd);
    product ^ (product >> 32)
}

/// A bit of a key, 0 past its end.
pub(crate) fn bit(key: &[u8], i: usize) -> usize
    ensures bit { result ≡ key_bit key.now i }
    ensures within { result < 2 }
{
    if i / 8 < key.len() {
        (key[i / 8] >> (i % 8) & 1) as usize
    } else {
        0
    }
}
