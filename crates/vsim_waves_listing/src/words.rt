//! Texts as words of eight bytes each, the last of which may overlap with the one before it, and
//! short texts as one word.

/// A factor that spreads the bits of a hash.
const FACTOR: u64 = 0x9E37_79B9_7F4A_7C15;

/// Whether two texts are the same.
pub fn is_same(text: &[u8], other: &[u8]) -> bool {
    let (Some(end), Some(other_end)) = (text.last_chunk::<8>(), other.last_chunk::<8>()) else {
        return text.len() == other.len() && short_word(text) == short_word(other);
    };
    text.len() == other.len()
        && u64::from_le_bytes(*end) == u64::from_le_bytes(*other_end)
        && are_same(text.as_chunks::<8>().0, other.as_chunks::<8>().0)
}

/// Whether two lists have the same words.
fn are_same(words: &[[u8; 8]], others: &[[u8; 8]]) -> bool {
    for (word, other) in words.iter().zip(others) {
        if u64::from_le_bytes(*word) != u64::from_le_bytes(*other) {
            return false;
        }
    }
    words.len() == others.len()
}

/// A hash with a word more.
fn mixed(hash: u64, word: u64) -> u64 {
    let (low, high) = (hash ^ word).carrying_mul(FACTOR, 0);
    low ^ high
}

/// A text of less than four bytes as a word.
fn few_bytes(text: &[u8]) -> u64 {
    match *text {
        [first, second, third] => u64::from(u32::from_le_bytes([first, second, third, 0])),
        [first, second] => u64::from(u16::from_le_bytes([first, second])),
        [first] => u64::from(first),
        _ => 0,
    }
}

/// A text of less than eight bytes as a word. Two of the same length have different words.
fn short_word(text: &[u8]) -> u64 {
    match (text.first_chunk::<4>(), text.last_chunk::<4>()) {
        (Some(first), Some(last)) => {
            let first = u64::from(u32::from_le_bytes(*first));
            first.wrapping_mul(1 << 32) | u64::from(u32::from_le_bytes(*last))
        }
        _ => few_bytes(text),
    }
}

/// Whether no other text has the key of a text.
pub fn is_only(text: &[u8]) -> bool {
    text.len() < 4
}

/// The key by which a table finds a text: of less than four bytes these and their number, else a
/// hash with the highest bit set.
pub fn key_of(text: &[u8]) -> u64 {
    let length = text.len() as u64;
    if is_only(text) {
        return few_bytes(text) | length.wrapping_mul(1 << 24);
    }
    let Some(end) = text.last_chunk::<8>() else {
        return mixed(length, short_word(text)) | 1 << 63;
    };
    let mut hash = length;
    for word in text.as_chunks::<8>().0 {
        hash = mixed(hash, u64::from_le_bytes(*word));
    }
    mixed(hash, u64::from_le_bytes(*end)) | 1 << 63
}

/// The place of a key in a table whose last place is this one, and whose length is a power of two.
pub fn place_of(key: u64, last: usize) -> usize {
    key.carrying_mul(FACTOR, 0).1 as usize & last
}

/// The digits with which eight bytes begin: their number, and the number that they are.
pub fn digits_of(text: [u8; 8]) -> (usize, u64) {
    let digits = u64::from_le_bytes(text) ^ 0x3030_3030_3030_3030;
    // the highest bit of each byte that is no digit, at least of the first of them
    let others = (digits.wrapping_add(0x7676_7676_7676_7676) | digits) & 0x8080_8080_8080_8080;
    let count = others.trailing_zeros() / 8;
    // with zeros before them
    let eight = digits.checked_shl(64u32.saturating_sub(count.saturating_mul(8)));
    let pairs = (eight.unwrap_or(0).wrapping_mul(2_561) >> 8) & 0x00FF_00FF_00FF_00FF;
    let fours = (pairs.wrapping_mul(6_553_601) >> 16) & 0x0000_FFFF_0000_FFFF;
    (count as usize, fours.wrapping_mul(42_949_672_960_001) >> 32)
}
