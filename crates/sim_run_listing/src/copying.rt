//! Short texts that are copied without a call.
ghost use Rattle.std.specs.Prelude.{◌≡◌, ◌+◌, ◌<◌, ◌≤◌, ◌++◌, length, take, drop};

/// The number of bytes that may be written from a place on, if the text has at most this many. Copies
/// into a slice of a fixed length need no test when they run.
pub const WINDOW: usize = 16;

/// Copies the first `N` bytes of a text, as one array: `copy_from_slice` would compare addresses.
#[inline(always)]
pub fn put_chunk<const N: usize>(to: &mut [u8], from: &[u8])
    requires least { N ≤ length from.now }
    requires room { N ≤ length to.old }
    ensures { to.new ≡ take N from.now ++ drop N to.old }
{
    *to.first_chunk_mut::<N>().unwrap() = *from.first_chunk::<N>().unwrap();
}

/// Copies a text of `N` to twice `N` bytes: its first `N`, then its last `N`.
#[inline(always)]
fn copy_ends<const N: usize>(to: &mut [u8], from: &[u8])
    requires least { N ≤ length from.now }
    requires most { length from.now ≤ N + N }
    requires room { length from.now ≤ length to.old }
    ensures { take (length from.now) to.new ≡ from.now }
{
    let last = from.len() - N;
    put_chunk::<N>(to, from);
    put_chunk::<N>(&mut to[last..], &from[last..]);
}

/// Copies one, two or three bytes.
#[inline(always)]
fn copy_few(to: &mut [u8], from: &[u8])
    requires least { 0 < length from.now }
    requires most { length from.now < 4 }
    requires room { length from.now ≤ length to.old }
    ensures { take (length from.now) to.new ≡ from.now }
{
    let middle = from.len() / 2;
    let last = from.len() - 1;
    to[0] = from[0];
    to[middle] = from[middle];
    to[last] = from[last];
}

/// Copies a text to a place. The bytes behind it may be any then.
#[inline(always)]
pub fn copy_to(to: &mut [u8], start: usize, from: &[u8])
    requires { start + length from.now + WINDOW ≤ length to.old }
    ensures { take (start + length from.now) to.new ≡ take start to.old ++ from.now }
{
    if from.len() < 4 {
        if !from.is_empty() {
            copy_few(&mut to[start..start + WINDOW], from);
        }
    } else if from.len() <= 8 {
        copy_ends::<4>(&mut to[start..start + WINDOW], from);
    } else if from.len() <= WINDOW {
        copy_ends::<8>(&mut to[start..start + WINDOW], from);
    } else {
        to[start..start + from.len()].copy_from_slice(from);
    }
}
