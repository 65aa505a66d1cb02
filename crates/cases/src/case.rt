// A case in bytes, as `tools/cases` packs it: the operation at 0, in 16 bits; four numbers, two of 16 bits at 2 and 4, two of 32 with their sign at 6 and 10;
// from 14 on, in 16 bits each, where part 0 starts and where each of seventeen parts ends, the next starting there; then the parts. Part 0 is the operation
// with the case's name, 1 a sheet or other bytes, 2 to 8 the elements of the slices, 9 to 15 the names of those that are printed after the call, 16 the name of
// one that the operation prints. What lies outside reads as zero or as nothing.
ghost use Rattle.std.specs.Prelude.{◌+◌, ◌<◌, ◌≤◌, length, IfSome};

// The number of 16 bits at a place.
pub fn half(s: &[u8], at: usize) -> u16 {
    if s.len() < 2 || s.len() - 2 < at {
        return 0;
    }
    fields::read_u16(s, at)
}

// The number of 32 bits at a place, with its sign.
pub fn word(s: &[u8], at: usize) -> i32 {
    if s.len() < 4 || s.len() - 4 < at {
        return 0;
    }
    fields::read_i32(s, at)
}

// The number of 32 bits at a place, without a sign.
pub fn natural(s: &[u8], at: usize) -> u64
    ensures { result < 4294967296 }
{
    u64::from(signed::to_bits(word(s, at)))
}

// The number of 64 bits at a place.
fn long(s: &[u8], at: usize) -> u64 {
    if s.len() < 8 || s.len() - 8 < at {
        return 0;
    }
    natural(s, at) + 4294967296 * natural(s, at + 4)
}

// A number of 16 bits that counts bytes.
fn count(s: &[u8], at: usize) -> usize
    ensures { result < 65536 }
{
    usize::from(half(s, at))
}

// A part of a case; one that does not lie within it is empty.
pub fn part(s: &[u8], k: usize) -> &[u8]
    requires { k < 17 }
{
    let start = count(s, 14 + 2 * k);
    let end = count(s, 16 + 2 * k);
    if end < start || s.len() < end {
        return &s[0..0];
    }
    &s[start..end]
}

// How long the case at a place is; none if it does not lie within the bytes.
pub fn length(s: &[u8], at: usize) -> Option<usize>
    requires { at < length s.now }
    ensures { IfSome result (λ n. (0 < n) × (at + n ≤ length s.now)) }
{
    let left = s.len() - at;
    if left < 50 {
        return None;
    }
    let n = count(s, at + 48);
    if n == 0 || left < n { None } else { Some(n) }
}

// The numbers of a part, each of so many bytes, put into the front of an array, which is lent on as far as they go.
fn put<'a, T: Copy, F: Fn(&[u8], usize) -> T>(
    from: &[u8],
    size: usize,
    read: F,
    to: &'a mut [T],
) -> &'a mut [T]
    requires { (0 < size) × F.IsAlwaysCallable read }
{
    let n = (from.len() / size).min(to.len());
    for i in 0..n {
        to[i] = read(from, size * i);
    }
    &mut to[..n]
}

pub fn halves<'a>(s: &[u8], k: usize, to: &'a mut [u16]) -> &'a mut [u16]
    requires { k < 17 }
{
    put(part(s, k), 2, half, to)
}

pub fn words<'a>(s: &[u8], k: usize, to: &'a mut [i32]) -> &'a mut [i32]
    requires { k < 17 }
{
    put(part(s, k), 4, word, to)
}

pub fn longs<'a>(s: &[u8], k: usize, to: &'a mut [u64]) -> &'a mut [u64]
    requires { k < 17 }
{
    put(part(s, k), 8, long, to)
}

// A slice of bytes comes as its length and the one byte that it holds throughout.
pub fn filled<'a>(s: &[u8], k: usize, to: &'a mut [u8]) -> &'a mut [u8]
    requires { k < 17 }
{
    let from = part(s, k);
    let n = count(from, 0);
    let value = (half(from, 2) % 256) as u8;
    let n = n.min(to.len());
    for i in 0..n {
        to[i] = value;
    }
    &mut to[..n]
}
