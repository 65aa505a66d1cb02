// Fields of records, read from and written into bytes. The paper: "Fields are little-endian, 16 bits unsigned or 32 bits signed." Document 02, Job 10: a tick
// has 32 bits, unsigned.
#![tactic(auto)]

ghost use Rattle.std.specs.Prelude.{◌≡◌, [], ◌∷◌, ◌+◌, ◌<◌, ◌≤◌, length};
ghost use Rattle.fields.specs.Fields.{u16_at, u32_at, i32_at, le16, le32, put};

// The field of 16 bits at `at`.
#[tactic(auto, unfolding(crate::specs::Fields::u16_at))]
pub fn read_u16(s: &[u8], at: usize) -> u16
    requires { at + 1 < length s.now }
    ensures { result ≡ u16_at s.now at }
{
    u16::from_le_bytes([s[at], s[at + 1]])
}

// The 32 bits at `at`, as a number from 0.
#[tactic(auto, unfolding(crate::specs::Fields::u32_at))]
pub fn read_u32(s: &[u8], at: usize) -> u32
    requires { at + 3 < length s.now }
    ensures { result ≡ u32_at s.now at }
{
    u32::from_le_bytes([s[at], s[at + 1], s[at + 2], s[at + 3]])
}

// The field of 32 bits at `at`, with its sign.
#[tactic(auto, unfolding(crate::specs::Fields::i32_at, crate::specs::Fields::u32_at))]
pub fn read_i32(s: &[u8], at: usize) -> i32
    requires { at + 3 < length s.now }
    ensures { result ≡ i32_at s.now at }
{
    i32::from_le_bytes([s[at], s[at + 1], s[at + 2], s[at + 3]])
}

// One byte at `at`, such as a record's kind.
#[tactic(auto, using(crate::proofs::Laws::put_one))]
pub fn write_u8(s: &mut [u8], at: usize, n: u8)
    requires { at + 1 ≤ length s.old }
    ensures { s.new ≡ put at (n ∷ []) s.old }
{
    s[at] = n;
}

// A field of 16 bits at `at`.
#[tactic(auto, using(crate::proofs::Laws::put_two), unfolding(crate::specs::Fields::le16))]
pub fn write_u16(s: &mut [u8], at: usize, n: u16)
    requires { at + 2 ≤ length s.old }
    ensures { s.new ≡ put at (le16 n) s.old }
{
    let [low, high] = n.to_le_bytes();
    s[at] = low;
    s[at + 1] = high;
}

// A field of 32 bits at `at`, with its sign.
#[tactic(auto, using(crate::proofs::Laws::put_four), unfolding(crate::specs::Fields::le32, crate::specs::Fields::le_bits))]
pub fn write_i32(s: &mut [u8], at: usize, x: i32)
    requires { at + 4 ≤ length s.old }
    ensures { s.new ≡ put at (le32 x) s.old }
{
    let [a, b, c, d] = x.to_le_bytes();
    s[at] = a;
    s[at + 1] = b;
    s[at + 2] = c;
    s[at + 3] = d;
}
