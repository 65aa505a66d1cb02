// Signed machine arithmetic, one step to a function, with contracts in ℤ: sums and differences of two i32,
// at 32 bits where they fit and exact at 64, of two i16, an i32 made of its bits, and half of one.
#![tactic(auto)]

ghost use Rattle.std.specs.Prelude.{◌≡◌, pos, ◌+ℤ◌, ◌-ℤ◌, ◌≤ℤ◌};
ghost use Rattle.std.specs.Int.{w16, w32, w64};
ghost use Rattle.std.proofs.Common.{to_z, of_z, SFits};

// The same number at 64 bits.
pub fn widen(x: i32) -> i64
    ensures { result ≡ x }
{
    x as i64
}

// The same number at 32 bits, where it fits them.
pub fn narrow(x: i64) -> i32
    requires { SFits w32 x }
    ensures { result ≡ x }
{
    x as i32
}

// A sum at 32 bits, where it fits them.
pub fn plus(a: i32, b: i32) -> i32
    requires { SFits w32 (a +ℤ b) }
    ensures { result ≡ a +ℤ b }
{
    a + b
}

// A difference at 32 bits, where it fits them.
pub fn minus(a: i32, b: i32) -> i32
    requires { SFits w32 (a -ℤ b) }
    ensures { result ≡ a -ℤ b }
{
    a - b
}

// A sum at 16 bits, where it fits them.
pub fn plus16(a: i16, b: i16) -> i16
    requires { SFits w16 (a +ℤ b) }
    ensures { result ≡ a +ℤ b }
{
    a + b
}

// A difference at 16 bits, where it fits them.
pub fn minus16(a: i16, b: i16) -> i16
    requires { SFits w16 (a -ℤ b) }
    ensures { result ≡ a -ℤ b }
{
    a - b
}

// A difference of a number at 32 bits and one at 16, where it fits 32.
pub fn minus_small(x: i32, y: i16) -> i32
    requires { SFits w32 (x -ℤ y) }
    ensures { result ≡ x -ℤ y }
{
    x - y as i32
}

// A sum at 64 bits, where it fits them.
pub fn plus64(x: i64, y: i64) -> i64
    requires { SFits w64 (x +ℤ y) }
    ensures { result ≡ x +ℤ y }
{
    x + y
}

// A sum of a number at 64 bits and one at 32, where it fits 64.
pub fn plus_wide(x: i64, y: i32) -> i64
    requires { SFits w64 (x +ℤ y) }
    ensures { result ≡ x +ℤ y }
{
    x + y as i64
}

// A difference at 64 bits, where it fits them.
pub fn minus64(x: i64, y: i64) -> i64
    requires { SFits w64 (x -ℤ y) }
    ensures { result ≡ x -ℤ y }
{
    x - y
}

// The sum, at 64 bits: it never wraps.
pub fn add32(a: i32, b: i32) -> i64
    ensures { result ≡ a +ℤ b }
{
    a as i64 + b as i64
}

// The difference, at 64 bits: it never wraps.
pub fn sub32(a: i32, b: i32) -> i64
    ensures { result ≡ a -ℤ b }
{
    a as i64 - b as i64
}

// The number that has these 32 bits in two's complement.
pub fn of_bits(n: u32) -> i32
    ensures { result ≡ to_z w32 n }
{
    if n < 2147483648 {
        n as i32
    } else {
        !((4294967295 - n) as i32)
    }
}

// The 32 bits of a number in two's complement.
pub fn to_bits(x: i32) -> u32
    ensures { result ≡ of_z w32 x }
{
    if x < 0 {
        4294967295 - (!x as u32)
    } else {
        x as u32
    }
}

// Half of a number that is not below zero, rounded down.
pub fn halve(x: i32) -> i32
    requires { pos 0 ≤ℤ x }
    ensures { ((result +ℤ result) ≤ℤ x) × (x ≤ℤ ((result +ℤ result) +ℤ pos 1)) }
{
    of_bits(to_bits(x) / 2)
}
