// Numbers in base ten, written into a lent slice of bytes. Document 01: "Numbers are in base ten."
// Each function writes at a place and returns the place behind.
#![tactic(auto)]

ghost use Rattle.std.specs.Prelude.{◌≡◌, ◌+◌, ◌%◌, ◌≤◌, length, nat_abs};
ghost use Rattle.texts.specs.Decimal.{digit, decimal, number};
ghost use Rattle.texts.specs.inner.Placed.{Placed};

// Bytes as they are, such as a word.
#[tactic(auto, using(fields::proofs::Laws::put_part))]
pub fn put_bytes(text: &mut [u8], at: usize, bytes: &[u8]) -> usize
    requires { at + length bytes.now ≤ length text.old }
    ensures { Placed at bytes.now text.old text.new result }
{
    let end = at + bytes.len();
    arrays::copy(bytes, &mut text[at..end]);
    end
}

// The byte of a number's last digit; 48 is the digit 0.
fn last_digit(n: u32) -> u8
    ensures { result ≡ digit (n % 10) }
{
    (48 + n % 10) as u8
}

// How many digits a number has: one more than its power of ten, and one for 0.
pub fn digit_count(n: u32) -> usize
    ensures { result ≡ length (decimal n) }
{
    n.max(1).ilog10() as usize + 1
}

// A number that is not below zero, in base ten. The last digit is found first, so the digits are written from the right.
pub fn put_decimal(text: &mut [u8], at: usize, n: u32) -> usize
    requires { at + length (decimal n) ≤ length text.old }
    ensures { Placed at (decimal n) text.old text.new result }
{
    let end = at + digit_count(n);
    let mut m = n;
    for i in (at..end).rev() {
        text[i] = last_digit(m);
        m /= 10;
    }
    end
}

// How far a number is from zero. The least i32 is 2,147,483,648 from zero, which fits no i32, so the size is a u32.
fn magnitude(x: i32) -> u32
    ensures { result ≡ nat_abs x }
{
    x.unsigned_abs()
}

// A number in base ten, with the minus sign (45) before it if it is below zero.
pub fn put_number(text: &mut [u8], at: usize, x: i32) -> usize
    requires { at + length (number x) ≤ length text.old }
    ensures { Placed at (number x) text.old text.new result }
{
    let size = magnitude(x);
    if x < 0 {
        text[at] = 45;
        put_decimal(text, at + 1, size)
    } else {
        put_decimal(text, at, size)
    }
}
