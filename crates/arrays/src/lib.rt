// What every function on arrays uses: indices widened and narrowed, the reverse of a dart, the face right of it, and a copy.
#![tactic(auto)]

ghost use Rattle.std.specs.Prelude.{◌≡◌, ◌<◌, length};
ghost use Rattle.maps.specs.Dart.{rev};
ghost use Rattle.arrays.specs.Maps.{right_of};

// The sizes of an open drawing: its nodes, edges, faces and parts (connected components), and a dart on its outer face.
#[derive(Clone, Copy)]
pub struct Sizes {
    pub nodes: usize,
    pub edges: usize,
    pub faces: usize,
    pub parts: usize,
    pub outer: usize,
}

// The nodes that a flow goes from and to.
#[derive(Clone, Copy)]
pub struct Terminals {
    pub source: usize,
    pub sink: usize,
}

// A question: the value that a flow from source to sink is to have.
#[derive(Clone, Copy)]
pub struct Demand {
    pub source: usize,
    pub sink: usize,
    pub value: i32,
}

// An index of 16 bits at the width of an index.
pub fn wide(x: u16) -> usize
    ensures { result ≡ x }
{
    x as usize
}

// An index at 16 bits, where it fits them.
pub fn narrow(x: usize) -> u16
    requires { x < 65536 }
    ensures { result ≡ x }
{
    x as u16
}

// The other dart of d's edge: its last bit exchanged, which the compiler makes one instruction of.
pub fn reverse(d: usize) -> usize
    requires { d < 1024 }
    ensures { (result ≡ rev d) × (result < 1024) }
{
    2 * (d / 2) + (1 - d % 2)
}

// The face right of d: the face left of its reverse.
pub fn right(lefts: &[u16; 1024], d: usize) -> usize
    requires { d < 1024 }
    ensures { result ≡ right_of lefts.now d }
{
    let r = reverse(d);
    wide(lefts[r])
}

// Copies a slice into one of the same length. It is a loop, and not std's `copy_from_slice`, which compares the addresses of the two slices: for a machine with
// addresses of 32 bits, the proved module would have to be changed. That one, and the assignment of a lent array, would also have the library call `memmove`.
pub fn copy<T: Copy>(from: &[T], to: &mut [T])
    requires { length to.old ≡ length from.now }
    ensures { to.new ≡ from.now }
{
    for i in 0..to.len() {
        to[i] = from[i];
    }
}
