// Sets of nodes as flags: one node, a copy, union and intersection, the cut of a set, and on which side of a question it lies.
#![tactic(auto)]

ghost use Rattle.std.specs.Prelude.{◌≡◌, ◌&&◌, ◌||◌, ℕ, ◌<◌, eqb, length};
ghost use Rattle.maps.specs.Cut.{union, intersection};
ghost use Rattle.node_flags.specs.inner.Flags.{Sided};
ghost use Rattle.arrays.specs.inner.Flags.{flagged};

// On which side of a question a set of nodes lies: it holds the source only, the sink only, or both or neither.
#[derive(Clone, Copy, Debug, PartialEq, Eq)]
pub enum Side {
    Source,
    Sink,
    Beside,
}

// Flags the node v and no other.
pub fn flag_one(v: usize, inside: &mut [u8; 1024])
    requires { (length inside.old ≡ 1024) × (v < 1024) }
    ensures { (length inside.new ≡ 1024) × ((u : ℕ) → u < 1024 → flagged inside.new u ≡ eqb u v) }
{
    inside.fill(0);
    inside[v] = 1;
}

pub fn copy_flags(from: &[u8; 1024], to: &mut [u8; 1024])
    requires { length to.old ≡ 1024 }
    ensures { (length to.new ≡ 1024) × ((u : ℕ) → u < 1024 → flagged to.new u ≡ flagged from.now u) }
{
    arrays::copy(from, to);
}

// The flag of a node in the union, from its flags in the two sets.
fn either(x: u8, y: u8) -> u8
    ensures { eqb result 1 ≡ (eqb x 1 || eqb y 1) }
{
    if x == 1 { 1 } else { y }
}

// The flag of a node in the intersection, from its flags in the two sets.
fn both(x: u8, y: u8) -> u8
    ensures { eqb result 1 ≡ (eqb x 1 && eqb y 1) }
{
    if x == 1 { y } else { 0 }
}

// The nodes of either set into a, and those of both into b.
pub fn either_and_both(a: &mut [u8; 1024], b: &mut [u8; 1024])
    requires { (length a.old ≡ 1024) × (length b.old ≡ 1024) }
    ensures { (length a.new ≡ 1024) × (length b.new ≡ 1024)
        × ((u : ℕ) → u < 1024 → flagged a.new u ≡ union (flagged a.old) (flagged b.old) u)
        × ((u : ℕ) → u < 1024 → flagged b.new u ≡ intersection (flagged a.old) (flagged b.old) u) }
{
    for u in 0..1024usize {
        let x = a[u];
        let y = b[u];
        a[u] = either(x, y);
        b[u] = both(x, y);
    }
}

pub fn side_of(inside: &[u8; 1024], source: usize, sink: usize) -> Side
    requires { (source < 1024) × (sink < 1024) }
    ensures { Sided source sink (flagged inside.now) result }
{
    match (inside[source] == 1, inside[sink] == 1) {
        (true, false) => Side::Source,
        (false, true) => Side::Sink,
        _ => Side::Beside,
    }
}
