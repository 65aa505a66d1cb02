// The winding of the ring of faces that parents lead round: one for each dart crossed, minus one for its reverse.
#![tactic(auto)]

ghost use Rattle.std.specs.Prelude.{◌≡◌, ℕ, ◌<◌, ◌≤◌, ◌%◌, length, pos, ◌+ℤ◌};
ghost use Rattle.integers.specs.inner.Limited.{Limited};
ghost use Rattle.maps.specs.Dart.{rev};
ghost use Rattle.flows.specs.inner.UnitFlow.{single};
ghost use Rattle.arrays.specs.Maps.{right_of};
ghost use Rattle.arrays.specs.At.{at, atℤ};
ghost use Rattle.windings.specs.inner.Winding.{Round, Wound};

// Crosses the dart p once: one more for p, one less for its reverse.
fn cross(p: usize, winding: &mut [i16; 1024])
    requires { (length winding.old ≡ 1024) × (p < 1024) × Limited 1024 (atℤ winding.old p) × Limited 1024 (atℤ winding.old (rev p)) }
    ensures { (length winding.new ≡ 1024) × ((d : ℕ) → atℤ winding.new d ≡ single p d +ℤ atℤ winding.old d) }
{
    let back = arrays::reverse(p);
    winding[p] += 1;
    winding[back] -= 1;
}

// Follows the parents from the face y round to y again. `winding` is all zeros before: no dart is crossed yet.
pub fn fill_winding(
    lefts: &[u16; 1024],
    parents: &[u16; 1024],
    darts: usize,
    y: usize,
    winding: &mut [i16; 1024],
)
    requires { (length winding.old ≡ 1024) × (darts ≤ 1024) × (darts % 2 ≡ 0)
        × Round (right_of lefts.now) (at parents.now) darts y × ((d : ℕ) → atℤ winding.old d ≡ pos 0) }
    ensures { (length winding.new ≡ 1024)
        × Wound (right_of lefts.now) (at parents.now) darts y (atℤ winding.new) }
{
    let mut x = y;
    // No for loop: it ends where the ring closes, and how many faces it passes is not known before.
    loop {
        let p = usize::from(parents[x]);
        cross(p, winding);
        x = arrays::right(lefts, p);
        if x == y {
            break;
        }
    }
}
