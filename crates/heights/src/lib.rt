// Heights of the nodes, in one pass along the order in which a walk over the darts met them: a dart was met as the reverse of one whose node's height is known,
// one difference away, or at the node of one met before, or begins a tree.
#![tactic(auto)]

ghost use Rattle.std.specs.Prelude.{◌≡◌, length};
ghost use Rattle.heights.specs.inner.Heights.{Fillable, Filled, Rooted};
ghost use Rattle.arrays.specs.At.{at, atℤ};

// The node of the first dart of each tree is at 0; the node at the end of a dart is lower by the dart's winding.
pub fn fill_heights(
    tails: &[u16; 1024],
    order: &[u16; 1024],
    from: &[u16; 1024],
    darts: usize,
    winding: &[i16; 1024],
    heights: &mut [i32; 1024],
)
    requires { (length heights.old ≡ 1024) × Fillable darts (at tails.now) (at order.now) (at from.now) (atℤ winding.now) }
    ensures { (length heights.new ≡ 1024)
        × Filled darts (at tails.now) (atℤ winding.now) (atℤ heights.new)
        × Rooted darts (at tails.now) (at order.now) (at from.now)
        (atℤ winding.now) (atℤ heights.new) }
{
    let start = usize::from(order[0]);
    let root = usize::from(tails[start]);
    heights[root] = 0;
    for i in 1..darts {
        let d = usize::from(order[i]);
        let p = usize::from(from[d]);
        let back = arrays::reverse(p);
        if d == back {
            let known = usize::from(tails[p]);
            let next = usize::from(tails[d]);
            heights[next] = heights[known] - i32::from(winding[p]);
        } else if p == d {
            let base = usize::from(tails[d]);
            heights[base] = 0;
        }
    }
}
