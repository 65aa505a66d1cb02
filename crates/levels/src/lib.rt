// Face potentials ("levels") both ways: the levels of given flows, laid along a walk over the darts, and the flows that given levels make.
#![tactic(auto)]

ghost use Rattle.std.specs.Prelude.{ℕ, ◌+◌, ◌*◌, ◌/◌, ◌<◌, ◌≤◌, length, ◌≡◌};
ghost use Rattle.levels.specs.inner.Across.{across, HasLevel, HaveLevels, OneOf};
ghost use Rattle.levels.specs.Level.{LevelOutside, level_checks};
ghost use Rattle.flows.specs.Check.{within_checks};
ghost use Rattle.flows.specs.Settings.{on_darts};
ghost use Rattle.levels.specs.inner.Laying.{Fillable, Levelled, LevelledFrom, Levelable};
ghost use Rattle.levels.specs.LevelsOf.{balanced_checks, LevelsGiven};
ghost use Rattle.levels.specs.SettingsOf.{leveled_checks, SettingsGiven};
ghost use Rattle.arrays.specs.At.{atℤ, at};
ghost use Rattle.arrays.specs.Maps.{map_of, drawing_of};
ghost use Rattle.arrays.specs.inner.Drawn.{Drawn};
ghost use Rattle.integers.specs.inner.Limited.{Limited};
ghost use Rattle.arrays.specs.inner.Sizes.{most_on_sheet};
ghost use Rattle.refusals.specs.Order.{Decides, Judged};
ghost use Rattle.arrays.specs.Filled.{filled};

use refusals::{Refusal, refused, refused_at};

// Whether a level is not from -600,000,000 to 600,000,000.
fn level_outside(x: i32) -> bool
    ensures { Decides (LevelOutside x) result }
{
    if x < -600000000 {
        return true;
    }
    if x > 600000000 {
        return true;
    }
    false
}

// Refusals 19 and 20: "19 a level beyond ±600,000,000, 20 face 0 not at 0"; of the faces at 0 there is one to a part (document 02, Job 8), and they stand in
// the first places of `roots`. All faces are looked at for 19 before these are for 20.
fn check_levels(levels: &[i32], roots: &[u16; 1024], count: usize) -> Result<(), Refusal>
    requires { (count ≤ 1024) × ((m : ℕ) → m < count → at roots.now m < length levels.now) }
    ensures { Judged (level_checks (length levels.now) (OneOf (at roots.now) count) (atℤ levels.now)) result }
{
    // A for over places: an iterator over the slice hands out addresses, and the module's text would have to be changed for machines of 32 bits.
    for f in 0..levels.len() {
        if level_outside(levels[f]) {
            return refused(19);
        }
    }
    // A for over places, as above.
    for m in 0..count {
        if levels[arrays::wide(roots[m])] != 0 {
            return refused(20);
        }
    }
    Ok(())
}

// The flow of edge e: the level left of its dart 2e less the level right of it. Levels of at most 600,000,000 differ by less than 2^31.
fn drop_across(levels: &[i32], lefts: &[u16; 1024], e: usize) -> i32
    requires { (e < 512) × HasLevel (at lefts.now) levels.now (2 * e) × HasLevel (at lefts.now) levels.now (2 * e + 1) }
    ensures { result ≡ across (at lefts.now) (atℤ levels.now) e }
{
    let left = arrays::wide(lefts[2 * e]);
    let right = arrays::wide(lefts[2 * e + 1]);
    signed::minus(levels[left], levels[right])
}

// Refusal 17 on the flows that the levels give: "a setting outside its channel's limits", at the lowest such edge.
// Both arrays are lent at one lifetime, being fields of one record.
fn check_differences<'a>(
    lefts: &'a [u16; 1024],
    capacities: &'a [i32; 1024],
    edges: usize,
    levels: &[i32],
) -> Result<(), Refusal>
    requires { (edges ≤ 512) × HaveLevels edges (at lefts.now) levels.now }
    ensures { Judged (within_checks edges (atℤ capacities.now) (across (at lefts.now) (atℤ levels.now))) result }
{
    for e in 0..edges {
        let x = drop_across(levels, lefts, e);
        if balance::exceeds(capacities[2 * e], capacities[2 * e + 1], x) {
            return refused_at(17, arrays::narrow(e));
        }
    }
    Ok(())
}

// The flows that the levels give, into a slice with one place for each edge.
fn fill_differences(lefts: &[u16; 1024], edges: usize, levels: &[i32], flows: &mut [i32])
    requires { (edges ≤ 512) × (length flows.old ≡ edges) × HaveLevels edges (at lefts.now) levels.now }
    ensures { flows.new ≡ filled edges (across (at lefts.now) (atℤ levels.now)) flows.old }
{
    for e in 0..edges {
        flows[e] = drop_across(levels, lefts, e);
    }
}

// The flow of a dart: that of its edge, or its negative for the dart that goes back.
fn dart_flow(flows: &[i32], d: usize) -> i32
    requires { (d / 2 < length flows.now) × Limited most_on_sheet (atℤ flows.now (d / 2)) }
    ensures { (result ≡ on_darts (atℤ flows.now) d) × Limited most_on_sheet result }
{
    if d % 2 == 0 {
        return flows[d / 2];
    }
    signed::minus(0, flows[d / 2])
}

// The level of each face that a dart below `darts` has at its left. The face of the first dart of each tree is at 0; the level across a dart is less by its
// flow.
fn fill_levels(
    lefts: &[u16; 1024],
    order: &[u16; 1024],
    from: &[u16; 1024],
    darts: usize,
    flows: &[i32],
    levels: &mut [i32],
)
    requires { Fillable darts (length levels.old) (at lefts.now) (at order.now) (at from.now) flows.now }
    ensures { Levelled darts (at lefts.now) (at order.now) (at from.now) (atℤ flows.now)
        levels.old levels.new }
{
    let start = arrays::wide(order[0]);
    let root = arrays::wide(lefts[start]);
    levels[root] = 0;
    for i in 1..darts {
        let d = arrays::wide(order[i]);
        let p = arrays::wide(from[d]);
        let across = arrays::wide(lefts[d]);
        if p == d {
            levels[across] = 0;
        } else {
            let known = arrays::wide(lefts[p]);
            let flow = dart_flow(flows, p);
            levels[across] = signed::minus(levels[known], flow);
        }
    }
}

// The levels of the faces straight into a slice that has room for them, the face of the outer dart at 0 and the lowest face of each other part. The order of
// the walk has its arrays here, so that they can lie where the caller's earlier arrays were.
fn write_levels<'a>(
    rotations: &'a [u16; 1024],
    lefts: &'a [u16; 1024],
    edges: usize,
    outer: usize,
    flows: &[i32],
    levels: &mut [i32],
)
    requires { Levelable edges outer (length levels.old) (at rotations.now) (at lefts.now) flows.now }
    ensures { LevelledFrom (2 * edges) (at rotations.now) (at lefts.now) outer (atℤ flows.now)
        levels.old levels.new }
{
    let mut order = [0u16; 1024];
    let mut from = [0u16; 1024];
    traversal::spread_all(rotations, 2 * edges, outer, &mut order, &mut from);
    fill_levels(lefts, &order, &from, 2 * edges, flows, levels);
}

// Levels from settings on a drawing that is open and sound. Nothing is written before the last check.
pub fn levels_of<'a>(
    tails: &'a [u16; 1024],
    rotations: &'a [u16; 1024],
    lefts: &'a [u16; 1024],
    capacities: &'a [i32; 1024],
    nodes: usize,
    edges: usize,
    faces: usize,
    outer: usize,
    flows: &[i32],
    levels: &mut [i32],
) -> Result<(), Refusal>
    requires { Drawn (map_of nodes edges tails.now rotations.now) (at lefts.now) faces outer (atℤ capacities.now)
        × ((d : ℕ) → d < 2 * edges → Limited most_on_sheet (atℤ capacities.now d)) }
    ensures { LevelsGiven (drawing_of nodes edges outer tails.now rotations.now capacities.now)
        (balanced_checks (drawing_of nodes edges outer tails.now rotations.now capacities.now)
        flows.now levels.old)
        flows.now levels.old levels.new result }
{
    if flows.len() < edges {
        return refused(16);
    }
    if levels.len() < faces {
        return refused(16);
    }
    let given = &flows[0..edges];
    balance::check_within(capacities, edges, given)?;
    balance::check_all_balanced(tails, nodes, edges, given)?;
    write_levels(rotations, lefts, edges, outer, given, &mut levels[0..faces]);
    Ok(())
}

// Settings from levels on a drawing that is open and sound. Flows are written only after every check. `tails` and `nodes` are named by the contract only.
pub fn settings_of<'a>(
    tails: &'a [u16; 1024],
    rotations: &'a [u16; 1024],
    lefts: &'a [u16; 1024],
    capacities: &'a [i32; 1024],
    nodes: usize,
    edges: usize,
    faces: usize,
    outer: usize,
    levels: &[i32],
    flows: &mut [i32],
) -> Result<(), Refusal>
    requires { Drawn (map_of nodes edges tails.now rotations.now) (at lefts.now) faces outer (atℤ capacities.now) }
    ensures { SettingsGiven (drawing_of nodes edges outer tails.now rotations.now capacities.now)
        (leveled_checks (drawing_of nodes edges outer tails.now rotations.now capacities.now)
        levels.now flows.old)
        levels.now flows.old flows.new result }
{
    if flows.len() < edges {
        return refused(16);
    }
    if levels.len() < faces {
        return refused(16);
    }
    let mut roots = [0u16; 1024];
    let count = traversal::roots_of(rotations, lefts, 2 * edges, outer, &mut roots);
    let given = &levels[0..faces];
    check_levels(given, &roots, count)?;
    check_differences(lefts, capacities, edges, given)?;
    fill_differences(lefts, edges, given, &mut flows[0..edges]);
    Ok(())
}
