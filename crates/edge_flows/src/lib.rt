// The flows of the edges that settled potentials give, written into the first places of a slice.
#![tactic(auto)]

ghost use Rattle.std.specs.Prelude.{◌≡◌, ◌<◌, ◌≤◌, ◌*◌, length, ◌-ℤ◌};
ghost use Rattle.std.specs.Int.{w64};
ghost use Rattle.std.proofs.Common.{SFits};
ghost use Rattle.maps.specs.Dart.{rev};
ghost use Rattle.arrays.specs.At.{at, atℤ};
ghost use Rattle.arrays.specs.Filled.{filled};
ghost use Rattle.edge_flows.specs.inner.Flow.{flow_of, Flowing};

// The drop of the potential over dart 2e, from its left face to its right one.
fn drop_over(lefts: &[u16; 1024], potentials: &[i64; 1024], e: usize) -> i64
    requires { (e < 512) × (at lefts.now (2 * e) < 1024) × (at lefts.now (rev (2 * e)) < 1024)
        × SFits w64 (atℤ potentials.now (at lefts.now (2 * e)) -ℤ atℤ potentials.now (at lefts.now (rev (2 * e)))) }
    ensures { result
        ≡ atℤ potentials.now (at lefts.now (2 * e)) -ℤ atℤ potentials.now (at lefts.now (rev (2 * e))) }
{
    let left = usize::from(lefts[2 * e]);
    let right = usize::from(lefts[2 * e + 1]);
    potentials[left] - potentials[right]
}

// The flow of edge e.
fn flow_of(
    lefts: &[u16; 1024],
    capacities: &[i32; 1024],
    lengths: &[i32; 1024],
    potentials: &[i64; 1024],
    edges: usize,
    e: usize,
) -> i32
    requires { (edges ≤ 512) × (e < edges) × Flowing edges (at lefts.now) (atℤ capacities.now) (atℤ lengths.now) (atℤ potentials.now) }
    ensures { result ≡ flow_of (at lefts.now) (atℤ capacities.now) (atℤ lengths.now) (atℤ potentials.now) e }
{
    let fall = drop_over(lefts, potentials, e);
    let along = i64::from(capacities[2 * e]) - i64::from(lengths[2 * e]);
    (fall + along) as i32
}

// The flows of the edges; the rest of the slice stays as it was.
pub fn fill_flows(
    lefts: &[u16; 1024],
    capacities: &[i32; 1024],
    lengths: &[i32; 1024],
    potentials: &[i64; 1024],
    edges: usize,
    flows: &mut [i32],
)
    requires { (edges ≤ 512) × (edges ≤ length flows.old)
        × Flowing edges (at lefts.now) (atℤ capacities.now) (atℤ lengths.now) (atℤ potentials.now) }
    ensures { flows.new
        ≡ filled edges (flow_of (at lefts.now) (atℤ capacities.now) (atℤ lengths.now) (atℤ potentials.now))
        flows.old }
{
    for e in 0..edges {
        flows[e] = flow_of(lefts, capacities, lengths, potentials, edges, e);
    }
}
