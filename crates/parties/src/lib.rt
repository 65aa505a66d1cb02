// Sessions that two parties share (document 02, Jobs 11 and 12): Start, Ask, Commit and Clear, and that a party's answers follow from what it sees. A session
// lies in memory that the caller owns: counts, outer dart, the arrays of the drawing, the sheet's limits and those left, a byte for each party that says where
// it stands, and an offer for each. Every call takes any value as one.
#![tactic(auto)]

ghost use Rattle.std.specs.Prelude.{◌≡◌, cond, ℕ, ◌<◌, ◌≤◌, eqb, length};
ghost use Rattle.arrays.specs.At.{at, atℤ};
ghost use Rattle.arrays.specs.Filled.{filled};
ghost use Rattle.parties.specs.Shared.{committed, staled, offers_of, shared_of, cleared};
ghost use Rattle.parties.specs.Start.{emptied, Starts};
ghost use Rattle.parties.specs.Calls.{Asks, Commits};
ghost use Rattle.parties.specs.inner.Taken.{Taken};

use arrays::wide;
use questions::Solution;
use refusals::{Refusal, refused};

// Where a party stands: it has no offer, an offer, an offer that another's commit made stale, or it has committed. Numbers, not an enum: C's `struct session`
// holds a byte for each party, and a byte of any other value is as no offer (specs/Shared.antt).
const IDLE: u8 = 0;

const OFFERED: u8 = 1;

const STALE: u8 = 2;

const COMMITTED: u8 = 3;

// Zeros everywhere: no nodes, no edges, no offer, and nothing of what was there.
fn erase(
    nodes: &mut u16,
    edges: &mut u16,
    outer: &mut u16,
    tails: &mut [u16; 1024],
    rotations: &mut [u16; 1024],
    limits: &mut [i32; 1024],
    left: &mut [i32; 1024],
    standing: &mut [u8; 2],
    first: &mut [i32; 512],
    second: &mut [i32; 512],
)
    ensures { shared_of nodes.new edges.new outer.new tails.new rotations.new limits.new
        left.new standing.new first.new second.new ≡ emptied }
{
    *nodes = 0;
    *edges = 0;
    *outer = 0;
    *tails = [0u16; 1024];
    *rotations = [0u16; 1024];
    *limits = [0i32; 1024];
    *left = [0i32; 1024];
    *standing = [IDLE; 2];
    *first = [0i32; 512];
    *second = [0i32; 512];
}

// Start: the sheet's drawing, its limits, all of them left, and no offer; where the sheet is refused, a session of no nodes and no edges, with no offer. Every
// place of the session is written: nothing is left of what the memory held.
pub fn start(
    sheet: &[u8],
    nodes: &mut u16,
    edges: &mut u16,
    outer: &mut u16,
    tails: &mut [u16; 1024],
    rotations: &mut [u16; 1024],
    limits: &mut [i32; 1024],
    left: &mut [i32; 1024],
    standing: &mut [u8; 2],
    first: &mut [i32; 512],
    second: &mut [i32; 512],
) -> Result<(), Refusal>
    ensures { Starts sheet.now
        (shared_of nodes.new edges.new outer.new tails.new rotations.new limits.new
        left.new standing.new first.new second.new) result }
{
    let mut order = [0u16; 1024];
    let mut from = [0u16; 1024];
    let mut grouped = [0u16; 1024];
    let mut starts = [0u16; 1024];
    let net = sheets::open_walked(sheet, &mut order, &mut from, &mut grouped, &mut starts);
    erase(
        nodes, edges, outer, tails, rotations, limits, left, standing, first, second,
    );
    let sizes = net.opened?;
    *nodes = arrays::narrow(sizes.nodes);
    *edges = arrays::narrow(sizes.edges);
    *outer = arrays::narrow(sizes.outer);
    arrays::copy(&net.tails, tails);
    arrays::copy(&net.rotations, rotations);
    arrays::copy(&net.capacities, limits);
    arrays::copy(&net.capacities, left);
    Ok(())
}

// Where a party stands from now on.
fn stand(standing: &mut [u8], party: usize, place: u8)
    requires { party < length standing.old }
    ensures { at standing.new ≡ (λ q. cond (eqb q party) place (at standing.old q)) }
{
    standing[party] = place;
}

// The first elements of a slice of flows, into the offer of a party.
fn keep_offer(party: usize, flows: &[i32], edges: usize, first: &mut [i32], second: &mut [i32])
    requires { (party < 2) × (edges ≤ length flows.now) × (edges ≤ length first.old) × (edges ≤ length second.old) }
    ensures { offers_of first.new second.new
        ≡ (λ q. cond (eqb q party) (filled edges (atℤ flows.now) (offers_of first.old second.old party))
        (offers_of first.old second.old q)) }
{
    if party == 0 {
        sessions::keep(flows, edges, first);
    } else {
        sessions::keep(flows, edges, second);
    }
}

// The sizes of a session's drawing, as the session holds them: its nodes and edges, and a dart on its outer face.
#[derive(Clone, Copy)]
pub struct SessionSizes {
    pub nodes: u16,
    pub edges: u16,
    pub outer: u16,
}

// Ask: Solve's answer on the limits left, to a party that has not committed. "Can" is kept as its offer; "cannot" clears that; a refusal changes nothing. The
// sheet's limits are named by the contract only.
pub fn ask<'a>(
    party: u16,
    sizes: SessionSizes,
    tails: &'a [u16; 1024],
    rotations: &'a [u16; 1024],
    limits: &[i32; 1024],
    left: &'a [i32; 1024],
    standing: &mut [u8; 2],
    first: &mut [i32; 512],
    second: &mut [i32; 512],
    source: u16,
    sink: u16,
    value: i32,
    flows: &mut [i32],
    set: &mut [u64],
) -> Result<Solution, Refusal>
    ensures { Asks
        (shared_of sizes.nodes sizes.edges sizes.outer tails.now rotations.now limits.now left.now
        standing.old first.old second.old)
        party source sink value flows.old flows.new set.old set.new
        (shared_of sizes.nodes sizes.edges sizes.outer tails.now rotations.now limits.now left.now
        standing.new first.new second.new) result }
{
    if party >= 2 {
        return refused(29);
    }
    let p = wide(party);
    let stands = standing[p];
    if stands == COMMITTED {
        return refused(30);
    }
    let solution = sessions::answer_left(
        sizes.nodes,
        sizes.edges,
        sizes.outer,
        tails,
        rotations,
        left,
        source,
        sink,
        value,
        flows,
        set,
    )?;
    match solution {
        Solution::Can => {
            keep_offer(p, &*flows, wide(sizes.edges), first, second);
            stand(standing, p, OFFERED);
        }
        Solution::Cannot(_) => {
            stand(standing, p, IDLE);
        }
    }
    Ok(solution)
}

// Lowers the limits left by the offer, where they can be: answers whether.
fn take(edges: u16, left: &mut [i32; 1024], offer: &[i32; 512]) -> bool
    ensures { Taken edges left.old offer.now left.new result }
{
    let m = wide(edges);
    let lowerable = sessions::lowerable(&*left, offer, m);
    if lowerable {
        sessions::lower(left, offer, m);
    }
    lowerable
}

// The same by a party's offer: the first array is party 0's.
fn take_of(
    party: u16,
    edges: u16,
    left: &mut [i32; 1024],
    first: &[i32; 512],
    second: &[i32; 512],
) -> bool
    ensures { Taken edges left.old (cond (eqb party 0) first.now second.now) left.new result }
{
    if party == 0 {
        return take(edges, left, first);
    }
    take(edges, left, second)
}

// Where a party stands after another's commit: an offer is stale then, all else is as it was.
fn staled_by(stands: u8) -> u8
    ensures { result ≡ staled stands }
{
    if stands == OFFERED { STALE } else { stands }
}

// Where both stand after a party's commit.
fn stand_committed(party: u16, standing: &mut [u8])
    requires { (party < 2) × (length standing.old ≡ 2) }
    ensures { (length standing.new ≡ 2)
        × ((q : ℕ) → at standing.new q ≡ cond (eqb q party) committed (staled (at standing.old q))) }
{
    if party == 0 {
        standing[0] = COMMITTED;
        standing[1] = staled_by(standing[1]);
    } else {
        standing[0] = staled_by(standing[0]);
        standing[1] = COMMITTED;
    }
}

// Commit: takes the party's offer and lowers the limits left by it; the other's offer is stale from then on. The count of nodes, the outer dart, the arrays of
// the drawing and the sheet's limits are named by the contract only.
pub fn commit<'a>(
    party: u16,
    nodes: u16,
    edges: u16,
    outer: u16,
    tails: &'a [u16; 1024],
    rotations: &'a [u16; 1024],
    limits: &[i32; 1024],
    left: &mut [i32; 1024],
    standing: &mut [u8; 2],
    first: &[i32; 512],
    second: &[i32; 512],
) -> Result<(), Refusal>
    ensures { Commits
        (shared_of nodes edges outer tails.now rotations.now limits.now left.old
        standing.old first.now second.now)
        party
        (shared_of nodes edges outer tails.now rotations.now limits.now left.new
        standing.new first.now second.now) result }
{
    if party >= 2 {
        return refused(29);
    }
    let stands = standing[wide(party)];
    if stands == COMMITTED {
        return refused(30);
    }
    if stands == STALE {
        return refused(31);
    }
    if stands != OFFERED {
        return refused(28);
    }
    if !take_of(party, edges, left, first, second) {
        return refused(31);
    }
    stand_committed(party, standing);
    Ok(())
}

// Clear: the sheet's limits are left again, and neither party has an offer or has committed. Never refused. The counts, the outer dart, the arrays of the
// drawing and those of the offers are named by the contract only.
pub fn clear<'a>(
    nodes: u16,
    edges: u16,
    outer: u16,
    tails: &'a [u16; 1024],
    rotations: &'a [u16; 1024],
    limits: &[i32; 1024],
    left: &mut [i32; 1024],
    standing: &mut [u8; 2],
    first: &[i32; 512],
    second: &[i32; 512],
)
    ensures { shared_of nodes edges outer tails.now rotations.now limits.now left.new
        standing.new first.now second.now
        ≡ cleared (shared_of nodes edges outer tails.now rotations.now limits.now left.old
        standing.old first.now second.now) }
{
    arrays::copy(limits, left);
    *standing = [IDLE; 2];
}
