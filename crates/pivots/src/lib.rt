// A proposal for Largest: a set of nodes around the source whose cut may well be the least. It begins with flows of some value and with the parents that the
// search left, which are a tree of the faces; the edges that they do not cross are a tree of the nodes. The value is raised along that tree as far as it goes,
// and where a dart is full the two trees exchange an edge, until the full darts are a cut.
//
// Nothing is promised of the set but that it is found: who takes it adds up its cut. So numbers are read within their range by remainders, every walk counts
// its steps, and sums wrap: no step rests on what an array holds.
#![tactic(auto)]

ghost use Rattle.std.specs.Prelude.{◌≡◌, ℕ, ◌<◌, ◌≤◌, length, IfSome};

// The mark of a node from which a dart leads on. It is a number and no Option, as the array of the counts holds it.
const UNMARKED: u16 = u16::MAX;

// As many pivots as are made: more have not been seen to help.
const PIVOTS: usize = 1024;

// A dart, a node or a face by its number.
fn place(x: u16) -> usize
    ensures { result < 1024 }
{
    usize::from(x) % 1024
}

fn number(x: usize) -> u16
    requires { x < 1024 }
    ensures { result ≡ x }
{
    x as u16
}

// The node that the dart d leads to.
fn head(tails: &[u16; 1024], d: usize) -> usize
    requires { d < 1024 }
    ensures { result < 1024 }
{
    let back = arrays::reverse(d);
    place(tails[back])
}

// What more each dart can carry beside the flows.
fn fill_slacks(capacities: &[i32; 1024], edges: usize, flows: &[i32], slacks: &mut [u32; 1024])
    requires { (edges ≤ 512) × (edges ≤ length flows.now) }
{
    for e in 0..edges {
        let flow = flows[e].cast_unsigned();
        slacks[2 * e] = capacities[2 * e].cast_unsigned().wrapping_sub(flow);
        slacks[2 * e + 1] = capacities[2 * e + 1].cast_unsigned().wrapping_add(flow);
    }
}

// Marks the edges that the tree of the faces crosses. A face without a parent has the mark 1,024, whose half is no edge.
fn mark_crossed(parents: &[u16; 1024], faces: usize, crossed: &mut [u8; 1024]) {
    // A for over places: an iterator over the array hands out addresses, and the module's text would have to be changed for machines of 32 bits.
    for f in 0..faces {
        crossed[place(parents[f % 1024] / 2)] = 1;
    }
}

// Lays the dart d at its node: how many lie there, and all of them by exclusive or.
fn lay(tails: &[u16; 1024], d: usize, to: &mut [u16; 1024], counts: &mut [u16; 1024])
    requires { d < 1024 }
{
    let v = place(tails[d]);
    to[v] = to[v] ^ number(d);
    counts[v] = counts[v].wrapping_add(1);
}

// Lays both darts of each edge that is not crossed.
fn lay_all(
    tails: &[u16; 1024],
    crossed: &[u8; 1024],
    edges: usize,
    to: &mut [u16; 1024],
    counts: &mut [u16; 1024],
)
    requires { edges ≤ 512 }
{
    for e in 0..edges {
        if crossed[e] == 0 {
            lay(tails, 2 * e, &mut *to, &mut *counts);
            lay(tails, 2 * e + 1, &mut *to, &mut *counts);
        }
    }
}

// The node w, which has one dart left, goes on by it. That dart's reverse is taken from the next node, which is the answer.
fn go_on(tails: &[u16; 1024], w: usize, to: &mut [u16; 1024], counts: &mut [u16; 1024]) -> usize
    requires { w < 1024 }
    ensures { result < 1024 }
{
    counts[w] = UNMARKED;
    let back = arrays::reverse(place(to[w]));
    let v = place(tails[back]);
    to[v] = to[v] ^ number(back);
    counts[v] = counts[v].wrapping_sub(1);
    v
}

// The first node on the way from v at which it stops, if it comes to one.
fn first_on_way<F: Fn(usize) -> bool>(
    tails: &[u16; 1024],
    to: &[u16; 1024],
    v: usize,
    stops: F,
) -> Option<usize>
    requires node { v < 1024 }
    requires at_nodes { (w : ℕ) → w < 1024 → F.pre stops w }
    ensures { IfSome result (λ w. w < 1024) }
{
    let mut w = v;
    for _ in 0..1024usize {
        if stops(w) {
            return Some(w);
        }
        w = head(tails, place(to[w]));
    }
    None
}

// Strips the node v, if it has one dart left, then the next node, if that has one left now, and so on.
fn strip(tails: &[u16; 1024], v: usize, to: &mut [u16; 1024], counts: &mut [u16; 1024])
    requires { v < 1024 }
{
    let mut w = v;
    for _ in 0..1024usize {
        if counts[w] != 1 {
            return;
        }
        w = go_on(tails, w, &mut *to, &mut *counts);
    }
}

// Whether the way from v goes on from node to node up to the sink.
fn leads(tails: &[u16; 1024], to: &[u16; 1024], counts: &[u16; 1024], v: usize, sink: usize) -> bool
    requires { v < 1024 }
{
    first_on_way(tails, to, v, |w| w == sink || counts[w] != UNMARKED) == Some(sink)
}

// The tree of the nodes, which are stripped off it leaf by leaf: from each that it has a dart leads on towards the sink. Answers whether it has the source.
fn grow(
    tails: &[u16; 1024],
    parents: &[u16; 1024],
    nodes: usize,
    edges: usize,
    faces: usize,
    source: usize,
    sink: usize,
    to: &mut [u16; 1024],
) -> bool
    requires { (nodes ≤ 1024) × (edges ≤ 512) × (source < 1024) × (sink < 1024) }
{
    let mut crossed = [0u8; 1024];
    mark_crossed(parents, faces, &mut crossed);
    let mut counts = [0u16; 1024];
    counts[sink] = 2;
    lay_all(tails, &crossed, edges, &mut *to, &mut counts);
    for v in 0..nodes {
        strip(tails, v, &mut *to, &mut counts);
    }
    leads(tails, &*to, &counts, source, sink)
}

// Of two darts the one of the less slack.
fn tighter(slacks: &[u32; 1024], d: usize, e: usize) -> usize
    requires { (d < 1024) × (e < 1024) }
    ensures { result < 1024 }
{
    if slacks[d] < slacks[e] { d } else { e }
}

// The dart of the least slack on the way from the source to the sink.
fn tightest(
    tails: &[u16; 1024],
    to: &[u16; 1024],
    slacks: &[u32; 1024],
    source: usize,
    sink: usize,
) -> usize
    requires { source < 1024 }
    ensures { result < 1024 }
{
    let mut v = source;
    let mut best = place(to[source]);
    for _ in 0..1024usize {
        if v == sink {
            break;
        }
        let d = place(to[v]);
        best = tighter(slacks, d, best);
        v = head(tails, d);
    }
    best
}

// Carries so much more along the way from the source to the sink.
fn carry(
    tails: &[u16; 1024],
    to: &[u16; 1024],
    source: usize,
    sink: usize,
    by: u32,
    slacks: &mut [u32; 1024],
)
    requires { source < 1024 }
{
    let mut v = source;
    for _ in 0..1024usize {
        if v == sink {
            return;
        }
        let d = place(to[v]);
        let back = arrays::reverse(d);
        slacks[d] = slacks[d].wrapping_sub(by);
        slacks[back] = slacks[back].wrapping_add(by);
        v = place(tails[back]);
    }
}

// Whether the way from v to the sink passes u.
fn passes(tails: &[u16; 1024], to: &[u16; 1024], sink: usize, u: usize, v: usize) -> bool
    requires { v < 1024 }
{
    first_on_way(tails, to, v, |w| w == u || w == sink) == Some(u)
}

// From v to x the way is turned round: v goes on by the dart `by`, and each node of the way by the reverse of the dart that led to it.
fn turn_round(tails: &[u16; 1024], v: usize, by: usize, x: usize, to: &mut [u16; 1024])
    requires { (v < 1024) × (by < 1024) }
{
    let mut w = v;
    let mut d = by;
    for _ in 0..1024usize {
        let next = place(to[w]);
        to[w] = number(d);
        if w == x {
            return;
        }
        d = arrays::reverse(next);
        w = place(tails[d]);
    }
}

// One pivot on the dart d, which is full: the face left of it now hangs from it, and the edge from which that hung takes the dart's place in the tree of the
// nodes. Answers whether there is such an edge; where there is none, the nodes whose way passes the node where d begins are the set.
fn pivot(
    tails: &[u16; 1024],
    lefts: &[u16; 1024],
    sink: usize,
    d: usize,
    to: &mut [u16; 1024],
    parents: &mut [u16; 1024],
) -> bool
    requires { d < 1024 }
{
    let x = place(tails[d]);
    let f = place(lefts[d]);
    // 1,024 is no parent: a number and no Option, as the search leaves it so in its array.
    let old = usize::from(parents[f]);
    if 1024 <= old {
        return false;
    }
    let p = place(tails[old]);
    let back = arrays::reverse(old);
    let q = place(tails[back]);
    let beyond = passes(tails, &*to, sink, x, p);
    if beyond == passes(tails, &*to, sink, x, q) {
        return false;
    }
    parents[f] = number(d);
    if beyond {
        turn_round(tails, p, old, x, to);
        return true;
    }
    turn_round(tails, q, back, x, to);
    true
}

// The flag of the first node on the way from v that has one.
fn flag_ahead(tails: &[u16; 1024], to: &[u16; 1024], inside: &[u8; 1024], v: usize) -> u8
    requires { v < 1024 }
{
    first_on_way(tails, to, v, |w| inside[w] != 2).map_or(0, |w| inside[w])
}

// Gives this flag to each node on the way from v up to the first that has one.
fn flag_way(tails: &[u16; 1024], to: &[u16; 1024], v: usize, flag: u8, inside: &mut [u8; 1024])
    requires { v < 1024 }
{
    let mut w = v;
    for _ in 0..1024usize {
        if inside[w] != 2 {
            return;
        }
        inside[w] = flag;
        w = head(tails, place(to[w]));
    }
}

// Flags the nodes whose way to the sink passes x.
fn flag_beyond(
    tails: &[u16; 1024],
    to: &[u16; 1024],
    nodes: usize,
    sink: usize,
    x: usize,
    inside: &mut [u8; 1024],
)
    requires { (nodes ≤ 1024) × (sink < 1024) × (x < 1024) }
{
    // 2 is no flag yet: a number and no Option, as the array is the one that is lent to `propose`.
    inside.fill(2);
    inside[sink] = 0;
    inside[x] = 1;
    for v in 0..nodes {
        if inside[v] == 2 {
            let flag = flag_ahead(tails, to, &*inside, v);
            flag_way(tails, to, v, flag, &mut *inside);
        }
    }
}

// Raises the value by pivots until the full darts are a cut. Answers the node where the last full dart begins.
fn raise(
    tails: &[u16; 1024],
    lefts: &[u16; 1024],
    source: usize,
    sink: usize,
    to: &mut [u16; 1024],
    parents: &mut [u16; 1024],
    slacks: &mut [u32; 1024],
) -> usize
    requires { source < 1024 }
    ensures { result < 1024 }
{
    let mut d = tightest(tails, &*to, &*slacks, source, sink);
    for _ in 0..PIVOTS {
        let by = slacks[d];
        carry(tails, &*to, source, sink, by, &mut *slacks);
        if !pivot(tails, lefts, sink, d, &mut *to, &mut *parents) {
            break;
        }
        d = tightest(tails, &*to, &*slacks, source, sink);
    }
    place(tails[d])
}

// Flags the nodes of a set, from flows that carry some value, and the parents that the search left beside them. Where the tree of the nodes does not reach the
// source, that is left out of the set. The parents are changed.
pub fn propose(
    tails: &[u16; 1024],
    lefts: &[u16; 1024],
    capacities: &[i32; 1024],
    nodes: usize,
    edges: usize,
    faces: usize,
    source: usize,
    sink: usize,
    flows: &[i32],
    parents: &mut [u16; 1024],
    inside: &mut [u8; 1024],
)
    requires { (length parents.old ≡ 1024) × (length inside.old ≡ 1024) × (nodes ≤ 1024) × (edges ≤ 512) × (edges ≤ length flows.now)
        × (source < 1024) × (sink < 1024) }
    ensures { (length parents.new ≡ 1024) × (length inside.new ≡ 1024) }
{
    let mut to = [0u16; 1024];
    inside[source] = 0;
    if !grow(tails, &*parents, nodes, edges, faces, source, sink, &mut to) {
        return;
    }
    let mut slacks = [0u32; 1024];
    fill_slacks(capacities, edges, flows, &mut slacks);
    let x = raise(
        tails,
        lefts,
        source,
        sink,
        &mut to,
        &mut *parents,
        &mut slacks,
    );
    flag_beyond(tails, &to, nodes, sink, x, inside);
}

// The nodes of a set that spreads, and those next ahead of it, as they were found: of each a dart at it. There is room for 512: 512 edges join no more than 513
// nodes, of which the sink is not listed.
#[derive(Drop)]
struct List {
    darts: [u16; 512],
    end: usize,
}

impl List {
    fn push(&mut self, d: usize)
        requires { d < 1024 }
    {
        self.darts[self.end % 512] = number(d);
        self.end = self.end.wrapping_add(1);
    }

    fn at(&self, i: usize) -> usize
        ensures { result < 1024 }
    {
        place(self.darts[i % 512])
    }
}

// Lists the node v, which the dart d is at, unless it is listed.
fn list_ahead(d: usize, v: usize, inside: &mut [u8; 1024], list: &mut List)
    requires { (d < 1024) × (v < 1024) }
{
    if inside[v] == 0 {
        inside[v] = 2;
        list.push(d);
    }
}

// One dart d at the node v that joins the set: what it can carry to a node outside is added to the cut, what comes from a node inside no longer leaves.
fn cross(
    tails: &[u16; 1024],
    capacities: &[i32; 1024],
    v: usize,
    d: usize,
    inside: &mut [u8; 1024],
    list: &mut List,
    cut: u32,
) -> u32
    requires { d < 1024 }
{
    let back = arrays::reverse(d);
    let u = place(tails[back]);
    if inside[u] != 1 {
        list_ahead(back, u, inside, list);
        return cut.wrapping_add(capacities[d].cast_unsigned());
    }
    if u == v {
        return cut;
    }
    cut.wrapping_sub(capacities[back].cast_unsigned())
}

// Takes the node of the dart `start` into the set, dart by dart round it, and answers the cut of the set then.
fn take_node(
    tails: &[u16; 1024],
    rotations: &[u16; 1024],
    capacities: &[i32; 1024],
    start: usize,
    inside: &mut [u8; 1024],
    list: &mut List,
    cut: u32,
) -> u32
    requires { start < 1024 }
{
    let v = place(tails[start]);
    inside[v] = 1;
    let mut d = start;
    let mut wider = cut;
    // Counted down: a dart takes one instruction less so.
    for _ in (0..1024usize).rev() {
        wider = cross(tails, capacities, v, d, &mut *inside, &mut *list, wider);
        d = place(rotations[d]);
        if d == start {
            return wider;
        }
    }
    wider
}

// Gives this flag to the nodes that are listed at these places.
fn flag_listed(
    tails: &[u16; 1024],
    list: &List,
    from: usize,
    end: usize,
    flag: u8,
    inside: &mut [u8; 1024],
) {
    for i in from..end {
        inside[place(tails[list.at(i)])] = flag;
    }
}

// Leaves the flags of the first listed nodes alone, up to this size: by flagging them anew where they are few, else by taking the others' flags away.
fn keep_first(tails: &[u16; 1024], list: &List, size: usize, inside: &mut [u8; 1024]) {
    if size < list.end / 2 {
        inside.fill(0);
        flag_listed(tails, list, 0, size, 1, inside);
        return;
    }
    flag_listed(tails, list, size, list.end, 0, inside);
}

// Spreads a set from the nodes that are listed, node by node: dart by dart round each, then to the next. Answers how many are in the set of the least cut. A
// cut is shifted by 2^31, so that a negative one is less.
fn spread_all(
    tails: &[u16; 1024],
    rotations: &[u16; 1024],
    capacities: &[i32; 1024],
    inside: &mut [u8; 1024],
    list: &mut List,
) -> usize {
    let mut cut = 1 << 31;
    let mut least = u32::MAX;
    let mut size = 0;
    for next in 0..512usize {
        if list.end <= next {
            break;
        }
        let start = list.at(next);
        cut = take_node(
            tails,
            rotations,
            capacities,
            start,
            &mut *inside,
            &mut *list,
            cut,
        );
        if cut < least {
            least = cut;
            size = next + 1;
        }
    }
    size
}

// Whether two nodes at least are next ahead of the first listed nodes, up to this size, which have flags: whether the second listed behind them was listed by
// one of them.
fn has_two_ahead(tails: &[u16; 1024], list: &List, size: usize, inside: &[u8; 1024]) -> bool {
    let second = size.wrapping_add(1);
    second < list.end && inside[head(tails, list.at(second))] == 1
}

// Flags the nodes of the least cut among the sets that spread from the source, nearest nodes first, up to all but the sink; `start` is a dart at the source.
// Answers whether it is likely that no cut is less: the set is the source alone, or at most one node is next ahead of it.
pub fn spread(
    tails: &[u16; 1024],
    rotations: &[u16; 1024],
    capacities: &[i32; 1024],
    sink: usize,
    start: usize,
    inside: &mut [u8; 1024],
) -> bool
    requires { (length inside.old ≡ 1024) × (sink < 1024) × (start < 1024) }
    ensures { length inside.new ≡ 1024 }
{
    inside.fill(0);
    inside[sink] = 2;
    let mut list = List {
        darts: [0u16; 512],
        end: 0,
    };
    list.push(start);
    let size = spread_all(tails, rotations, capacities, &mut *inside, &mut list);
    keep_first(tails, &list, size, &mut *inside);
    inside[sink] = 0;
    size < 2 || !has_two_ahead(tails, &list, size, &*inside)
}
