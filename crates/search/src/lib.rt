// The face search (Bellman and Ford's shortest paths, with a queue of the faces whose potential fell): settled potentials, or a ring of faces whose lengths add
// to less than zero.
//
// A face whose potential fell waits in a queue until it is looked at. Its look crosses the darts right of which it lies, and each left face that falls comes to
// wait, unless it does already: first come, first looked at. Each face has a parent, the dart over which it last fell. After each 3/2 as many looks as there
// are faces the levels are straightened: every face falls to the length of its own walk of parents, so that a fall near a root reaches all faces below it at
// once. Where the parents lead round, they are the ring. The first levels are laid by the same pass, along parents that may be proposed: a tree of an earlier
// search costs one look at each face where it is still right, and else the search corrects it.
//
// It takes at most as many rounds of the queue as there are faces, each linear in darts and faces, which no theorem here says: that it ends is proved.
// Moore 1959 (the queue); Cherkassky and Goldberg 1999 (parents that lead round, levels that are updated along them).
#![tactic(auto)]

ghost use Rattle.std.specs.Prelude.{◌≡◌, true, false, List, ℕ, ◌+◌, ◌<◌, ◌≤◌, length, take};
ghost use Rattle.std.specs.Int.Signed.{mag};
ghost use Rattle.grouping.specs.Grouped.{end_of, Grouped};
ghost use Rattle.arrays.specs.At.{at, atℤ};
ghost use Rattle.arrays.specs.Maps.{right_of};
ghost use Rattle.search.specs.Dual.{dual_of, WellFormed, Joined};
ghost use Rattle.search.specs.Parents.{up};
ghost use Rattle.search.specs.inner.Answer.{Answer};
ghost use Rattle.search.specs.Queue.{Pushed};
ghost use Rattle.search.specs.Moves.{sensible, taken_from, Begun, Relaxed};
ghost use Rattle.search.specs.Given.{given};
ghost use Rattle.search.specs.Configuration.{tables_of};
ghost use Rattle.search.specs.Look.{LookAt};
ghost use Rattle.search.specs.Straightening.{unmarked, Follows, Descends, Straightens};
ghost use Rattle.search.specs.Trace.{first_looks, Searches};
ghost use Rattle.search.specs.inner.Progress.{Looking, Lowering, Straightening};
ghost use Rattle.search.specs.inner.Ascending.{Matched, Ascended, Unlinked};
ghost use Rattle.search.specs.inner.Taking.{Taking};
ghost use Rattle.search.specs.Level.{far};

// What stands in the place of a level where a face has none yet: an Option would double the array, and memory is fixed.
const FAR: i64 = 2000000000000000;

// The link of a face that has followed its parent in this straightening.
const DONE: u16 = 1025;

// A ring of parents: the dart that closes it.
#[derive(Clone, Copy, Debug, PartialEq, Eq)]
pub struct Ring {
    pub dart: usize,
}

// How many faces an ascent went through, the last of them, and the face that it came to.
#[derive(Clone, Copy)]
struct Risen {
    count: usize,
    last: usize,
    top: usize,
}

// Crosses the dart d from its right face i: lowers the potential of its left face if it can, and says whether.
fn relax(
    lefts: &[u16; 1024],
    lengths: &[i32; 1024],
    potentials: &mut [i64; 1024],
    parents: &mut [u16; 1024],
    i: usize,
    d: usize,
) -> bool
    requires { (length potentials.old ≡ 1024) × (length parents.old ≡ 1024) × (i < 1024) × (d < 1024) × (at lefts.now d < 1024)
        × (mag (atℤ potentials.old i) + mag (atℤ lengths.now d) + 1 < 9223372036854775808) }
    ensures { Relaxed lefts.now lengths.now potentials.old parents.old
        potentials.new parents.new i d result }
{
    let f = arrays::wide(lefts[d]);
    let v = signed::plus_wide(potentials[i], lengths[d]);
    if v < potentials[f] {
        potentials[f] = v;
        parents[f] = d as u16;
        return true;
    }
    false
}

// The face f comes to wait, unless it does already. Returns the end of the queue.
fn push(waiting: &mut [u8; 1024], queue: &mut [u16; 1024], f: usize, last: usize) -> usize
    requires { (length waiting.old ≡ 1024) × (length queue.old ≡ 1024) × (f < 1024) × (last ≤ 4000000000000000000) }
    ensures { Pushed waiting.old queue.old waiting.new queue.new f last result }
{
    if waiting[f] == 1 {
        return last;
    }
    waiting[f] = 1;
    queue[last % 1024] = f as u16;
    last + 1
}

// Whether p can be the parent of the face f: a dart with f on its left. 1024, which is no dart, stands for no parent: an Option would double the array, and
// memory is fixed. So it is with the links, where 1024 stands for no link yet.
fn is_sensible(lefts: &[u16; 1024], darts: usize, f: usize, p: usize) -> bool
    requires { darts ≤ 1024 }
    ensures { result ≡ sensible lefts.now darts f p }
{
    p < darts && arrays::wide(lefts[p]) == f
}

// Of the proposed parents those stay that can be parents. Returns how many.
fn take_parents(lefts: &[u16; 1024], darts: usize, faces: usize, parents: &mut [u16; 1024]) -> usize
    requires { (length parents.old ≡ 1024) × (darts ≤ 1024) × (faces ≤ 1024) }
    ensures { Taking lefts.now darts parents.old faces parents.new result }
{
    let mut taken: usize = 0;
    for f in 0..faces {
        let p = arrays::wide(parents[f]);
        if is_sensible(lefts, darts, f, p) {
            taken += 1;
        } else {
            parents[f] = 1024;
        }
    }
    taken
}

// Whether 1024 stands for every face: no parent is proposed. A sum of 16 bits, which the compiler adds up eight faces at a time.
fn none_proposed(parents: &[u16; 1024], faces: usize) -> bool
    requires { faces ≤ 1024 }
    ensures { result ≡ true → (f : ℕ) → f < faces → at parents.now f ≡ 1024 }
{
    let mut some: u16 = 0;
    for f in 0..faces {
        some += u16::from(parents[f] != 1024);
    }
    some == 0
}

// The same, without a look at each face where none is proposed.
fn take_proposed(
    lefts: &[u16; 1024],
    darts: usize,
    faces: usize,
    parents: &mut [u16; 1024],
) -> usize
    requires { (length parents.old ≡ 1024) × (darts ≤ 1024) × (faces ≤ 1024) }
    ensures { Taking lefts.now darts parents.old faces parents.new result }
{
    if none_proposed(&*parents, faces) {
        return 0;
    }
    take_parents(lefts, darts, faces, parents)
}

// At first the roots, which stand at the first places of the queue, are at 0 and wait, without a parent; no other face has a level. Potentials and flags come
// as new arrays are made, without levels and at rest: to fill them once more would cost as much as some looks. Returns how many parents were taken.
fn begin(
    lefts: &[u16; 1024],
    darts: usize,
    faces: usize,
    potentials: &mut [i64; 1024],
    parents: &mut [u16; 1024],
    waiting: &mut [u8; 1024],
    queue: &[u16; 1024],
    roots: usize,
) -> usize
    requires { (length potentials.old ≡ 1024) × (length parents.old ≡ 1024) × (length waiting.old ≡ 1024) × (roots ≤ 1024)
        × ((m : ℕ) → m < roots → at queue.now m < 1024) × (darts ≤ 1024) × (faces ≤ 1024)
        × ((f : ℕ) → f < 1024 → atℤ potentials.old f ≡ far) × ((f : ℕ) → f < 1024 → at waiting.old f ≡ 0) }
    ensures { Begun lefts.now darts faces parents.old potentials.new parents.new waiting.new
        queue.now roots × (result ≡ taken_from lefts.now darts faces parents.old) }
{
    let taken = take_proposed(lefts, darts, faces, &mut *parents);
    for m in 0..roots {
        let f = arrays::wide(queue[m]);
        potentials[f] = 0;
        parents[f] = 1024;
        waiting[f] = 1;
    }
    taken
}

// The looks before the first straightening: none where parents were taken, along which it lays the first levels.
fn first_looks(faces: usize, taken: usize) -> usize
    requires { faces ≤ 1024 }
    ensures { result ≡ first_looks faces taken }
{
    if taken == 0 {
        return faces + faces / 2 + 1;
    }
    0
}

// Goes up from the face f over parents, through faces that have one and no link yet. Each gets a link down, to the face before it on the way; f to itself.
fn ascend(
    lefts: &[u16; 1024],
    parents: &[u16; 1024],
    darts: usize,
    faces: usize,
    f: usize,
    links: &mut [u16; 1024],
) -> Risen
    requires { (length links.old ≡ 1024) × (darts ≤ 1024) × (faces ≤ 1024) × (f < faces)
        × ((d : ℕ) → d < darts → right_of lefts.now d < faces) }
    ensures { (marks : List ℕ) → Matched marks links.old
        → Ascended (up (right_of lefts.now) (at parents.now)) darts faces parents.now f marks
        links.old links.new result.count result.last result.top }
{
    let mut y = f;
    let mut below = f;
    let mut count: usize = 0;
    // A loop: it walks up over parents, until a face has none or has a link.
    'up: loop {
        let p = arrays::wide(parents[y]);
        if darts <= p || links[y] != 1024 {
            return Risen {
                count,
                last: below,
                top: y,
            };
        }
        links[y] = below as u16;
        below = y;
        count += 1;
        y = arrays::right(lefts, p);
    }
}

// Whether the face f has no level.
fn is_far(potentials: &[i64; 1024], f: usize) -> bool
    requires { f < 1024 }
    ensures { (result ≡ true → atℤ potentials.now f ≡ far) × (result ≡ false → atℤ potentials.now f ≡ far → ⊥) }
{
    potentials[f] == FAR
}

// The face y follows its parent: it falls to the level across it plus its length, or is there already. Where the face across has no level, y is left without a
// parent. Returns the end of the queue.
fn follow(
    lefts: &[u16; 1024],
    lengths: &[i32; 1024],
    potentials: &mut [i64; 1024],
    parents: &mut [u16; 1024],
    waiting: &mut [u8; 1024],
    queue: &mut [u16; 1024],
    y: usize,
    last: usize,
) -> usize
    requires { (length potentials.old ≡ 1024) × (length parents.old ≡ 1024) × (length waiting.old ≡ 1024) × (length queue.old ≡ 1024)
        × (y < 1024) × (at parents.old y < 1024) × (at lefts.now (at parents.old y) < 1024) × (right_of lefts.now (at parents.old y) < 1024)
        × (last ≤ 4000000000000000000)
        × ((atℤ potentials.old (right_of lefts.now (at parents.old y)) ≡ far → ⊥)
        → mag (atℤ potentials.old (right_of lefts.now (at parents.old y))) + mag (atℤ lengths.now (at parents.old y)) + 1 < 9223372036854775808) }
    ensures { Follows lefts.now lengths.now y
        (tables_of potentials.old parents.old waiting.old queue.old last)
        (tables_of potentials.new parents.new waiting.new queue.new result) }
{
    let p = arrays::wide(parents[y]);
    let w = arrays::right(lefts, p);
    if is_far(&*potentials, w) {
        parents[y] = 1024;
        return last;
    }
    if relax(lefts, lengths, &mut *potentials, &mut *parents, w, p) {
        return push(&mut *waiting, &mut *queue, y, last);
    }
    last
}

// The faces of the ascent from f follow their parents, down the links from the last one on. Returns the end of the queue. `f` is named by the contract only.
fn descend(
    lefts: &[u16; 1024],
    lengths: &[i32; 1024],
    darts: usize,
    faces: usize,
    f: usize,
    count: usize,
    from: usize,
    links: &mut [u16; 1024],
    potentials: &mut [i64; 1024],
    parents: &mut [u16; 1024],
    waiting: &mut [u8; 1024],
    queue: &mut [u16; 1024],
    last: usize,
) -> usize
    requires { Lowering (dual_of lefts.now lengths.now darts faces)
        (tables_of potentials.old parents.old waiting.old queue.old last) f count from links.old }
    ensures { Descends lefts.now lengths.now (up (right_of lefts.now) (at parents.old))
        f count (tables_of potentials.old parents.old waiting.old queue.old last)
        (tables_of potentials.new parents.new waiting.new queue.new result)
        × Unlinked (up (right_of lefts.now) (at parents.old)) f 0 count links.old links.new }
{
    let mut y = from;
    let mut end = last;
    for _k in 0..count {
        let below = arrays::wide(links[y]);
        links[y] = DONE;
        end = follow(
            lefts,
            lengths,
            &mut *potentials,
            &mut *parents,
            &mut *waiting,
            &mut *queue,
            y,
            end,
        );
        y = below;
    }
    end
}

// Whether the ascent that is under way has come round: to the face y, which has a level and was met in this very ascent: who was met before is done.
fn is_round(potentials: &[i64; 1024], links: &[u16; 1024], y: usize) -> bool
    requires { y < 1024 }
    ensures { (result ≡ true → (at links.now y < 1024) × (atℤ potentials.now y ≡ far → ⊥))
        × (result ≡ false → at links.now y < 1024 → (atℤ potentials.now y ≡ far → ⊥) → ⊥) }
{
    if links[y] < 1024 {
        return !is_far(potentials, y);
    }
    false
}

// Every face falls to the length of its own walk of parents, and comes to wait if it fell; or there is a ring of parents. Before the first look it lays the
// first levels: then only roots have one, and a face whose parents do not lead to a root is left without a parent.
fn straighten(
    lefts: &[u16; 1024],
    lengths: &[i32; 1024],
    darts: usize,
    faces: usize,
    potentials: &mut [i64; 1024],
    parents: &mut [u16; 1024],
    waiting: &mut [u8; 1024],
    queue: &mut [u16; 1024],
    last: usize,
) -> Result<usize, Ring>
    requires { Straightening (dual_of lefts.now lengths.now darts faces)
        (tables_of potentials.old parents.old waiting.old queue.old last) }
    ensures { (end : ℕ) × Straightens lefts.now lengths.now darts faces 0 unmarked
        (tables_of potentials.old parents.old waiting.old queue.old last)
        (tables_of potentials.new parents.new waiting.new queue.new end) result }
{
    let mut links = [1024u16; 1024];
    let mut end = last;
    for f in 0..faces {
        let risen = ascend(lefts, &*parents, darts, faces, f, &mut links);
        if 0 < risen.count {
            let top = risen.top;
            if is_round(&*potentials, &links, top) {
                let dart = arrays::wide(parents[top]);
                return Err(Ring { dart });
            }
            end = descend(
                lefts,
                lengths,
                darts,
                faces,
                f,
                risen.count,
                risen.last,
                &mut links,
                &mut *potentials,
                &mut *parents,
                &mut *waiting,
                &mut *queue,
                end,
            );
        }
    }
    Ok(end)
}

// Where the group of the face f ends: behind the last dart, or where the group of the face before it starts.
fn group_end(starts: &[u16; 1024], darts: usize, f: usize) -> usize
    requires { f < 1024 }
    ensures { result ≡ end_of darts (at starts.now) f }
{
    if f == 0 {
        return darts;
    }
    arrays::wide(starts[f - 1])
}

// Looks at the face i, which stands at the first place of the queue: it waits no more, and the darts whose right face it is are crossed. Returns the end of the
// queue.
fn look(
    lefts: &[u16; 1024],
    lengths: &[i32; 1024],
    order: &[u16; 1024],
    starts: &[u16; 1024],
    darts: usize,
    faces: usize,
    potentials: &mut [i64; 1024],
    parents: &mut [u16; 1024],
    waiting: &mut [u8; 1024],
    queue: &mut [u16; 1024],
    last: usize,
    i: usize,
) -> usize
    requires { Looking (dual_of lefts.now lengths.now darts faces)
        (tables_of potentials.old parents.old waiting.old queue.old last) i
        × Grouped (right_of lefts.now) darts faces order.now starts.now }
    ensures { LookAt (given lefts.now lengths.now order.now starts.now darts faces) i
        (tables_of potentials.old parents.old waiting.old queue.old last)
        (tables_of potentials.new parents.new waiting.new queue.new result) }
{
    waiting[i] = 0;
    let start = arrays::wide(starts[i]);
    let e = group_end(starts, darts, i);
    let mut end = last;
    for j in start..e {
        let d = arrays::wide(order[j]);
        let f = arrays::wide(lefts[d]);
        if relax(lefts, lengths, &mut *potentials, &mut *parents, i, d) {
            end = push(&mut *waiting, &mut *queue, f, end);
        }
    }
    end
}

// The search from the roots, which stand at the first places of the queue, and from the parents that stand in `parents`: any array, of which each element that
// is no dart with its face on the left counts as none. Where it is settled, `potentials` has the highest potentials that no dart can lower, with the roots at
// 0; where it answers a ring, its dart closes it: the face left of that dart is on the ring, the dart is that face's parent, and the parents lead round: to the
// face right of the dart, then to the face right of that one's parent, and so on back. How it goes, look by look, is `Searches`. No face has a level before,
// and none waits.
pub fn search(
    lefts: &[u16; 1024],
    lengths: &[i32; 1024],
    order: &[u16; 1024],
    starts: &[u16; 1024],
    darts: usize,
    faces: usize,
    roots: usize,
    potentials: &mut [i64; 1024],
    parents: &mut [u16; 1024],
    waiting: &mut [u8; 1024],
    queue: &mut [u16; 1024],
) -> Result<(), Ring>
    requires { WellFormed (dual_of lefts.now lengths.now darts faces (take roots queue.old))
        × Joined (dual_of lefts.now lengths.now darts faces (take roots queue.old))
        × Grouped (right_of lefts.now) darts faces order.now starts.now
        × (length potentials.old ≡ 1024) × (length parents.old ≡ 1024) × (length waiting.old ≡ 1024) × (length queue.old ≡ 1024)
        × (roots ≤ 1024) × ((f : ℕ) → f < 1024 → atℤ potentials.old f ≡ far) × ((f : ℕ) → f < 1024 → at waiting.old f ≡ 0) }
    ensures { Answer (dual_of lefts.now lengths.now darts faces (take roots queue.old))
        potentials.new parents.new result
        × Searches (given lefts.now lengths.now order.now starts.now darts faces)
        queue.old roots parents.old potentials.new parents.new result }
{
    let taken = begin(
        lefts,
        darts,
        faces,
        &mut *potentials,
        &mut *parents,
        &mut *waiting,
        &*queue,
        roots,
    );
    let mut first: usize = 0;
    let mut last: usize = roots;
    let mut left = first_looks(faces, taken);
    // Both answers come by a labelled break and not by `?`: that the search ends so is a rule of the project (docs/MANUAL.md, "The shape each place takes").
    'search: loop {
        for _k in 0..left {
            if first == last {
                break 'search Ok(());
            }
            let i = arrays::wide(queue[first % 1024]);
            last = look(
                lefts,
                lengths,
                order,
                starts,
                darts,
                faces,
                &mut *potentials,
                &mut *parents,
                &mut *waiting,
                &mut *queue,
                last,
                i,
            );
            first += 1;
        }
        let pass = straighten(
            lefts,
            lengths,
            darts,
            faces,
            &mut *potentials,
            &mut *parents,
            &mut *waiting,
            &mut *queue,
            last,
        );
        match pass {
            Ok(end) => last = end,
            Err(ring) => break 'search Err(ring),
        }
        left = faces + faces / 2 + 1;
    }
}
