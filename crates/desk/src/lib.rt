// The exam desk: papers of a class marked against one drawing, source, sink and value. Document 02, Job 14. It stands above the analyser and calls what the
// unit offers, Counts, Largest, Mark and Totals by node, of which it knows the contracts and the printed statements alone.
#![tactic(auto)]

ghost use Rattle.std.specs.Prelude.{◌≡◌, ℕ, ◌+◌, ◌*◌, ◌/◌, ◌<◌, ◌≤◌, ◌++◌, length, pos, negsuc, ◌+ℤ◌};
ghost use Rattle.std.specs.Int.Signed.{lt_z};
ghost use Rattle.integers.specs.Sum.{sumℕ};
ghost use Rattle.refusals.specs.Order.{Decides, Judged, NoneOf};
ghost use Rattle.maps.specs.Cut.{cut};
ghost use Rattle.flows.specs.ProvingSet.{words_for, member};
ghost use Rattle.arrays.specs.At.{at, atℤ};
ghost use Rattle.records.specs.Sheet.{nodes_of, edges_of, capacity_of, sheet_map};
ghost use Rattle.sheets.specs.Open.{sheet_checks};
ghost use Rattle.questions.specs.Question.{end_checks, value_checks};
ghost use Rattle.pages.specs.Stretch.{SameFrom};
ghost use Rattle.analyser.specs.Statements.{Delivers};
ghost use Rattle.desk.specs.Paper.{claim_of, nodes_in, paper_of, Earns, IsLargest, Points};
ghost use Rattle.desk.specs.Class.{class_checks, Examines};
ghost use Rattle.desk.specs.inner.Judged.{IsValue, ProvesBy, NoneBy, ValuePoints, NonePoints, LastSixBy};
ghost use Rattle.desk.specs.inner.Asked.{Asked};
ghost use Rattle.desk.specs.inner.Extremes.{Extremes};

use refusals::{Refusal, refused};

// The figures of a class: the number of papers, the sum, the least and the greatest of their points. The mean is the sum over the number.
#[derive(Clone, Copy, Debug, PartialEq, Eq)]
pub struct ClassFigures {
    pub number: u16,
    pub sum: u16,
    pub least: u8,
    pub greatest: u8,
}

fn narrow(n: usize) -> u16
    requires { n ≤ 10000 }
    ensures { result ≡ n }
{
    n as u16
}

// As many words as the nodes need.
fn words_for(nodes: usize) -> usize
    requires { nodes ≤ 513 }
    ensures { (result ≡ words_for nodes) × (result ≤ 9) }
{
    (nodes + 63) / 64
}

// Whether node v is in a set: bit v mod 64 of word v div 64.
fn holds(set: &[u64], v: usize) -> bool
    requires { v / 64 < length set.now }
    ensures { result ≡ member set.now v }
{
    (set[v / 64] >> (v % 64)) % 2 == 1
}

// The claim of a paper: a number, or none where its kind is 1.
fn claim_of(kind: u8, number: i32) -> Option<i32>
    ensures { result ≡ claim_of kind number }
{
    if kind == 1 { None } else { Some(number) }
}

// Whether a claim is this value.
fn claims_value(claim: Option<i32>, v: i32) -> bool
    ensures { Decides (IsValue claim v) result }
{
    claim == Some(v)
}

fn less(x: i32, y: i32) -> bool
    ensures { result ≡ lt_z x y }
{
    x < y
}

// Whether x is below -(v + 1), at 64 bits: x + v is below -1.
fn less_than_opposite(x: i32, v: i32) -> bool
    ensures { result ≡ lt_z (x +ℤ v) (negsuc 0) }
{
    signed::add32(x, v) < -1
}

// Whether a set with this outward total proves the next value after the largest impossible: a total of at most v where it holds the source alone, below
// -(v + 1) where it holds the sink alone, below 0 otherwise.
fn proves_next(total: i32, v: i32, from: bool, into: bool) -> bool
    ensures { Decides (ProvesBy total (v +ℤ pos 1) from into) result }
{
    if from {
        if into {
            return less(total, 0);
        }
        return !less(v, total);
    }
    if into {
        return less_than_opposite(total, v);
    }
    less(total, 0)
}

// Whether a set meets the rule for none: both ends or neither, and a total below 0.
fn proves_none(total: i32, from: bool, into: bool) -> bool
    ensures { Decides (NoneBy total from into) result }
{
    if from {
        if into {
            return less(total, 0);
        }
        return false;
    }
    if into {
        return false;
    }
    less(total, 0)
}

// The points for claim and set where there is a largest value: 3 and 3, each by itself.
fn value_points(v: i32, claim: Option<i32>, total: i32, from: bool, into: bool) -> u8
    ensures { ValuePoints v claim total from into result }
{
    let claimed = claims_value(claim, v);
    let proved = proves_next(total, v, from, into);
    if claimed {
        if proved {
            return 6;
        }
        return 3;
    }
    if proved {
        return 3;
    }
    0
}

// The points for claim and set where nothing can be delivered: 6 for both together.
fn none_points(claim: Option<i32>, total: i32, from: bool, into: bool) -> u8
    ensures { NonePoints claim total from into result }
{
    if claim.is_none() {
        if proves_none(total, from, into) {
            return 6;
        }
    }
    0
}

// The points for claim and set.
fn last_six(largest: Option<i32>, claim: Option<i32>, total: i32, from: bool, into: bool) -> u8
    ensures { LastSixBy largest claim total from into result }
{
    match largest {
        Some(v) => value_points(v, claim, total, from, into),
        None => none_points(claim, total, from, into),
    }
}

// The largest value, by Largest into arrays that every answer fits in, which end here. It is not inlined, so that they, and the record that Largest holds, are
// no part of the frame under which each paper is marked.
#[inline(never)]
fn find_largest(sheet: &[u8], source: u16, sink: u16) -> Option<i32>
    requires { Asked sheet.now source sink }
    ensures { IsLargest sheet.now source sink result }
{
    let mut flows = [0i32; 512];
    let mut set = [0u64; 9];
    let answer = analyser::largest(sheet, source, sink, &mut flows, &mut set);
    match answer {
        Ok(largest) => largest,
        Err(_) => None,
    }
}

// 4 points for the value asked.
fn value_asked(v: i32, value: i32) -> u8
    ensures { Earns (v ≡ value) 4 result }
{
    if v == value {
        return 4;
    }
    0
}

// The points for settings: 4 if Mark gives the value asked.
fn settings_points(sheet: &[u8], source: u16, sink: u16, value: i32, settings: &[i32]) -> u8
    requires { Asked sheet.now source sink × (edges_of sheet.now ≤ length settings.now) }
    ensures { Earns (Delivers sheet.now source sink value (atℤ settings.now)) 4 result }
{
    let answer = analyser::mark(sheet, source, sink, settings);
    match answer {
        Ok(v) => value_asked(v, value),
        Err(_) => 0,
    }
}

// The outward total of a set, by Totals by node, with the subtotals in an array that ends here.
fn outward_total(sheet: &[u8], set: &[u64]) -> i32
    requires { NoneOf (sheet_checks sheet.now) × (words_for (nodes_of sheet.now) ≤ length set.now) }
    ensures { result ≡ cut (sheet_map sheet.now) (capacity_of sheet.now) (nodes_in (nodes_of sheet.now) set.now) }
{
    let mut subtotals = [0i32; 513];
    let answer = analyser::totals(sheet, set, &mut subtotals);
    match answer {
        Ok(t) => t,
        Err(_) => 0,
    }
}

// The points of one paper.
fn paper_points(
    sheet: &[u8],
    source: u16,
    sink: u16,
    value: i32,
    largest: Option<i32>,
    claim: Option<i32>,
    settings: &[i32],
    set: &[u64],
) -> u8
    requires { Asked sheet.now source sink × (edges_of sheet.now ≤ length settings.now) × (words_for (nodes_of sheet.now) ≤ length set.now) }
    ensures { Points sheet.now source sink value largest
        (record { settings = atℤ settings.entry.now; claim = claim; set = nodes_in (nodes_of sheet.now) set.now }) result × (result ≤ 10) }
{
    let first = settings_points(sheet, source, sink, value, settings);
    let total = outward_total(sheet, set);
    let from = holds(set, usize::from(source));
    let into = holds(set, usize::from(sink));
    let rest = last_six(largest, claim, total, from, into);
    first + rest
}

// The points of a class of n papers, paper q at place q: its settings from q * edges on, its set from q * words on.
fn mark_papers(
    sheet: &[u8],
    nodes: usize,
    edges: usize,
    source: u16,
    sink: u16,
    value: i32,
    largest: Option<i32>,
    claims: &[i32],
    kinds: &[u8],
    settings: &[i32],
    sets: &[u64],
    points: &mut [u8],
)
    requires { Asked sheet.now source sink × (nodes ≡ nodes_of sheet.now) × (edges ≡ edges_of sheet.now) × (length claims.now ≤ 1000)
        × (length claims.now ≤ length kinds.now) × (length claims.now * edges ≤ length settings.now)
        × (length claims.now * words_for nodes ≤ length sets.now) × (length claims.now ≤ length points.old) }
    ensures { ((q : ℕ) → q < length claims.now → Points sheet.now source sink value largest
        (paper_of sheet.now claims.now kinds.now settings.now sets.now q) (at points.new q))
        × ((q : ℕ) → q < length claims.now → at points.new q ≤ 10)
        × SameFrom (length claims.now) points.old points.new }
{
    let n = claims.len();
    let words = words_for(nodes);
    for q in 0..n {
        let start = q * edges;
        let end = start + edges;
        let word = q * words;
        let past = word + words;
        let claim = claim_of(kinds[q], claims[q]);
        points[q] = paper_points(
            sheet,
            source,
            sink,
            value,
            largest,
            claim,
            &settings[start..end],
            &sets[word..past],
        );
    }
}

// The sum of the points of n papers.
fn sum_of(points: &[u8], n: usize) -> usize
    requires { (n ≤ length points.now) × (n ≤ 1000) × ((q : ℕ) → q < n → at points.now q ≤ 10) }
    ensures { (result ≡ sumℕ n (at points.now)) × (result ≤ 10000) }
{
    let mut sum: usize = 0;
    for q in 0..n {
        sum += usize::from(points[q]);
    }
    sum
}

// The least and the greatest points of n papers.
fn least_and_greatest(points: &[u8], n: usize) -> (u8, u8)
    requires { (n ≤ length points.now) × (0 < n) }
    ensures { Extremes n (at points.now) result.0 result.1 }
{
    let mut least = points[0];
    let mut greatest = points[0];
    for q in 1..n {
        least = least.min(points[q]);
        greatest = greatest.max(points[q]);
    }
    (least, greatest)
}

// Checks 13, 14 and 15 of the question.
fn check_question(nodes: usize, source: usize, sink: usize, value: i32) -> Result<(), Refusal>
    ensures { Judged (end_checks nodes source sink ++ value_checks value) result }
{
    if nodes <= source {
        return refused(13);
    }
    if nodes <= sink {
        return refused(13);
    }
    if source == sink {
        return refused(14);
    }
    if value < -600000000 {
        return refused(15);
    }
    if value > 600000000 {
        return refused(15);
    }
    Ok(())
}

// Checks 32 and 16 of a class of n papers, by the lengths of its slices.
fn check_class(
    nodes: usize,
    edges: usize,
    n: usize,
    kinds: usize,
    settings: usize,
    sets: usize,
    points: usize,
) -> Result<(), Refusal>
    requires { (nodes ≤ 513) × (edges ≤ 512) }
    ensures { Judged (class_checks nodes edges n kinds settings sets points) result }
{
    if 1000 < n {
        return refused(32);
    }
    if kinds < n {
        return refused(16);
    }
    if settings < n * edges {
        return refused(16);
    }
    if sets < n * words_for(nodes) {
        return refused(16);
    }
    if points < n {
        return refused(16);
    }
    Ok(())
}

// A class on a sheet that is accepted, with its counts.
fn examine_counted(
    sheet: &[u8],
    nodes: usize,
    edges: usize,
    source: u16,
    sink: u16,
    value: i32,
    claims: &[i32],
    kinds: &[u8],
    settings: &[i32],
    sets: &[u64],
    points: &mut [u8],
) -> Result<Option<ClassFigures>, Refusal>
    requires { NoneOf (sheet_checks sheet.now) × (nodes ≡ nodes_of sheet.now) × (edges ≡ edges_of sheet.now) }
    ensures { Examines sheet.now source sink value claims.now kinds.now settings.now sets.now
        points.old points.new result }
{
    check_question(nodes, usize::from(source), usize::from(sink), value)?;
    let n = claims.len();
    check_class(
        nodes,
        edges,
        n,
        kinds.len(),
        settings.len(),
        sets.len(),
        points.len(),
    )?;
    if n == 0 {
        return Ok(None);
    }
    let largest = find_largest(sheet, source, sink);
    mark_papers(
        sheet, nodes, edges, source, sink, value, largest, claims, kinds, settings, sets, points,
    );
    let sum = sum_of(&*points, n);
    let (least, greatest) = least_and_greatest(&*points, n);
    Ok(Some(ClassFigures {
        number: narrow(n),
        sum: narrow(sum),
        least,
        greatest,
    }))
}

// The exam desk: the points of each paper of a class, paper q at place q of `points`, and the class's figures. Claim q is the number claims[q], or none where
// kinds[q] is 1. The largest value is found once. Nothing is written before the last check.
pub fn examine(
    sheet: &[u8],
    source: u16,
    sink: u16,
    value: i32,
    claims: &[i32],
    kinds: &[u8],
    settings: &[i32],
    sets: &[u64],
    points: &mut [u8],
) -> Result<Option<ClassFigures>, Refusal>
    ensures { Examines sheet.now source sink value claims.now kinds.now settings.now sets.now
        points.old points.new result }
{
    let counts = analyser::counts(sheet)?;
    examine_counted(
        sheet,
        usize::from(counts.nodes),
        usize::from(counts.edges),
        source,
        sink,
        value,
        claims,
        kinds,
        settings,
        sets,
        points,
    )
}
