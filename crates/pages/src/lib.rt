// Lists of up to 64 questions on a drawing that is open and sound, held in lent arrays. Document 02, Job 1. Each question gets a stretch of one buffer for its
// settings and a stretch of another for its set, and is answered as Solve answers it alone.
#![tactic(auto)]

ghost use Rattle.std.specs.Prelude.{◌<◌, ◌≤◌, min, ◌≡◌, length};
ghost use Rattle.refusals.specs.Order.{Judged};
ghost use Rattle.flows.specs.ProvingSet.{words_for};
ghost use Rattle.grouping.specs.inner.OpenDrawing.{OpenDrawing};
ghost use Rattle.arrays.specs.Maps.{drawing_of};
ghost use Rattle.pages.specs.Question.{question_at, question_in};
ghost use Rattle.pages.specs.Page.{list_checks, Paged};
ghost use Rattle.pages.specs.inner.Lent.{StretchesLent, ListLent};
ghost use Rattle.pages.specs.inner.Listed.{emptyList, listed_at, gathered, list_of, solved_alone};

use arrays::{Demand, Sizes};
use questions::Solution;
use refusals::{Refusal, refused};

// A question: a source, a sink and a value.
#[derive(Clone, Copy, Debug, PartialEq, Eq)]
pub struct Question {
    pub source: u16,
    pub sink: u16,
    pub value: i32,
}

// Questions by value: how many there are, and the first 64 of them. The count stands beside them: memory is fixed, and a count above 64 is refused with 21.
#[derive(Drop)]
pub struct Listed {
    pub count: usize,
    pub questions: [Question; 64],
}

// A page: how many answers there are, and the answers in the order of the questions. Places from the count on hold a refusal of number 0.
// The count stands beside the array: memory is fixed.
#[derive(Clone, Copy)]
pub struct Page {
    pub count: usize,
    pub answers: [Result<Solution, Refusal>; 64],
}

// A list for n questions, with none in it yet.
pub fn empty_list(n: usize) -> Listed
    ensures { result ≡ emptyList n }
{
    let blank = Question {
        source: 0,
        sink: 0,
        value: 0,
    };
    Listed {
        count: n,
        questions: [blank; 64],
    }
}

// As many of n as a list holds.
pub fn held(n: usize) -> usize
    ensures { result ≡ min n 64 }
{
    n.min(64)
}

// The list with question q at place i.
pub fn with_question(list: Listed, i: usize, q: Question) -> Listed
    requires { i < 64 }
    ensures { result ≡ listed_at list i q }
{
    let mut next = list;
    next.questions[i] = q;
    next
}

// The first n questions of a lent slice, in the list.
pub fn gather(questions: &[Question], n: usize, list: Listed) -> Listed
    requires { (n ≤ length questions.now) × (n ≤ 64) }
    ensures { result ≡ gathered (question_at questions.now) n list }
{
    let mut all = list.questions;
    arrays::copy(&questions[..n], &mut all[..n]);
    Listed {
        count: list.count,
        questions: all,
    }
}

// The questions of a lent slice: how many there are, and the first 64 of them.
pub fn list_of(questions: &[Question]) -> Listed
    ensures { result ≡ list_of (length questions.now) (question_at questions.now) }
{
    let n = questions.len();
    let empty = empty_list(n);
    let few = held(n);
    gather(questions, few, empty)
}

// A list of questions whose sources, sinks and values have an array each. Places from the number of questions on are not read.
pub fn list_from(count: usize, sources: &[u16; 64], sinks: &[u16; 64], values: &[i32; 64]) -> Listed
    ensures { result ≡ list_of count (question_in sources.now sinks.now values.now) }
{
    let mut next = empty_list(count);
    for i in 0..held(count) {
        next.questions[i] = Question {
            source: sources[i],
            sink: sinks[i],
            value: values[i],
        };
    }
    next
}

// Checks 21 and 16: at most 64 questions, and room for a stretch of each in both buffers.
#[tactic(auto, using(crate::proofs::Room::fits), unfolding(refusals::specs::Order::NoneOf, refusals::specs::Order::FirstOf, crate::specs::Page::list_checks))]
fn check_list(
    nodes: usize,
    edges: usize,
    n: usize,
    flows: &[i32],
    sets: &[u64],
) -> Result<(), Refusal>
    requires { (nodes ≤ 1024) × (edges ≤ 512) }
    ensures { Judged (list_checks nodes edges n flows.now sets.now) result }
{
    if 64 < n {
        return refused(21);
    }
    if flows.len() < n * edges || sets.len() < n * node_sets::words_for(nodes) {
        return refused(16);
    }
    Ok(())
}

// One question, taken apart, is put to Solve with the slices that are lent for it: a place for each edge, and a word for each that the nodes need.
fn ask<'a>(
    tails: &'a [u16; 1024],
    rotations: &'a [u16; 1024],
    lefts: &'a [u16; 1024],
    capacities: &'a [i32; 1024],
    order: &'a [u16; 1024],
    from: &'a [u16; 1024],
    grouped: &'a [u16; 1024],
    starts: &'a [u16; 1024],
    sizes: Sizes,
    q: Question,
    flows: &mut [i32],
    set: &mut [u64],
) -> Result<Solution, Refusal>
    requires { OpenDrawing sizes tails.now rotations.now lefts.now capacities.now order.now from.now grouped.now starts.now
        × StretchesLent sizes flows.old set.old }
    ensures { solved_alone
        (drawing_of sizes.nodes sizes.edges sizes.outer tails.now rotations.now capacities.now) q
        flows.old flows.new set.old set.new result }
{
    let demand = Demand {
        source: arrays::wide(q.source),
        sink: arrays::wide(q.sink),
        value: q.value,
    };
    questions::solve(
        tails, rotations, lefts, capacities, order, from, grouped, starts, sizes, demand, flows,
        set,
    )
}

// The answers to a list of at most 64 questions, with room for a stretch of each: question i gets the stretches from i * edges and from i * words on.
// It refuses nothing, and answers a Result as `answer_list` does, so that no frame holds a second page.
fn answer_all<'a>(
    tails: &'a [u16; 1024],
    rotations: &'a [u16; 1024],
    lefts: &'a [u16; 1024],
    capacities: &'a [i32; 1024],
    order: &'a [u16; 1024],
    from: &'a [u16; 1024],
    grouped: &'a [u16; 1024],
    starts: &'a [u16; 1024],
    sizes: Sizes,
    list: Listed,
    flows: &mut [i32],
    sets: &mut [u64],
) -> Result<Page, Refusal>
    requires { OpenDrawing sizes tails.now rotations.now lefts.now capacities.now order.now from.now grouped.now starts.now
        × ListLent sizes list.count flows.old sets.old }
    ensures { Paged (list_checks sizes.nodes sizes.edges list.count flows.old sets.old)
        sizes.edges (words_for sizes.nodes) list.count
        (λ i. solved_alone (drawing_of sizes.nodes sizes.edges sizes.outer tails.now rotations.now capacities.now)
        (question_at list.questions i))
        flows.old flows.new sets.old sets.new result }
{
    let count = list.count;
    let edges = sizes.edges;
    let words = node_sets::words_for(sizes.nodes);
    let none: Result<Solution, Refusal> = refused(0);
    let mut answers = [none; 64];
    for i in 0..count {
        let start = i * edges;
        let end = start + edges;
        let word = i * words;
        let past = word + words;
        answers[i] = ask(
            tails,
            rotations,
            lefts,
            capacities,
            order,
            from,
            grouped,
            starts,
            sizes,
            list.questions[i],
            &mut flows[start..end],
            &mut sets[word..past],
        );
    }
    Ok(Page { count, answers })
}

// A list of questions on one drawing: 21 and 16, then the answers, each with its stretches.
pub fn answer_list<'a>(
    tails: &'a [u16; 1024],
    rotations: &'a [u16; 1024],
    lefts: &'a [u16; 1024],
    capacities: &'a [i32; 1024],
    order: &'a [u16; 1024],
    from: &'a [u16; 1024],
    grouped: &'a [u16; 1024],
    starts: &'a [u16; 1024],
    sizes: Sizes,
    list: Listed,
    flows: &mut [i32],
    sets: &mut [u64],
) -> Result<Page, Refusal>
    requires { OpenDrawing sizes tails.now rotations.now lefts.now capacities.now order.now from.now grouped.now starts.now }
    ensures { Paged (list_checks sizes.nodes sizes.edges list.count flows.old sets.old)
        sizes.edges (words_for sizes.nodes) list.count
        (λ i. solved_alone (drawing_of sizes.nodes sizes.edges sizes.outer tails.now rotations.now capacities.now)
        (question_at list.questions i))
        flows.old flows.new sets.old sets.new result }
{
    check_list(sizes.nodes, sizes.edges, list.count, &*flows, &*sets)?;
    answer_all(
        tails, rotations, lefts, capacities, order, from, grouped, starts, sizes, list, flows, sets,
    )
}
