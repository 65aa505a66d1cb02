// Sets of nodes in 64-bit words. Document 01, "A proving set": "It is written as 64-bit words, node i being bit i mod 64 of word i div 64, unused bits zero,
// words as many as the nodes need. Its size is the number of ones in its words."
#![tactic(auto)]

ghost use Rattle.std.specs.Prelude.{◌≡◌, ◌+◌, ◌/◌, ◌^◌, ◌<◌, ◌≤◌, length, take};
ghost use Rattle.flows.specs.ProvingSet.{words_for, member, size};
ghost use Rattle.node_sets.specs.inner.Words.{flag, set_word, WordsLent, Written};

// As many words as the nodes need.
pub fn words_for(nodes: usize) -> usize
    requires { nodes ≤ 1024 }
    ensures { result ≡ words_for nodes }
{
    nodes.div_ceil(64)
}

// Whether v is a node and flagged. What the flags past the last node say is not read, so unused bits stay zero.
fn flagged(inside: &[u8; 1024], nodes: usize, v: usize) -> bool
    requires { nodes ≤ 1024 }
    ensures { result ≡ flag inside.now nodes v }
{
    v < nodes && inside[v] == 1
}

// Bit k set in a word that is filled below it only.
fn set_bit(w: u64, k: usize) -> u64
    requires { (k < 64) × (w < 2 ^ k) }
    ensures { result ≡ 2 ^ k + w }
{
    w | (1u64 << k)
}

// Word j of the set: its bit k is the flag of node 64 j + k.
fn word_of(inside: &[u8; 1024], nodes: usize, j: usize) -> u64
    requires { (nodes ≤ 1024) × (j < 16) }
    ensures { result ≡ set_word inside.now nodes j }
{
    let mut w: u64 = 0;
    for k in 0..64usize {
        if flagged(inside, nodes, 64 * j + k) {
            w = set_bit(w, k);
        }
    }
    w
}

// Writes the set of the nodes v with inside[v] = 1 into a slice of as many words as they need.
pub fn write_set(inside: &[u8; 1024], nodes: usize, words: &mut [u64])
    requires { WordsLent nodes words.old }
    ensures { Written inside.now nodes words.old words.new }
{
    let n = words_for(nodes);
    for j in 0..n {
        words[j] = word_of(inside, nodes, j);
    }
}

// The size of the set, which has as many words as the nodes need: ones counted in each 64-bit word, and summed.
pub fn count_set(words: &[u64], nodes: usize) -> usize
    requires { WordsLent nodes words.now }
    ensures { result ≡ size (take (words_for nodes) words.now) }
{
    let n = words_for(nodes);
    let mut total: usize = 0;
    // A for over places: an iterator over the slice hands out addresses, and the module's text would have to be changed for machines of 32 bits.
    for i in 0..n {
        total += words[i].count_ones() as usize;
    }
    total
}

// Whether node v is in the set: bit v mod 64 of word v div 64.
pub fn contains(words: &[u64], v: usize) -> bool
    requires { v / 64 < length words.now }
    ensures { result ≡ member words.now v }
{
    (words[v / 64] >> (v % 64)) % 2 == 1
}
