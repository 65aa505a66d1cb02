#![tactic(auto)]

// Integers for proofs: sums over 0..n-1, and ℤ made readable for `omega`. A theory crate: it has no functions.
