#![tactic(auto)]

// Flows from a source to a sink on flat maps: what carries a value, the highest answer, proving sets. A theory crate: it has no functions.
