#![tactic(auto)]

// The starred lines of document 01, "Drawings with known answers", as one table that is proved. A theory crate: it has no functions.
