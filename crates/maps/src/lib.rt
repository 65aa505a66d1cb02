#![tactic(auto)]

// Maps (rotation systems): darts, faces, components, flatness, and the planar theorems. A theory crate: it has no functions.
