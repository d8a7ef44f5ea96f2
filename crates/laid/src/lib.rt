// What a planned layout gives in words that are long enough: it stands in specs/Laid.antt, and the crates of marking cite it,
// so that each function asks for one fact of its layout.
#![tactic(auto)]

pub use base::same;
