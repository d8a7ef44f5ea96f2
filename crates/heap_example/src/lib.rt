// A small heap to which the theorem on what is freed is applied: all of them stand in specs/.
#![tactic(auto)]

pub use base::same;
