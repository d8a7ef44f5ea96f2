// Document 01's starred examples: all of them stand in specs/.
#![tactic(auto)]

pub use base::same;
