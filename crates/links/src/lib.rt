// The links that are followed stand in specs/Links.antt.
#![tactic(auto)]

pub use base::same;
