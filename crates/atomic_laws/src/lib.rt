// Laws of the atomic phase: all of them stand in specs/.
#![tactic(auto)]

pub use base::same;
