// Laws of a collection by single steps: all of them stand in specs/.
#![tactic(auto)]

pub use base::same;
