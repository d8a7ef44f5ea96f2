// Laws of a full collection: all of them stand in specs/.
#![tactic(auto)]

pub use base::same;
