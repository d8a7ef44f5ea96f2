// Laws of the order in which finalizers are handed out: all of them stand in specs/.
#![tactic(auto)]

pub use base::same;
