// Laws of the slots of one arena: all of them stand in specs/.
#![tactic(auto)]

pub use base::same;
