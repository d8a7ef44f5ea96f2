// Laws of the records: all of them stand in specs/.
#![tactic(auto)]

pub use base::same;
