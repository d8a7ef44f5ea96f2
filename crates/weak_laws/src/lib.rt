// Laws of weak tables against the manual: all of them stand in specs/.
#![tactic(auto)]

pub use base::same;
