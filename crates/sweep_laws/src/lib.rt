// Laws of the sweep by single steps: all of them stand in specs/.
#![tactic(auto)]

pub use base::same;
