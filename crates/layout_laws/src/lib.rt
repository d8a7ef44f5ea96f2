// Laws of the layout: all of them stand in specs/.
#![tactic(auto)]

pub use base::same;
