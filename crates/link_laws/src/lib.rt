// Laws of links: all of them stand in specs/.
#![tactic(auto)]

pub use base::same;
