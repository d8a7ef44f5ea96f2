// Laws of the working lists' rooms: all of them stand in specs/.
#![tactic(auto)]

pub use base::same;
