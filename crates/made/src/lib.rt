// The heaps that the calls make: the definitions stand in specs/.
#![tactic(auto)]

pub use base::same;
