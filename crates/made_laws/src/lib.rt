// What holds of every heap that the calls make, and demand 3 for it: all of it stands in specs/.
#![tactic(auto)]

pub use base::same;
