// What holds of every heap that the calls make, and what keeps it: all of it stands in specs/.
#![tactic(auto)]

pub use base::same;
