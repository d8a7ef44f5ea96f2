// What the manual promises, and where it agrees: all of it stands in specs/.
#![tactic(auto)]

pub use base::same;
