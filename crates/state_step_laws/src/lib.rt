// Each step of the collector keeps what holds of every heap: all of it stands in specs/.
#![tactic(auto)]

pub use base::same;
