// What the audit says, in document 01's words: all of it stands in specs/.
#![tactic(auto)]

pub use base::same;
