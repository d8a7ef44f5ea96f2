// The records of what runs: closures, upvalues and threads. As in `record`, a record is addressed by the place p of its body,
// and all contents are taken as they are.
#![tactic(auto)]

pub mod closures;
pub mod threads;
pub mod upvalues;
