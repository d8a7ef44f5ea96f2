// What a call has once test 1 let it in: specs/Entered.antt.
#![tactic(auto)]

pub use base::same;
