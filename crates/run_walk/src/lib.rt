// The traversal of what runs (document 01, 'Followed links'): closures with the constants of their prototypes, threads, and
// the main thread.
#![tactic(auto)]

pub mod closures;
pub mod main_thread;
pub mod prototypes;
pub mod threads;
