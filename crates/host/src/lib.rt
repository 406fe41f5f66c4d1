// Calls for host programs, over the four layers, the records and the days. The crate host_c exports each of them to C.
#![tactic(auto)]

pub mod calls;
pub mod fill;
pub mod observe;
pub mod play;
