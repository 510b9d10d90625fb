//! The access gate as calls for other languages: handles, requests as structs of pointers, and numbers as answers.
//!
//! The crate `gate_c` exports each of them to C under the name `sig_*`, with the same contract.
#![tactic(auto)]

mod answering;
mod buffers;
mod calls;
mod caps;
mod codes;
mod faults;
mod handle;
mod limited;
mod loose;
mod making;
mod reporting;
mod request;
mod shared;
mod widening;

pub use calls::{free, grant_count, judge, judge_all, judge_with, parse, report, share, text};
pub use faults::{SigFault, fault_name};
pub use handle::SigTicket;
pub use request::{SigApplication, SigCall, SigPair, SigRequest};
pub use widening::widens;
