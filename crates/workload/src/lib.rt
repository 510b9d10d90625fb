//! Workloads on threads: workers that count on one object of a cluster, and what became of their requests; and loads that are measured.
//!
//! Workers over one cluster of three daemons and four groups, each with a pass on a thread of its own: 50 additions by a user who
//! may, ten appends by one who may not, and a turn of work after each. Meanwhile the monitor takes a daemon down and up, where
//! that is asked for. The world that they leave is settled, and a `Tally` counts what became of the requests. `osdgate threads`
//! prints it. Other loads (`Load`) are measured: requests on objects of each worker's own, verdicts, and views while the map
//! changes.
#![tactic(auto)]

mod asking;
mod fault;
mod load;
mod measured;
mod moving;
mod one_thread;
mod scenario;
mod settling;
mod tally;
mod team;
mod worker;

pub use cluster::ClusterFault;
pub use fault::WorkloadFault;
pub use load::Load;
pub use measured::run_load;
pub use one_thread::run_requests;
pub use scenario::{run_workload, world_of_workload};
pub use tally::Tally;
