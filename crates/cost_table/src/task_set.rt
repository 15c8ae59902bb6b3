//! Tasks.

use flow_base::Name;

/// A task: it releases jobs, at least its period apart. All times are in one unit.
#[derive(Debug, Drop)]
pub struct Task {
    /// What it is called.
    pub name: Name,
    /// The most work of one job.
    pub cost: u32,
    /// The least time from one release to the next.
    pub period: u32,
    /// The time from its release in which a job is due.
    pub deadline: u32,
    /// The smaller number is the higher priority.
    pub priority: u32,
}
