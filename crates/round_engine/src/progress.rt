// How far a run is.
use crate::rounds::PastRound;
use apt_base::List;
use apt_filer::{Filer, Placed};
use run_entries::Processed;

/// How far a run is, beside what its children were sent.
#[derive(Drop)]
pub(crate) struct Progress {
    /// For each processor, whether it was asked.
    pub contributed: Vec<bool>,
    /// What was created.
    pub filer: Filer,
    /// What was printed, in order of round, processor and number.
    pub messages: List<Placed>,
    /// What each processor did in each round in which it was asked, in order.
    pub processed: List<Processed>,
    /// The rounds that came to their end.
    pub past: List<PastRound>,
}
