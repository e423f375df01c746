//! The kinds of the processors that the program has itself, over sessions with a host.
//!
//! `local_procs` says what such a processor does as a plan, for every reply. `child_session` says what a session with a
//! child comes to, over the rounds that are shown to it. Here the two are put together: `specs/Kinds` says what an
//! isolating processor keeps to (Gradle, incremental annotation processing), `specs/Rounds` which rounds a host can
//! show, and `specs/Streams` which children answer as the processor does. The law is the contract of a function that
//! does nothing, and a caller has it by calling that function.
//!
//! Not promised: that the replies of a host are frames of the table of all frames, which is a premise; and that what is
//! given for a root hangs on its view alone.
#![tactic(auto)]

mod laws;

pub use laws::{built_in_kinds_hold, readers_hold, served_kinds_hold};
