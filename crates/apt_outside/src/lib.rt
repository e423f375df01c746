//! What stands outside the host: a tree of files, child programs, a source and a sink of bytes.
//!
//! Four traits say what the host may rely on, and implementations in memory serve replays and tests. Each object has a count of
//! its faults that never falls, and a call answers `Failed` only where that count rose in it; out of memory is no fault. An
//! object that tells its content (`tells`) says what each call read, wrote, sent or took, in the words of `specs/`: the files of a
//! tree by path (`Files`), what each child was sent and which of its bytes wait (`Child`), and bytes in order (`Stream`). An object
//! may also tell which of its calls are to fail (`Plan`; of children, which starts), and then it fails exactly there.
//!
//! Of an object that does not tell its content contracts say only how its count of faults changes; of children also how many
//! were started and which live. No file system, pipe or program is described here: that an implementation over real ones keeps
//! the traits' clauses is its own proof, as far as it goes. Nor is it promised that a child answers, or that a call takes
//! bounded time.
#![tactic(auto)]

mod children;
mod failing;
mod fault;
mod memory_stream;
mod memory_tree;
mod plain_tree;
mod script;
mod script_children;
mod scripting;
mod stream;
mod tree;

pub use children::Children;
pub use fault::{Fault, NoRoom};
pub use memory_stream::{MemorySink, MemorySource};
pub use memory_tree::MemoryTree;
pub use plain_tree::PlainTree;
pub use script::Script;
pub use script_children::ScriptChildren;
pub use stream::{Sink, Source};
pub use tree::Tree;
