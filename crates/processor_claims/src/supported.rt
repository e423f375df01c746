// What a processor supports.
ghost use Rattle.std.specs.Prelude.{◌≡◌, IfOk};
ghost use Rattle.processor_claims.specs.Patterns.{supports, supports_all};

use crate::Pattern;
use apt_base::{Claim, List, Name, NoMemory};
use std::alloc::Global;

/// What a processor said of itself: which names it supports, and whether it claims what it is offered.
#[derive(Drop)]
pub struct Supported {
    /// The patterns of the names that it supports.
    pub patterns: List<Pattern>,
    /// Whether it claims always, never, or as it answers each time.
    pub claim: Claim,
}

impl Supported {
    /// An equal value.
    pub fn copy(&self, alloc: Global) -> Result<Supported, NoMemory>
        ensures { IfOk result (λ supported. supported ≡ self.now) }
    {
        Ok(Supported {
            patterns: copy_patterns(alloc, self.patterns.as_slice())?,
            claim: self.claim,
        })
    }
}

fn copy_patterns(alloc: Global, patterns: &[Pattern]) -> Result<List<Pattern>, NoMemory>
    ensures { IfOk result (λ copies. copies ≡ patterns.now) }
{
    let mut copies = List::new(alloc);
    for pattern in patterns {
        copies.push(pattern.copy()?)?;
    }
    Ok(copies)
}

/// Whether one of the patterns matches the name.
pub(crate) fn supports(patterns: &[Pattern], name: &Name) -> bool
    ensures { result ≡ supports patterns.now name.now }
{
    patterns.iter().any(|pattern| pattern.matches(name))
}

/// Whether one of the patterns is `*`.
pub(crate) fn supports_all(patterns: &[Pattern]) -> bool
    ensures { result ≡ supports_all patterns.now }
{
    patterns.iter().any(|pattern| pattern.is_star())
}
