// Patterns of the names that a processor supports.
ghost use Rattle.std.specs.Prelude.{◌≡◌, true, false, IfOk, IfNone, IfSome};
ghost use Rattle.apt_base.specs.Identifiers.{is_pattern, is_star};
ghost use Rattle.processor_claims.specs.Patterns.{matches};

use apt_base::{Name, NoMemory, is_pattern};
use std::marker::Model;

/// A pattern of names of annotation interfaces (JSR 269, `Processor.getSupportedAnnotationTypes`): a canonical name, a name and `.*`, or `*`. Contracts see it as the bytes of its text.
#[derive(Drop)]
pub struct Pattern {
    text: Name,
}

impl Model for Pattern {
    ghost use Rattle.std.specs.Prelude.{List, ℕ};

    ghost Value = { List ℕ };

    ghost view = { λ p. p.text };
}

impl Pattern {
    /// The pattern with this text, or `None` exactly where the text is none by `is_pattern`. It takes no memory.
    pub fn read(text: Name) -> Option<Pattern>
        ensures none { IfNone result (is_pattern text ≡ false) }
        ensures some { IfSome result (λ pattern. (is_pattern text ≡ true) × (pattern ≡ text)) }
    {
        if is_pattern(text.as_str()) {
            Some(Pattern { text })
        } else {
            None
        }
    }

    /// The text.
    pub fn as_str(&self) -> &str
        ensures { result.now ≡ self.now }
    {
        self.text.as_str()
    }

    /// Whether the pattern matches a name: `*` matches each name, `p.*` each name that begins with `p.`, and any other pattern itself alone. It takes no memory.
    #[tactic(auto, unfolding(crate::specs::Patterns::matches))]
    pub fn matches(&self, name: &Name) -> bool
        ensures { result ≡ matches self.now name.now }
    {
        let pattern = self.text.as_str().as_bytes();
        let name = name.as_str().as_bytes();
        match pattern.strip_suffix(b"*") {
            None => pattern == name,
            Some(front) => name.starts_with(front),
        }
    }

    /// Whether the pattern is `*`. It takes no memory.
    pub fn is_star(&self) -> bool
        ensures { result ≡ is_star self.now }
    {
        self.text.as_str() == "*"
    }

    /// An equal pattern.
    pub fn copy(&self) -> Result<Pattern, NoMemory>
        ensures { IfOk result (λ pattern. pattern ≡ self.now) }
    {
        Ok(Pattern {
            text: self.text.copy()?,
        })
    }
}
