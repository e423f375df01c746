// How many symbols separate within the same braces.
ghost use Rattle.std.specs.Prelude.{◌≡◌, ◌≤◌, IfOk};
ghost use Rattle.decl_limits.specs.Separators.{most_separators, one_more, entered, left_behind, scan_next};
ghost use Rattle.decl_limits.specs.ScansShown.{shown_counts, IsWithin};

use apt_base::NoMemory;
use decl_grammar::Symbol;
use decl_grammar::sorts::{CLOSE_BRACE, COMMA, OPEN_BRACE, SEMICOLON};
use std::alloc::Global;

/// What is counted between two symbols.
#[derive(Drop)]
pub struct Counts {
    /// How many symbols separated so far within the innermost braces that are open.
    pub count: usize,
    /// How many did within each pair around these, the innermost last.
    pub around: Vec<usize>,
    /// The most that did within the same braces.
    pub most: usize,
}

impl Counts {
    // One more within the innermost braces.
    fn one_more(&mut self)
        requires { self.old.count ≤ 18446744073709551614 }
        ensures { shown_counts self.new ≡ one_more (shown_counts self.old) }
    {
        self.count += 1;
        if self.most < self.count {
            self.most = self.count;
        }
    }

    // Behind a `{`.
    fn enter(&mut self) -> Result<(), NoMemory>
        ensures { IfOk result (λ u. shown_counts self.new ≡ entered (shown_counts self.old)) }
    {
        self.around.push(self.count)?;
        self.count = 0;
        Ok(())
    }

    // Behind a `}`.
    fn leave(&mut self)
        requires { IsWithin 18446744073709551614 (shown_counts self.old) }
        ensures { shown_counts self.new ≡ left_behind (shown_counts self.old) }
    {
        if let Some(count) = self.around.pop() {
            self.count = count;
        }
        self.one_more();
    }

    // Behind one symbol more.
    fn pass(&mut self, symbol: &Symbol<'_>) -> Result<(), NoMemory>
        requires { IsWithin 18446744073709551614 (shown_counts self.old) }
        ensures { IfOk result (λ u. shown_counts self.new ≡ scan_next (shown_counts self.old) symbol.now) }
    {
        match symbol.sort {
            OPEN_BRACE => self.enter(),
            CLOSE_BRACE => {
                self.leave();
                Ok(())
            }
            SEMICOLON | COMMA => {
                self.one_more();
                Ok(())
            }
            _ => Ok(()),
        }
    }
}

/// The most of these symbols that are a `,`, a `;` or a `}` and stand directly within the same braces, where a `}` stands in what is around the braces that it closes, and the file counts
/// like braces around all. It takes memory for the braces that are open.
pub fn most_separators(alloc: Global, symbols: &[Symbol<'_>]) -> Result<usize, NoMemory>
    ensures { IfOk result (λ n. n ≡ most_separators symbols.now) }
{
    let mut counts = Counts {
        count: 0,
        around: Vec::new(alloc),
        most: 0,
    };
    for symbol in symbols {
        counts.pass(symbol)?;
    }
    Ok(counts.most)
}
