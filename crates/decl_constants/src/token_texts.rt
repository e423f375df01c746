// The texts of tokens with spaces between them.
ghost use Rattle.std.specs.Prelude.{◌≡◌, ◌++◌, ◌+◌, IfOk, string_bytes};
ghost use Rattle.decl_grammar.specs.Constants.{spaced_one, spaced, joined};

use apt_base::{Name, NoMemory};
use decl_grammar::Symbol;
use std::alloc::Global;

// Puts the text of a token behind a text, with a space before it.
fn add_spaced(text: &mut String, symbol: &Symbol<'_>) -> Result<(), NoMemory>
    ensures { IfOk result (λ u. string_bytes text.new ≡ string_bytes text.old ++ spaced_one symbol.now) }
{
    if symbol.further {
        return Ok(());
    }
    text.push_str(" ")?;
    text.push_str(symbol.text.as_str())?;
    Ok(())
}

// The texts of the tokens behind a text, with a space before each.
fn spaced_behind(front: String, symbols: &[Symbol<'_>]) -> Result<String, NoMemory>
    ensures { IfOk result (λ t. string_bytes t ≡ string_bytes front ++ spaced symbols.now) }
{
    let mut text = front;
    let mut rest = symbols;
    'row: while let [symbol, after @ ..] = rest {
        add_spaced(&mut text, symbol)?;
        rest = after;
    }
    Ok(text)
}

/// The texts of the tokens, with a space between any two.
pub fn joined_text(alloc: Global, symbols: &[Symbol<'_>]) -> Result<Name, NoMemory>
    ensures { IfOk result (λ t. t ≡ joined symbols.now) }
{
    match symbols {
        [] => Name::new(alloc, ""),
        [first, rest @ ..] => {
            let front = String::from_str(alloc, first.text.as_str())?;
            let text = spaced_behind(front, rest)?;
            Ok(Name::from_string(alloc, text))
        }
    }
}
