// Reads primitive types (JLS 4.2).
ghost use Rattle.std.specs.Prelude.{◌≡◌};
ghost use Rattle.decl_grammar.specs.Reading.{Gives};
ghost use Rattle.decl_grammar.specs.Types.{primitive_type, kind_of_word};
ghost use Rattle.decl_grammar.specs.Rule.{reads};
ghost use Rattle.decl_grammar.specs.Constants.{primitive_of};

use decl_grammar::sorts::{BOOLEAN, BYTE, CHAR, DOUBLE, FLOAT, INT, LONG, SHORT};
use decl_grammar::{ReadFault, Symbol};
use decl_names::is_primitive;
use decl_tree::PrimitiveKind;

/// The primitive type that the word of this sort is (JLS 4.2).
pub fn primitive_of_sort(sort: u8) -> Option<PrimitiveKind>
    ensures { result ≡ primitive_of sort }
{
    if sort == BOOLEAN {
        return Some(PrimitiveKind::Boolean);
    }
    if sort == BYTE {
        return Some(PrimitiveKind::Byte);
    }
    if sort == SHORT {
        return Some(PrimitiveKind::Short);
    }
    if sort == INT {
        return Some(PrimitiveKind::Int);
    }
    if sort == LONG {
        return Some(PrimitiveKind::Long);
    }
    if sort == CHAR {
        return Some(PrimitiveKind::Char);
    }
    if sort == FLOAT {
        return Some(PrimitiveKind::Float);
    }
    if sort == DOUBLE {
        return Some(PrimitiveKind::Double);
    }
    None
}

// The primitive type of this sort.
fn kind_of_sort(sort: u8) -> PrimitiveKind
    ensures { result ≡ kind_of_word sort }
{
    match primitive_of_sort(sort) {
        Some(kind) => kind,
        None => PrimitiveKind::Void,
    }
}

/// A primitive type (JLS 4.2).
#[tactic(auto, unfolding(decl_grammar::specs::Types::primitive_type, decl_grammar::specs::Reading::one_at))]
pub fn primitive_type_of<'a, 's>(
    room: usize,
    symbols: &'s [Symbol<'a>],
) -> Result<(PrimitiveKind, &'s [Symbol<'a>]), ReadFault>
    ensures { Gives (λ x. (x.0, x.1.now)) result (reads room primitive_type symbols.now) }
{
    match symbols {
        [] => Err(ReadFault::Bad(0)),
        [symbol, rest @ ..] => {
            if is_primitive(symbol.sort) {
                return Ok((kind_of_sort(symbol.sort), rest));
            }
            Err(ReadFault::Bad(symbols.len()))
        }
    }
}
