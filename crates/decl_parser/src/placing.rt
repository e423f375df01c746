// The places of faults.
ghost use Rattle.std.specs.Prelude.{◌≡◌};
ghost use Rattle.decl_parser.specs.FaultPlaces.{IsAmong, placed_among};

use decl_grammar::{ParseFault, ReadFault, Symbol};

/// A fault of reading by its place among all symbols.
pub fn placed(fault: ReadFault, symbols: &[Symbol<'_>]) -> ParseFault
    requires { IsAmong symbols.now fault }
    ensures { result ≡ placed_among symbols.now fault }
{
    match fault {
        ReadFault::Bad(left) => ParseFault::Bad {
            place: symbols.len() - left,
        },
        ReadFault::Deep(left) => ParseFault::Deep {
            place: symbols.len() - left,
        },
        ReadFault::Memory => ParseFault::Memory,
    }
}
