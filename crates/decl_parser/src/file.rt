// Reads compilation units (JLS 7.3).
ghost use Rattle.std.specs.Prelude.{[], List, IfOk, Ok};
ghost use Rattle.decl_grammar.specs.Reading.{Gives};
ghost use Rattle.decl_grammar.specs.Form.{maybe};
ghost use Rattle.decl_grammar.specs.Grammar.{package_form, ordinary, Ordinary};
ghost use Rattle.decl_grammar.specs.Rule.{reads};
ghost use Rattle.decl_parser.specs.FileShown.{ordinary_view};
ghost use Rattle.decl_grammar.specs.File.{IsPhrase, IsShallow, phrase_at, Found, Missed, BadAt, DeepAt};

use crate::placing::placed;
use crate::top_types::top_types_of;
use apt_base::List;
use decl_grammar::sorts::PACKAGE;
use decl_grammar::{NameAt, ParseFault, ReadFault, Symbol, TypeAt};
use decl_tree::Import;
use decl_types::package_of;
use decl_values::{imports_of, is_next, one};
use std::alloc::Global;

/// What a file declares: its package, its imports, and its types, with `None` for each `;` between them.
#[derive(Drop)]
pub struct OrdinaryFile {
    /// The name of its package, and none where it is in the unnamed one (JLS 7.4.2).
    pub package: Option<NameAt>,
    /// The imports, in the order in which they are written.
    pub imports: List<Import>,
    /// The types, in the order in which they are written.
    pub types: List<Option<TypeAt>>,
}

/// A package declaration, where there is one.
#[tactic(auto, using(decl_grammar::proofs::Firsts::package_form_first))]
pub fn optional_package_of<'a, 's>(
    alloc: Global,
    room: usize,
    symbols: &'s [Symbol<'a>],
) -> Result<(Option<NameAt>, &'s [Symbol<'a>]), ReadFault>
    ensures { Gives (λ x. (x.0, x.1.now)) result (reads room (maybe package_form) symbols.now) }
{
    if is_next(symbols, PACKAGE) {
        let (name, rest) = package_of(alloc, room, symbols)?;
        return Ok((Some(name), rest));
    }
    Ok((None, symbols))
}

// What the front of the symbols declares.
#[tactic(auto, unfolding(decl_grammar::specs::Grammar::ordinary))]
fn ordinary_of<'a, 's>(
    alloc: Global,
    room: usize,
    symbols: &'s [Symbol<'a>],
) -> Result<(OrdinaryFile, &'s [Symbol<'a>]), ReadFault>
    ensures { Gives (λ x. (ordinary_view x.0, x.1.now)) result (reads room ordinary symbols.now) }
{
    let (package, rest) = optional_package_of(alloc, room, symbols)?;
    let (imports, rest) = imports_of(alloc, room, rest)?;
    let imports = List::from_vec(imports);
    let (types, rest) = top_types_of(alloc, room, rest)?;
    let types = List::from_vec(types);
    Ok((
        OrdinaryFile {
            package,
            imports,
            types,
        },
        rest,
    ))
}

// What all of the symbols declare.
fn whole_ordinary<'a, 's>(
    alloc: Global,
    room: usize,
    symbols: &'s [Symbol<'a>],
) -> Result<OrdinaryFile, ReadFault>
    ensures { Gives (λ f. (ordinary_view f, [])) result (phrase_at room ordinary symbols.now) }
{
    let (file, rest) = ordinary_of(alloc, room, symbols)?;
    if !rest.is_empty() {
        return Err(ReadFault::Bad(rest.len()));
    }
    Ok(file)
}

/// The declarations of an ordinary compilation unit, in which no more than `room` nested types, lists of type arguments and values are open at once.
pub fn parse_ordinary<'a, 's>(
    alloc: Global,
    room: usize,
    symbols: &'s [Symbol<'a>],
) -> Result<OrdinaryFile, ParseFault>
    // What is read is in the grammar, and means this.
    ensures found { Found ordinary ordinary_view symbols.now result }

    // What is in the grammar is read, unless it is too deep or memory runs out.
    ensures only { (x : Ordinary) → IsPhrase ordinary symbols.now x → Missed ordinary_view x result }

    // At no symbol of what is read is more open than is allowed.
    ensures shallow { IfOk result (λ file. IsShallow ordinary room symbols.now) }

    // The first fault, and where too much is open first.
    ensures bad { BadAt ordinary room symbols.now result }
    ensures deep { DeepAt ordinary room symbols.now result }
{
    match whole_ordinary(alloc, room, symbols) {
        Ok(file) => Ok(file),
        Err(fault) => Err(placed(fault, symbols)),
    }
}
