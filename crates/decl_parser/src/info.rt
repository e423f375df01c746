// Reads files `package-info.java` (JLS 7.4.1).
ghost use Rattle.std.specs.Prelude.{◌≡◌, [], ◌∷◌, ◌++◌, List, IfOk, Ok};
ghost use Rattle.decl_grammar.specs.Reading.{Gives, starts};
ghost use Rattle.decl_grammar.specs.Form.{ats, many, turned};
ghost use Rattle.decl_grammar.specs.Types.{silently};
ghost use Rattle.decl_grammar.specs.Grammar.{package_part, annotated_package, semicolon, package_info, Info};
ghost use Rattle.decl_grammar.specs.Rule.{reads};
ghost use Rattle.decl_parser.specs.FileShown.{package_view, package_seen, package_or_none, info_view};
ghost use Rattle.decl_grammar.specs.File.{IsPhrase, IsShallow, phrase_at, Found, Missed, BadAt, DeepAt};

use crate::info_file::{InfoFile, PackageText};
use crate::placing::placed;
use apt_base::List;
use decl_grammar::sorts::{PACKAGE, SEMICOLON};
use decl_grammar::{NameAt, ParseFault, ReadFault, Symbol};
use decl_tree::AnnotationText;
use decl_types::package_of;
use decl_values::{annotations_of, begin, doc_before, imports_of, is_next, one, starts_annotation};
use std::alloc::Global;

// Annotations and a package declaration.
#[tactic(auto, unfolding(decl_grammar::specs::Grammar::package_part))]
fn package_part_of<'a, 's>(
    alloc: Global,
    room: usize,
    symbols: &'s [Symbol<'a>],
) -> Result<((List<AnnotationText>, NameAt), &'s [Symbol<'a>]), ReadFault>
    ensures { Gives (λ x. (x.0, x.1.now)) result (reads room package_part symbols.now) }
{
    let (annotations, rest) = annotations_of(alloc, room, symbols)?;
    let annotations = List::from_vec(annotations);
    let (name, rest) = package_of(alloc, room, rest)?;
    Ok(((annotations, name), rest))
}

// The same with its doc comment.
#[tactic(auto, unfolding(decl_grammar::specs::Grammar::annotated_package))]
fn annotated_package_of<'a, 's>(
    alloc: Global,
    room: usize,
    symbols: &'s [Symbol<'a>],
) -> Result<(PackageText, &'s [Symbol<'a>]), ReadFault>
    ensures { Gives (λ x. (package_view x.0, x.1.now)) result (reads room annotated_package symbols.now) }
{
    let ((annotations, name), rest) = package_part_of(alloc, room, symbols)?;
    let doc = doc_before(alloc, &symbols[..symbols.len() - rest.len()])?;
    Ok((
        PackageText {
            doc,
            annotations,
            name,
        },
        rest,
    ))
}

// Whether a package declaration begins here, or an annotation before one.
fn starts_package(symbols: &[Symbol<'_>]) -> bool
    ensures { result ≡ starts (ats ++ (PACKAGE ∷ [])) symbols.now }
{
    starts_annotation(symbols) || is_next(symbols, PACKAGE)
}

// A package declaration with annotations, where there is one.
#[tactic(auto, using(decl_grammar::proofs::Firsts::annotated_package_first))]
fn optional_package_of<'a, 's>(
    alloc: Global,
    room: usize,
    symbols: &'s [Symbol<'a>],
) -> Result<(Option<PackageText>, &'s [Symbol<'a>]), ReadFault>
    ensures { Gives (λ x. (package_seen x.0, x.1.now)) result (reads room package_or_none symbols.now) }
{
    if starts_package(symbols) {
        let (text, rest) = annotated_package_of(alloc, room, symbols)?;
        return Ok((Some(text), rest));
    }
    Ok((None, symbols))
}

// A `;`.
#[tactic(auto, unfolding(decl_grammar::specs::Grammar::semicolon))]
fn semicolon_of<'a, 's>(
    room: usize,
    symbols: &'s [Symbol<'a>],
) -> Result<(&'s Symbol<'a>, &'s [Symbol<'a>]), ReadFault>
    ensures { Gives (λ x. (x.0.now, x.1.now)) result (reads room semicolon symbols.now) }
{
    one(symbols, SEMICOLON)
}

// What is behind the semicolons that stand here.
fn semicolons_of<'a, 's>(
    room: usize,
    symbols: &'s [Symbol<'a>],
) -> Result<&'s [Symbol<'a>], ReadFault>
    ensures { Gives (λ x. (tt, x.now)) result (turned silently (reads room (many semicolon) symbols.now)) }
{
    let mut rest = begin(symbols)?;
    'row: while is_next(rest, SEMICOLON) {
        let (_, after) = semicolon_of(room, rest)?;
        rest = after;
    }
    Ok(rest)
}

// What the front of the symbols declares.
#[tactic(auto, unfolding(decl_grammar::specs::Grammar::package_info))]
fn info_of<'a, 's>(
    alloc: Global,
    room: usize,
    symbols: &'s [Symbol<'a>],
) -> Result<(InfoFile, &'s [Symbol<'a>]), ReadFault>
    ensures { Gives (λ x. (info_view x.0, x.1.now)) result (reads room package_info symbols.now) }
{
    let (package, rest) = optional_package_of(alloc, room, symbols)?;
    let (imports, rest) = imports_of(alloc, room, rest)?;
    let imports = List::from_vec(imports);
    let rest = semicolons_of(room, rest)?;
    Ok((InfoFile { package, imports }, rest))
}

// What all of the symbols declare.
fn whole_info<'a, 's>(
    alloc: Global,
    room: usize,
    symbols: &'s [Symbol<'a>],
) -> Result<InfoFile, ReadFault>
    ensures { Gives (λ f. (info_view f, [])) result (phrase_at room package_info symbols.now) }
{
    let (file, rest) = info_of(alloc, room, symbols)?;
    if !rest.is_empty() {
        return Err(ReadFault::Bad(rest.len()));
    }
    Ok(file)
}

/// What a file `package-info.java` declares, in whose annotations no more than `room` values are open at once.
pub fn parse_info<'a, 's>(
    alloc: Global,
    room: usize,
    symbols: &'s [Symbol<'a>],
) -> Result<InfoFile, ParseFault>
    // What is read is in the grammar, and means this.
    ensures found { Found package_info info_view symbols.now result }

    // What is in the grammar is read, unless it is too deep or memory runs out.
    ensures only { (x : Info) → IsPhrase package_info symbols.now x → Missed info_view x result }

    // At no symbol of what is read is more open than is allowed.
    ensures shallow { IfOk result (λ file. IsShallow package_info room symbols.now) }

    // The first fault, and where too much is open first.
    ensures bad { BadAt package_info room symbols.now result }
    ensures deep { DeepAt package_info room symbols.now result }
{
    match whole_info(alloc, room, symbols) {
        Ok(file) => Ok(file),
        Err(fault) => Err(placed(fault, symbols)),
    }
}
