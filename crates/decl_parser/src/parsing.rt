// Reads files: their units with the lines of the elements, or why there are none.
ghost use Rattle.std.specs.Prelude.{◌≡◌, ◌≤◌, ℕ, Err, length, take};
ghost use Rattle.apt_base.specs.Limits.{max_file_bytes};
ghost use Rattle.decl_parser.specs.FileShown.{info_view, ordinary_view};
ghost use Rattle.decl_grammar.specs.Grammar.{ordinary, package_info};
ghost use Rattle.decl_grammar.specs.File.{BeginsPhrase};
ghost use Rattle.decl_limits.specs.Texts.{AreTexts};
ghost use Rattle.decl_limits.specs.Limits.{IsWhole, AreLegal, IsLegalInfo};
ghost use Rattle.decl_grammar.specs.SymbolReading.{HasGathered};
ghost use Rattle.decl_parser.specs.Fronts.{SettlesSymbols};
ghost use Rattle.decl_parser.specs.Parsed.{offset_at, is_info, fault_of, HasFaultAt, IsDeepAt, GivesNamed, GivesNamedInfo, UnlessCrowded, AnswersOrdinary, AnswersInfo, AnswersSymbols, AnswersChars, AnswersFile};

use crate::file::{OrdinaryFile, parse_ordinary};
use crate::fronts::limit_passed;
use crate::info::parse_info;
use crate::info_file::InfoFile;
use crate::naming::{is_file_named, is_info_named};
use crate::units::{info_declared, ordinary_declared};
use apt_base::{List, MAX_DEPTH, What};
use decl_children::is_crowded;
use decl_grammar::{Lines, ParseFault, Symbol, SymbolReader};
use decl_tree::Unit;
use java_tokens::{Chars, TextFault, read_chars};
use std::alloc::Global;

// How many symbols of a file are read before they are first looked at for a limit that they pass.
const FIRST_SYMBOLS: usize = 4_096;

/// The units of a file, and for each the lines of its elements, in the same order.
#[derive(Drop)]
pub struct Parsed {
    pub units: List<Unit>,
    pub lines: List<Lines>,
}

/// Why a file gives no units.
#[derive(Clone, Copy, Debug, PartialEq, Eq)]
pub enum FileFault {
    /// No file begins so, from this offset on: that of the first character that can't be read, of the first token that is none, or of the first token that begins no compilation unit
    /// with those before it; or the length of the file where all tokens together begin one.
    Bad { place: u32 },
    /// It passes this limit first: Depth, Children or Name.
    TooLarge { what: What },
    /// Memory ran out.
    Memory,
}

// The offset of the symbol with this number, or the length of the file.
fn place_of(symbols: &[Symbol<'_>], number: usize, end: u32) -> u32
    ensures { result ≡ offset_at number symbols.now end }
{
    match symbols.get(number) {
        Some(symbol) => symbol.start,
        None => end,
    }
}

// The symbols before the one with this number.
fn front_of<'a, 's>(symbols: &'s [Symbol<'a>], number: usize) -> &'s [Symbol<'a>]
    ensures { result.now ≡ take number symbols.now }
{
    if number < symbols.len() {
        return &symbols[..number];
    }
    symbols
}

// A fault, unless a child list is too long in the symbols before it.
fn unless_crowded(alloc: Global, before: &[Symbol<'_>], fault: FileFault) -> FileFault
    requires { (n : ℕ) × BeginsPhrase ordinary before.now n }
    ensures { UnlessCrowded before.now fault result }
{
    match is_crowded(alloc, before) {
        Ok(true) => FileFault::TooLarge {
            what: What::Children,
        },
        Ok(false) => fault,
        Err(_) => FileFault::Memory,
    }
}

/// What an ordinary compilation unit comes to whose first fault is at the symbol with this number, or at its
/// end: `Bad` with the offset of that symbol, or the length of the file; but `TooLarge` with Children where a
/// child list is too long before that, and `Memory` where counting the children was out of memory.
pub fn bad_ordinary(alloc: Global, symbols: &[Symbol<'_>], number: usize, end: u32) -> FileFault
    requires { HasFaultAt ordinary number symbols.now }
    ensures { AnswersOrdinary end symbols.now (Err result) }
{
    let place = place_of(symbols, number, end);
    unless_crowded(alloc, front_of(symbols, number), FileFault::Bad { place })
}

/// What an ordinary compilation unit comes to in which too much is open at the symbol with this number, and
/// not before: `TooLarge` with Depth; but with Children where a child list is too long before that, and
/// `Memory` where counting the children was out of memory.
pub fn deep_ordinary(alloc: Global, symbols: &[Symbol<'_>], number: usize, end: u32) -> FileFault
    requires { IsDeepAt ordinary number symbols.now }
    ensures { AnswersOrdinary end symbols.now (Err result) }
{
    let fault = FileFault::TooLarge { what: What::Depth };
    unless_crowded(alloc, front_of(symbols, number), fault)
}

// The units of a file that was read, unless a name in it is too long.
fn named_units(alloc: Global, file: OrdinaryFile) -> Result<Parsed, FileFault>
    requires { AreLegal (ordinary_view file) }
    ensures { GivesNamed (ordinary_view file) result }
{
    let named = is_file_named(&file);
    if !named {
        return Err(FileFault::TooLarge { what: What::Name });
    }
    match ordinary_declared(alloc, file) {
        Ok((units, lines)) => Ok(Parsed { units, lines }),
        Err(_) => Err(FileFault::Memory),
    }
}

// What an ordinary compilation unit that was read comes to.
fn whole_ordinary(
    alloc: Global,
    symbols: &[Symbol<'_>],
    file: OrdinaryFile,
    end: u32,
) -> Result<Parsed, FileFault>
    requires texts { AreTexts symbols.now }
    requires whole { IsWhole ordinary symbols.now (ordinary_view file) }
    ensures { AnswersOrdinary end symbols.now result }
{
    match is_crowded(alloc, symbols) {
        Ok(true) => Err(FileFault::TooLarge {
            what: What::Children,
        }),
        Ok(false) => named_units(alloc, file),
        Err(_) => Err(FileFault::Memory),
    }
}

// What the symbols of an ordinary compilation unit come to.
fn ordinary_of_symbols(alloc: Global, symbols: &[Symbol<'_>], end: u32) -> Result<Parsed, FileFault>
    requires { AreTexts symbols.now }
    ensures { AnswersOrdinary end symbols.now result }
{
    match parse_ordinary(alloc, MAX_DEPTH, symbols) {
        Ok(file) => whole_ordinary(alloc, symbols, file, end),
        Err(ParseFault::Bad { place }) => Err(bad_ordinary(alloc, symbols, place, end)),
        Err(ParseFault::Deep { place }) => Err(deep_ordinary(alloc, symbols, place, end)),
        Err(ParseFault::Memory) => Err(FileFault::Memory),
    }
}

// The unit of a file `package-info.java` that was read, unless the name of its package is too long.
fn named_info(alloc: Global, file: InfoFile) -> Result<Parsed, FileFault>
    requires { IsLegalInfo (info_view file) }
    ensures { GivesNamedInfo (info_view file) result }
{
    let named = is_info_named(&file);
    if !named {
        return Err(FileFault::TooLarge { what: What::Name });
    }
    match info_declared(alloc, file) {
        Ok((units, lines)) => Ok(Parsed { units, lines }),
        Err(_) => Err(FileFault::Memory),
    }
}

// What the first fault of the symbols of a file `package-info.java` comes to.
fn bad_info(symbols: &[Symbol<'_>], number: usize, end: u32) -> FileFault
    requires { HasFaultAt package_info number symbols.now }
    ensures { AnswersInfo end symbols.now (Err result) }
{
    FileFault::Bad {
        place: place_of(symbols, number, end),
    }
}

/// What a file `package-info.java` comes to in which too much is open at the symbol with this number, and not
/// before: `TooLarge` with Depth.
pub fn deep_info(symbols: &[Symbol<'_>], number: usize, end: u32) -> FileFault
    requires { IsDeepAt package_info number symbols.now }
    ensures { AnswersInfo end symbols.now (Err result) }
{
    FileFault::TooLarge { what: What::Depth }
}

// What the symbols of a file `package-info.java` come to.
fn info_of_symbols(alloc: Global, symbols: &[Symbol<'_>], end: u32) -> Result<Parsed, FileFault>
    requires { AreTexts symbols.now }
    ensures { AnswersInfo end symbols.now result }
{
    match parse_info(alloc, MAX_DEPTH, symbols) {
        Ok(file) => named_info(alloc, file),
        Err(ParseFault::Bad { place }) => Err(bad_info(symbols, place, end)),
        Err(ParseFault::Deep { place }) => Err(deep_info(symbols, place, end)),
        Err(ParseFault::Memory) => Err(FileFault::Memory),
    }
}

// Whether a path is that of a file `package-info.java`.
fn is_info_path(path: &str) -> bool
    ensures { result ≡ is_info path.now }
{
    if path == "package-info.java" {
        return true;
    }
    path.as_bytes().ends_with(b"/package-info.java")
}

// What the symbols of a file come to.
fn of_symbols(
    alloc: Global,
    info: bool,
    symbols: &[Symbol<'_>],
    end: u32,
) -> Result<Parsed, FileFault>
    requires { AreTexts symbols.now }
    ensures { AnswersSymbols info end symbols.now result }
{
    if info {
        return info_of_symbols(alloc, symbols, end);
    }
    ordinary_of_symbols(alloc, symbols, end)
}

// A fault of characters or tokens.
fn text_fault(fault: TextFault) -> FileFault
    ensures { result ≡ fault_of fault }
{
    match fault {
        TextFault::Bad { place } => FileFault::Bad { place },
        TextFault::Memory => FileFault::Memory,
    }
}

// What a file comes to for which the symbols that a reader has settle on `fault`, a limit or out of memory:
// `fault`, or `Bad` with the place of the first fault of its tokens, which comes before any limit. The rest
// of the file is read for that alone.
fn given_up(
    info: bool,
    chars: &Chars,
    reader: SymbolReader<'_>,
    fault: FileFault,
    end: u32,
) -> FileFault
    requires gathered { HasGathered chars.now reader }
    requires settled { SettlesSymbols info end reader.symbols.items fault }
    ensures { AnswersChars info end chars.now (Err result) }
{
    match reader.pass_rest() {
        Ok(()) => fault,
        Err(stop) => text_fault(stop),
    }
}

// What a file comes to, of which a reader has the first symbols. Whenever there are twice as many as before,
// they are looked at for a limit. Where that finds one, the file takes memory for at most about twice the
// symbols that pass it, and not for all that come after them.
fn of_reader(
    alloc: Global,
    info: bool,
    chars: &Chars,
    first: SymbolReader<'_>,
    end: u32,
) -> Result<Parsed, FileFault>
    requires { HasGathered chars.now first }
    ensures { AnswersChars info end chars.now result }
{
    let mut reader = first;
    let mut count = FIRST_SYMBOLS;
    'part: loop {
        let further = match reader.read_to(count) {
            Ok(further) => further,
            Err(stop) => return Err(text_fault(stop)),
        };
        if further.has_ended() {
            return of_symbols(alloc, info, further.front(), end);
        }
        if let Some(fault) = limit_passed(alloc, info, further.front(), end) {
            return Err(given_up(info, chars, further, fault, end));
        }
        // (not reached: no memory holds more symbols than can be counted)
        let Some(twice) = count.checked_mul(2) else {
            return Err(FileFault::Memory);
        };
        reader = further;
        count = twice;
    }
}

// What the characters of a file come to.
fn of_chars(alloc: Global, info: bool, chars: &Chars, end: u32) -> Result<Parsed, FileFault>
    ensures { AnswersChars info end chars.now result }
{
    match SymbolReader::new(alloc, chars) {
        Ok(reader) => of_reader(alloc, info, chars, reader, end),
        Err(stop) => Err(text_fault(stop)),
    }
}

/// The units of a file (JLS 7.3), or of a file `package-info.java` (JLS 7.4.1) where the path says so; or `Bad` with the offset of its first fault; or `TooLarge` with the limit that it passes
/// first: Depth where more than 200 nested types, lists of type arguments and values are open at a token, Children where a child list has more than 65,535 items at one, both in the order of the tokens
/// and before the first fault alone, and Name, in a file that has a reading, where the canonical name of its package or of a type has more than 1,024 bytes. `Memory` comes only when memory runs out.
pub fn parse(alloc: Global, path: &str, bytes: &[u8]) -> Result<Parsed, FileFault>
    requires { length bytes.now ≤ max_file_bytes }
    ensures { AnswersFile path.now bytes.now result }
{
    let end = bytes.len() as u32;
    let info = is_info_path(path);
    match read_chars(alloc, bytes) {
        Ok(chars) => of_chars(alloc, info, &chars, end),
        Err(fault) => Err(text_fault(fault)),
    }
}
