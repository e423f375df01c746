// Looks at the first symbols of a file for a limit that the file passes, whatever symbols come after them.
ghost use Rattle.std.specs.Prelude.{◌≡◌, IfSome};
ghost use Rattle.decl_parser.specs.Fronts.{SettlesOrdinary, SettlesInfo, SettlesSymbols, IsSettled};

use crate::file::parse_ordinary;
use crate::info::parse_info;
use crate::parsing::{FileFault, bad_ordinary, deep_info, deep_ordinary};
use apt_base::{MAX_CHILDREN, MAX_DEPTH, NoMemory};
use decl_grammar::sorts::{
    CLOSE_BRACE, CLOSE_PARENTHESIS, GREATER_THAN, LESS_THAN, OPEN_BRACE, OPEN_PARENTHESIS,
    SEMICOLON,
};
use decl_grammar::{ParseFault, Symbol};
use decl_limits::most_separators;
use std::alloc::Global;

/// How many brackets are open between two symbols. It serves a guess alone: no contract depends on it.
#[derive(Drop)]
struct Brackets {
    /// Parentheses and braces.
    paired: usize,
    /// `<` without its `>`. None of them is taken to be open after a `;` or a brace, since a `<` may also
    /// have been an operator.
    angles: usize,
    /// The most that were open at once.
    most: usize,
}

impl Brackets {
    // Counts one symbol more.
    fn pass(&mut self, symbol: &Symbol<'_>) {
        match symbol.sort {
            OPEN_PARENTHESIS => self.paired = self.paired.saturating_add(1),
            CLOSE_PARENTHESIS => self.paired = self.paired.saturating_sub(1),
            LESS_THAN => self.angles = self.angles.saturating_add(1),
            GREATER_THAN => self.angles = self.angles.saturating_sub(1),
            OPEN_BRACE => {
                self.paired = self.paired.saturating_add(1);
                self.angles = 0;
            }
            CLOSE_BRACE => {
                self.paired = self.paired.saturating_sub(1);
                self.angles = 0;
            }
            SEMICOLON => self.angles = 0,
            _ => {}
        }
        self.most = self.most.max(self.paired.saturating_add(self.angles));
    }
}

// The most brackets that are open at once within these symbols.
fn most_open(symbols: &[Symbol<'_>]) -> usize {
    let mut brackets = Brackets {
        paired: 0,
        angles: 0,
        most: 0,
    };
    for symbol in symbols {
        brackets.pass(symbol);
    }
    brackets.most
}

// Whether these symbols may pass a limit; or out of memory. It is a guess, on which no contract depends.
// Where it wrongly says yes, the symbols are parsed once more than need be; where it wrongly says no, the
// limit is found later, at the latest when all symbols of the file have been read.
fn may_pass(alloc: Global, symbols: &[Symbol<'_>]) -> Result<bool, NoMemory> {
    if most_open(symbols) >= MAX_DEPTH {
        return Ok(true);
    }
    let most = most_separators(alloc, symbols)?;
    Ok(most > MAX_CHILDREN / 2)
}

// What symbols that are still to come can't change: a limit, or out of memory. `None` for the place of a
// fault.
fn settled(fault: FileFault) -> Option<FileFault>
    ensures { IfSome result (IsSettled fault) }
{
    match fault {
        FileFault::Bad { .. } => None,
        FileFault::TooLarge { what } => Some(FileFault::TooLarge { what }),
        FileFault::Memory => Some(FileFault::Memory),
    }
}

// The limit that an ordinary compilation unit passes in these first symbols: `TooLarge` with Depth or
// Children. `Memory` where looking for it was out of memory, and `None` where none was found.
fn ordinary_limit(alloc: Global, symbols: &[Symbol<'_>], end: u32) -> Option<FileFault>
    ensures { IfSome result (SettlesOrdinary end symbols.now) }
{
    match parse_ordinary(alloc, MAX_DEPTH, symbols) {
        Ok(file) => {
            drop(file);
            None
        }
        Err(ParseFault::Bad { place }) => settled(bad_ordinary(alloc, symbols, place, end)),
        Err(ParseFault::Deep { place }) => Some(deep_ordinary(alloc, symbols, place, end)),
        Err(ParseFault::Memory) => Some(FileFault::Memory),
    }
}

// The limit that a file `package-info.java` passes in these first symbols, which can only be Depth: nothing
// in such a file has children. `Memory` where looking for it was out of memory, and `None` where none was
// found.
fn info_limit(alloc: Global, symbols: &[Symbol<'_>], end: u32) -> Option<FileFault>
    ensures { IfSome result (SettlesInfo end symbols.now) }
{
    match parse_info(alloc, MAX_DEPTH, symbols) {
        Ok(file) => {
            drop(file);
            None
        }
        Err(ParseFault::Bad { .. }) => None,
        Err(ParseFault::Deep { place }) => Some(deep_info(symbols, place, end)),
        Err(ParseFault::Memory) => Some(FileFault::Memory),
    }
}

// The same for a file of either kind: `info` says whether it is a file `package-info.java`.
fn limit_in(alloc: Global, info: bool, symbols: &[Symbol<'_>], end: u32) -> Option<FileFault>
    ensures { IfSome result (SettlesSymbols info end symbols.now) }
{
    if info {
        return info_limit(alloc, symbols, end);
    }
    ordinary_limit(alloc, symbols, end)
}

/// The limit that a file passes in these first symbols, whatever symbols come after them: `TooLarge` with
/// Depth or Children. `Memory` where looking for it was out of memory. `None` says nothing of the file: none
/// was found so far, and the file may still have a fault or pass a limit.
pub fn limit_passed(
    alloc: Global,
    info: bool,
    symbols: &[Symbol<'_>],
    end: u32,
) -> Option<FileFault>
    ensures { IfSome result (SettlesSymbols info end symbols.now) }
{
    match may_pass(alloc, symbols) {
        Ok(true) => limit_in(alloc, info, symbols, end),
        Ok(false) => None,
        Err(_) => Some(FileFault::Memory),
    }
}
