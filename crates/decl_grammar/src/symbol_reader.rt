// Reads the symbols of a file part by part.
ghost use Rattle.decl_grammar.specs.SymbolList.{AreSymbols};
ghost use Rattle.decl_grammar.specs.SymbolReading.{IsReading, Reads, ReadsFurther, KeepsSymbols, HasEnough, PassesRest};
ghost use Rattle.std.specs.Prelude.{◌≡◌, is_none};

use crate::symbol::Symbol;
use crate::symbol_list::add_symbols;
use java_tokens::{Chars, TextFault, Token, TokenReader};
use std::alloc::Global;

/// Reads the symbols of a file part by part. They are made while the tokens are read, and at most two tokens
/// are held at a time.
#[derive(Drop)]
pub struct SymbolReader<'a> {
    /// Reads the tokens.
    pub tokens: TokenReader<'a>,
    /// The last token that was read. Its symbols depend on the next token and are not made yet. `None` where
    /// the file has ended.
    pub last: Option<Token<'a>>,
    /// The symbols of all tokens before `last`, or of the whole file where it has ended.
    pub symbols: Vec<Symbol<'a>>,
}

impl<'a> SymbolReader<'a> {
    /// A reader of these characters, which has read the first token, if there is one, and has no symbol yet.
    /// `Bad` is a fault at or before that token: it has the offset in the file of the first place where
    /// neither a token nor white space or a comment begins. It takes no memory, which no clause says.
    pub fn new(alloc: Global, chars: &'a Chars) -> Result<SymbolReader<'a>, TextFault>
        ensures { Reads chars.now result }
    {
        let symbols = Vec::new(alloc);
        let mut tokens = TokenReader::new(chars);
        let last = tokens.next()?;
        Ok(SymbolReader {
            tokens,
            last,
            symbols,
        })
    }

    /// The symbols that were read so far: the first ones of the file.
    pub fn front(&self) -> &[Symbol<'a>]
        ensures { result.now ≡ self.now.symbols.items }
    {
        self.symbols.as_slice()
    }

    /// Whether the file has ended, so that `front` has all its symbols.
    pub fn has_ended(&self) -> bool
        ensures { result ≡ is_none self.now.last }
    {
        self.last.is_none()
    }

    /// The reader with at least `count` symbols, or with all symbols of the file where there are fewer. Those
    /// that it had stay the first ones. `Bad` is a fault of the tokens that are read on the way: it has the
    /// offset in the file of the first place where neither a token nor white space or a comment begins.
    /// `Memory` is returned when it is out of memory.
    pub fn read_to(self, count: usize) -> Result<SymbolReader<'a>, TextFault>
        requires { IsReading self }
        ensures further { ReadsFurther self.entry result }
        ensures kept { KeepsSymbols self.entry result }
        ensures enough { HasEnough count result }
    {
        let SymbolReader {
            tokens,
            last: first,
            symbols,
        } = self;
        let mut reader = tokens;
        let mut last = first;
        let mut all = symbols;
        'row: while let Some(token) = last {
            if all.len() >= count {
                return Ok(SymbolReader {
                    tokens: reader,
                    last,
                    symbols: all,
                });
            }
            let next = reader.next()?;
            add_symbols(&mut all, &token, &next)?;
            last = next;
        }
        Ok(SymbolReader {
            tokens: reader,
            last,
            symbols: all,
        })
    }

    /// Reads the rest of the tokens only to see whether they have a fault, and makes no symbols. `Bad` is
    /// that fault: it has the offset in the file of the first place where neither a token nor white space or
    /// a comment begins. It takes no memory, which no clause says.
    pub fn pass_rest(self) -> Result<(), TextFault>
        requires { IsReading self }
        ensures { PassesRest self.entry result }
    {
        let SymbolReader {
            tokens,
            last: first,
            ..
        } = self;
        let mut reader = tokens;
        let mut last = first;
        'row: while let Some(_) = last {
            let next = reader.next()?;
            last = next;
        }
        Ok(())
    }
}

/// The symbols of a file. They are made while the tokens are read, and at most two tokens are held at a time.
/// `Bad` has the offset in the file of the first place where neither a token nor white space or a comment
/// begins. `Memory` is returned when it is out of memory.
pub fn symbols<'a>(alloc: Global, chars: &'a Chars) -> Result<Vec<Symbol<'a>>, TextFault>
    ensures { AreSymbols chars.now result }
{
    let begun = SymbolReader::new(alloc, chars)?;
    let ended = begun.read_to(usize::MAX)?;
    let SymbolReader { last, symbols, .. } = ended;
    match last {
        None => Ok(symbols),
        // No memory holds more symbols than can be counted.
        Some(_) => Err(TextFault::Memory),
    }
}
