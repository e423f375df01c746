// The tokens of the characters of a file.
ghost use Rattle.std.specs.Prelude.{ℕ, List};
ghost use Rattle.java_tokens.specs.Tokens.{Lexeme, HasTokens};
ghost use Rattle.java_tokens.specs.TokensShown.{codes_in, offsets_in, AreTokensIn, IsTokenFaultIn, Lexes, LexesOnly, FaultsOnly};

use crate::token_reader::TokenReader;
use crate::{Chars, TextFault, Token};
use std::alloc::Global;

/// The tokens of these characters, or `Bad` with the offset in the file of the first token or separator at which no
/// list of them goes on. `Memory` comes only when memory runs out. The time is linear in the text, which no clause
/// says. Memory is taken for the list alone.
pub fn tokens<'a>(alloc: Global, chars: &'a Chars) -> Result<Vec<Token<'a>>, TextFault>
    ensures tokens { Lexes chars.now result }
    ensures list { (all : List Lexeme) → AreTokensIn chars.now all → LexesOnly all result }
    ensures decided { HasTokens (codes_in chars.now) (offsets_in chars.now) }
    ensures place { (place : ℕ) → IsTokenFaultIn chars.now place → FaultsOnly place result }
{
    let mut tokens = Vec::new(alloc);
    let mut reader = TokenReader::new(chars);
    'tokens: loop {
        match reader.next() {
            Ok(Some(token)) => tokens.push(token)?,
            Ok(None) => return Ok(tokens),
            Err(fault) => return Err(fault),
        }
    }
}
