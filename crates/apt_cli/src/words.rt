// The words that the program is called with.
use std::alloc::{AllocError, Global};
use std::env::{Env, FillError};

/// The words of a call, without the program's own name.
#[derive(Drop)]
pub enum Words {
    /// All of them.
    Whole(Vec<String>),
    /// Those before the first that is no UTF-8 text.
    Cut(Vec<String>),
}

/// The words, up to the first that is no text. The one error is out of memory.
pub fn read_words<E: Env>(alloc: Global, env: &E) -> Result<Words, AllocError> {
    let mut words = Vec::new(alloc);
    for place in 1..usize::MAX {
        let Some(bytes) = read_word(alloc, env, place)? else {
            break;
        };
        match String::from_utf8(bytes) {
            Ok(word) => words.push(word)?,
            Err(_) => return Ok(Words::Cut(words)),
        }
    }
    Ok(Words::Whole(words))
}

/// The bytes of one word; None past the last.
fn read_word<E: Env>(alloc: Global, env: &E, place: usize) -> Result<Option<Vec<u8>>, AllocError> {
    let mut bytes = Vec::new(alloc);
    for bits in 8..usize::BITS {
        bytes.resize(1 << bits, 0u8)?;
        match env.arg(place, &mut bytes) {
            Ok(length) => {
                bytes.truncate(length);
                return Ok(Some(bytes));
            }
            Err(FillError::NotPresent) => return Ok(None),
            Err(FillError::TooLong) => {}
        }
    }
    Err(AllocError)
}
