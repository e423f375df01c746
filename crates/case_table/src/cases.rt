// Rows that are found by their texts and by their numbers.
ghost use Rattle.std.specs.Prelude.{◌≡◌, ◌<◌, ◌≤◌, length, MatchOption, is_some, slice_index, option_copied};
ghost use Rattle.case_table.specs.Rows.{text_at, number_at, key_of, HasText, LacksText, Clash, IsTable, is_table, number_of, text_of, shown};
ghost use Rattle.case_table.specs.Index.{IsIndexed, IsPlaced};

/// A table over rows, each a text with its number.
#[derive(Drop)]
pub struct Cases<'a> {
    /// The rows, in the order in which they were given.
    pub rows: &'a [(&'static str, u8)],
    // for each byte the end of the last row whose text begins with it, counted from 1
    heads: [usize; 256],
    // for the number of each row the end of the one before whose text begins with the same byte
    nexts: [usize; 256],
    // for each number the end of its row
    places: [usize; 256],
    ghost table: { IsTable rows.now },
    ghost indexed: { IsIndexed rows.now (length rows.now) heads nexts },
    ghost placed: { IsPlaced rows.now (length rows.now) places },
}

impl<'a> Cases<'a> {
    /// The table of these rows, and None exactly where two texts or two numbers are equal.
    pub fn new(rows: &'a [(&'static str, u8)]) -> Option<Cases<'a>>
        ensures rows { MatchOption result (Clash rows.entry.now) (λ cases. cases.rows.now ≡ rows.entry.now) }
        ensures test { is_some result ≡ is_table (shown rows.entry.now) }
    {
        let mut heads = [0; 256];
        let mut nexts = [0; 256];
        let mut places = [0; 256];
        for i in 0..rows.len() {
            let (text, number) = rows[i];
            if places[number as usize] > 0 {
                return None;
            }
            if place_of(rows, i, &heads, &nexts, text.as_bytes()).is_some() {
                return None;
            }
            let key = first_byte(text.as_bytes());
            nexts[number as usize] = heads[key];
            heads[key] = i + 1;
            places[number as usize] = i + 1;
        }
        Some(Cases {
            rows,
            heads,
            nexts,
            places,
        })
    }

    /// The number of a text, and None exactly where no row has it. The word is compared with the texts that begin with its first byte.
    pub fn find(&self, word: &[u8]) -> Option<u8>
        ensures { result ≡ number_of (shown self.now.rows.now) word.now }
    {
        let place = place_of(self.rows, self.rows.len(), &self.heads, &self.nexts, word)?;
        Some(self.rows[place].1)
    }

    /// The text of a number, in one step, and None exactly where no row has it.
    pub fn text(&self, number: u8) -> Option<&str>
        ensures { option_copied result ≡ text_of (shown self.now.rows.now) number }
    {
        let end = self.places[number as usize];
        if end > 0 {
            Some(self.rows[end - 1].0)
        } else {
            None
        }
    }
}

// The first byte, and 0 of an empty text.
fn first_byte(bytes: &[u8]) -> usize
    ensures key { result ≡ key_of bytes.now }
    ensures byte { result < 256 }
{
    if bytes.is_empty() {
        0
    } else {
        bytes[0] as usize
    }
}

// The place of a text among the first rows.
fn place_of(
    rows: &[(&'static str, u8)],
    count: usize,
    heads: &[usize; 256],
    nexts: &[usize; 256],
    word: &[u8],
) -> Option<usize>
    requires count { count ≤ length rows.now }
    requires indexed { IsIndexed rows.now count heads.now nexts.now }
    ensures { MatchOption result (LacksText rows.now count word.now) (HasText rows.now count word.now) }
{
    let mut end = heads[first_byte(word)];
    while end > 0 {
        let (text, number) = rows[end - 1];
        if text.as_bytes() == word {
            return Some(end - 1);
        }
        end = nexts[number as usize];
    }
    None
}
