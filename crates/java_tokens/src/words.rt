// The tables of reserved words and of operators (JLS 3.9, 3.11, 3.12).
ghost use Rattle.std.specs.Prelude.{◌≡◌};
ghost use Rattle.case_table.specs.Rows.{shown};
ghost use Rattle.java_tokens.specs.Words.{word_rows, operator_rows};

use apt_base::reserved_words;
use case_table::Cases;

static OPERATORS: [(&str, u8); 50] = [
    ("(", 0),
    (")", 1),
    ("{", 2),
    ("}", 3),
    ("[", 4),
    ("]", 5),
    (";", 6),
    (",", 7),
    (".", 8),
    ("...", 9),
    ("@", 10),
    ("::", 11),
    ("=", 12),
    (">", 13),
    ("<", 14),
    ("!", 15),
    ("~", 16),
    ("?", 17),
    (":", 18),
    ("->", 19),
    ("==", 20),
    (">=", 21),
    ("<=", 22),
    ("!=", 23),
    ("&&", 24),
    ("||", 25),
    ("++", 26),
    ("--", 27),
    ("+", 28),
    ("-", 29),
    ("*", 30),
    ("/", 31),
    ("&", 32),
    ("|", 33),
    ("^", 34),
    ("%", 35),
    ("<<", 36),
    (">>", 37),
    (">>>", 38),
    ("+=", 39),
    ("-=", 40),
    ("*=", 41),
    ("/=", 42),
    ("&=", 43),
    ("|=", 44),
    ("^=", 45),
    ("%=", 46),
    ("<<=", 47),
    (">>=", 48),
    (">>>=", 49),
];

/// The table of the keywords, numbered from 0 in the order of the alphabet, with `_` last (JLS 3.9), and behind them
/// `true`, `false` and `null` (JLS 3.10.3, 3.10.7).
pub fn word_table() -> Cases<'static>
    ensures { shown result.rows.now ≡ word_rows }
{
    match Cases::new(reserved_words()) {
        Some(cases) => cases,
        None => unreachable!(),
    }
}

/// The table of the separators and operators, numbered from 0 (JLS 3.11, 3.12).
pub fn operator_table() -> Cases<'static>
    ensures { shown result.rows.now ≡ operator_rows }
{
    match Cases::new(&OPERATORS) {
        Some(cases) => cases,
        None => unreachable!(),
    }
}
