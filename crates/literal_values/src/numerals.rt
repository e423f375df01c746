// Integer literals: the numbers that they spell, and their values within the limits of their types.
ghost use Rattle.std.specs.Prelude.{◌≡◌, ◌≤◌, ◌<◌, ◌+◌, ◌*◌, ◌∷◌, false, IfSome, option_map};
ghost use Rattle.std.specs.Int.{cast_signed, int_wrapping_neg};
ghost use Rattle.literal_values.specs.Numerals as numerals;
ghost use Rattle.literal_values.specs.NumeralParts.{shown, bounded, bounded_numeral, bound};

use type_mirror::WholeKind;

// A number that is greater is in no type, so that this one stands for it.
const BOUND: u128 = 1 << 64;

/// The radix in which an integer literal is written, and its number up to the bound.
#[derive(Clone, Copy)]
pub(crate) struct Numeral {
    pub(crate) radix: u32,
    pub(crate) number: u128,
}

fn digit_in(radix: u32, c: u8) -> Option<u128>
    requires lower_bound { 2 ≤ radix }
    requires upper_bound { radix ≤ 16 }
    ensures value { result ≡ numerals.digit_in radix c }
    ensures bound { IfSome result (λ digit. digit < 16) }
{
    match (c as char).to_digit(radix) {
        None => None,
        Some(digit) => Some(digit as u128),
    }
}

// The number with one more digit.
fn with_digit(radix: u32, number: u128, digit: u128) -> u128
    requires radix { radix ≤ 16 }
    requires number { number ≤ bound }
    requires digit { digit < 16 }
    ensures value { result ≡ bounded (number * radix + digit) }
    ensures bound { result ≤ bound }
{
    let more = number * radix as u128 + digit;
    if more < BOUND { more } else { BOUND }
}

// The number so far with more digits, and any `_` between them.
fn digits_from(radix: u32, first: u128, rest: &[u8]) -> Option<u128>
    requires lower_bound { 2 ≤ radix }
    requires upper_bound { radix ≤ 16 }
    requires first { first ≤ bound }
    ensures { result ≡ option_map bounded (numerals.digits_from radix first false rest.now) }
{
    let mut number = first;
    let mut wanted = false;
    for c in rest {
        if *c == b'_' {
            wanted = true;
            continue;
        }
        let digit = digit_in(radix, *c)?;
        number = with_digit(radix, number, digit);
        wanted = false;
    }
    if wanted { None } else { Some(number) }
}

/// The number that digits spell.
#[tactic(auto, unfolding(crate::specs::Numerals::digits_number))]
pub(crate) fn digits_number(radix: u32, digits: &[u8]) -> Option<u128>
    requires lower_bound { 2 ≤ radix }
    requires upper_bound { radix ≤ 16 }
    ensures { result ≡ option_map bounded (numerals.digits_number radix digits.now) }
{
    match digits {
        [] => None,
        [first, rest @ ..] => {
            let number = digit_in(radix, *first)?;
            digits_from(radix, number, rest)
        }
    }
}

fn numeral_in(radix: u32, digits: &[u8]) -> Option<Numeral>
    requires lower_bound { 2 ≤ radix }
    requires upper_bound { radix ≤ 16 }
    ensures { option_map shown result ≡ option_map bounded_numeral (numerals.numeral_in radix digits.now) }
{
    match digits_number(radix, digits) {
        None => None,
        Some(number) => Some(Numeral { radix, number }),
    }
}

// A literal of a 0 and more.
fn behind_zero(text: &[u8], second: u8, rest: &[u8]) -> Option<Numeral>
    requires { text.now ≡ 48 ∷ second ∷ rest.now }
    ensures { option_map shown result ≡ option_map bounded_numeral (numerals.behind_zero second rest.now) }
{
    match second {
        b'x' | b'X' => numeral_in(16, rest),
        b'b' | b'B' => numeral_in(2, rest),
        _ => numeral_in(8, text),
    }
}

#[tactic(auto, unfolding(crate::specs::Numerals::numeral_of))]
fn numeral_of(text: &[u8]) -> Option<Numeral>
    ensures { option_map shown result ≡ option_map bounded_numeral (numerals.numeral_of text.now) }
{
    match text {
        [first, second, rest @ ..] => {
            if *first == b'0' {
                behind_zero(text, *second, rest)
            } else {
                numeral_in(10, text)
            }
        }
        _ => numeral_in(10, text),
    }
}

// Whether an `l` or an `L` stands at the end.
#[tactic(auto, unfolding(crate::specs::Numerals::is_long))]
fn is_long(text: &[u8]) -> bool
    ensures { result ≡ numerals.is_long text.now }
{
    matches!(text.last(), Some(b'l' | b'L'))
}

/// The type of an integer literal.
pub(crate) fn whole_kind(text: &[u8]) -> WholeKind
    ensures { result ≡ numerals.whole_kind text.now }
{
    if is_long(text) {
        WholeKind::Long
    } else {
        WholeKind::Int
    }
}

/// The number of an integer literal, or `None` for what is none.
#[tactic(auto, unfolding(crate::specs::Numerals::integer_of))]
pub(crate) fn integer_of(text: &[u8]) -> Option<Numeral>
    ensures { option_map shown result ≡ option_map bounded_numeral (numerals.integer_of text.now) }
{
    if is_long(text) {
        numeral_of(&text[..text.len() - 1])
    } else {
        numeral_of(text)
    }
}

// One more than the greatest number of the type.
fn half(kind: WholeKind) -> u128
    ensures { result ≡ numerals.half kind }
{
    match kind {
        WholeKind::Int => 1 << 31,
        WholeKind::Long => 1 << 63,
    }
}

// The number in two's complement, by its bits.
fn signed(kind: WholeKind, bits: u128) -> i64
    requires { bits < 2 * numerals.half kind }
    ensures { result ≡ cast_signed (numerals.width_of kind) bits }
{
    match kind {
        WholeKind::Int => (bits as u32).cast_signed() as i64,
        WholeKind::Long => (bits as u64).cast_signed(),
    }
}

// The same number negated in its bits.
fn negated(kind: WholeKind, bits: u128) -> i64
    requires { bits < 2 * numerals.half kind }
    ensures { result ≡ int_wrapping_neg (numerals.width_of kind) (cast_signed (numerals.width_of kind) bits) }
{
    match kind {
        WholeKind::Int => (bits as u32).cast_signed().wrapping_neg() as i64,
        WholeKind::Long => (bits as u64).cast_signed().wrapping_neg(),
    }
}

/// The value of an integer literal of a type, or `None` where the type doesn't hold it.
#[tactic(auto, unfolding(crate::specs::Numerals::positive))]
pub(crate) fn positive(kind: WholeKind, of: Numeral) -> Option<i64>
    ensures { result ≡ numerals.positive kind (shown of) }
{
    if of.radix == 10 {
        if of.number < half(kind) {
            return Some(of.number as i64);
        }
        return None;
    }
    if of.number < 2 * half(kind) {
        return Some(signed(kind, of.number));
    }
    None
}

/// The value of one behind a `-`, in the same way.
#[tactic(auto, unfolding(crate::specs::Numerals::negative))]
pub(crate) fn negative(kind: WholeKind, of: Numeral) -> Option<i64>
    ensures { result ≡ numerals.negative kind (shown of) }
{
    if of.radix == 10 {
        if of.number <= half(kind) {
            return Some((-(of.number as i128)) as i64);
        }
        return None;
    }
    if of.number < 2 * half(kind) {
        return Some(negated(kind, of.number));
    }
    None
}
