// Floating-point literals.
ghost use Rattle.std.specs.Prelude.{◌≡◌, ◌≤◌};
ghost use Rattle.std.specs.List.{position};
ghost use Rattle.literal_values.specs.Floating as floating;

use crate::numerals::digits_number;

fn dot_in(text: &[u8]) -> Option<usize>
    ensures { result ≡ position floating.is_dot text.now }
{
    text.iter().position(|c| *c == b'.')
}

fn letter_e_in(text: &[u8]) -> Option<usize>
    ensures { result ≡ position floating.is_letter_e text.now }
{
    text.iter().position(|c| *c == b'e' || *c == b'E')
}

fn letter_p_in(text: &[u8]) -> Option<usize>
    ensures { result ≡ position floating.is_letter_p text.now }
{
    text.iter().position(|c| *c == b'p' || *c == b'P')
}

fn is_digits(radix: u32, text: &[u8]) -> bool
    requires lower_bound { 2 ≤ radix }
    requires upper_bound { radix ≤ 16 }
    ensures { result ≡ floating.is_digits radix text.now }
{
    digits_number(radix, text).is_some()
}

fn may_be_digits(radix: u32, text: &[u8]) -> bool
    requires lower_bound { 2 ≤ radix }
    requires upper_bound { radix ≤ 16 }
    ensures { result ≡ floating.may_be_digits radix text.now }
{
    text.is_empty() || is_digits(radix, text)
}

// Digits on both sides of a dot, or on one side of it alone.
fn is_fraction(radix: u32, whole: &[u8], part: &[u8]) -> bool
    requires lower_bound { 2 ≤ radix }
    requires upper_bound { radix ≤ 16 }
    ensures { result ≡ floating.is_fraction radix whole.now part.now }
{
    may_be_digits(radix, whole)
        && may_be_digits(radix, part)
        && !(whole.is_empty() && part.is_empty())
}

#[tactic(auto, unfolding(crate::specs::Floating::is_significand))]
fn is_significand(radix: u32, text: &[u8]) -> bool
    requires lower_bound { 2 ≤ radix }
    requires upper_bound { radix ≤ 16 }
    ensures { result ≡ floating.is_significand radix text.now }
{
    match dot_in(text) {
        None => is_digits(radix, text),
        Some(dot) => is_fraction(radix, &text[..dot], &text[dot + 1..]),
    }
}

#[tactic(auto, unfolding(crate::specs::Floating::is_exponent))]
fn is_exponent(text: &[u8]) -> bool
    ensures { result ≡ floating.is_exponent text.now }
{
    match text {
        [] => false,
        [first, rest @ ..] => {
            if *first == b'+' || *first == b'-' {
                is_digits(10, rest)
            } else {
                is_digits(10, text)
            }
        }
    }
}

// A decimal one has an exponent, a suffix or a dot.
#[tactic(auto, unfolding(crate::specs::Floating::is_decimal))]
fn is_decimal(is_suffixed: bool, text: &[u8]) -> bool
    ensures { result ≡ floating.is_decimal is_suffixed text.now }
{
    match letter_e_in(text) {
        None => is_significand(10, text) && (is_suffixed || dot_in(text).is_some()),
        Some(letter) => is_significand(10, &text[..letter]) && is_exponent(&text[letter + 1..]),
    }
}

// Digits with an exponent.
fn has_exponent(digits: &[u8]) -> bool
    ensures { result ≡ floating.is_hexadecimal_at digits.now (position floating.is_letter_p digits.now) }
{
    match letter_p_in(digits) {
        None => false,
        Some(letter) => is_significand(16, &digits[..letter]) && is_exponent(&digits[letter + 1..]),
    }
}

#[tactic(auto, unfolding(crate::specs::Floating::is_hexadecimal))]
fn is_hexadecimal(text: &[u8]) -> bool
    ensures { result ≡ floating.is_hexadecimal text.now }
{
    match text {
        [first, second, rest @ ..] => {
            *first == b'0' && (*second == b'x' || *second == b'X') && has_exponent(rest)
        }
        _ => false,
    }
}

#[tactic(auto, unfolding(crate::specs::Floating::is_suffixed))]
fn is_suffixed(text: &[u8]) -> bool
    ensures { result ≡ floating.is_suffixed text.now }
{
    matches!(text.last(), Some(b'f' | b'F' | b'd' | b'D'))
}

fn without_suffix(text: &[u8]) -> &[u8]
    ensures { result.now ≡ floating.without_suffix text.now }
{
    if is_suffixed(text) {
        &text[..text.len() - 1]
    } else {
        text
    }
}

/// Whether what is no integer literal is a floating-point literal.
#[tactic(auto, unfolding(crate::specs::Floating::is_floating))]
pub(crate) fn is_floating(text: &[u8]) -> bool
    ensures { result ≡ floating.is_floating text.now }
{
    let digits = without_suffix(text);
    is_decimal(is_suffixed(text), digits) || is_hexadecimal(digits)
}
