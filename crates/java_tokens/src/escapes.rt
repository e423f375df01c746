// Reads Unicode escapes (JLS 3.3).
ghost use Rattle.std.specs.Prelude.{◌≡◌, ◌==◌, ◌<◌, ◌≤◌, length, take_while, MatchOption, IfSome};
ghost use Rattle.java_tokens.specs.Escapes.{IsHex, NotHex, HasEscape, NoEscape};

/// A value that an escape spells, and how many bytes spell it.
#[derive(Clone, Copy)]
pub struct Escape {
    /// The value, below 65,536.
    pub value: u32,
    /// The number of bytes.
    pub width: usize,
}

/// The escape at the front of these bytes.
pub fn read_escape(bytes: &[u8]) -> Option<Escape>
    ensures escape { MatchOption result (NoEscape bytes.now) (λ e. HasEscape bytes.now e.width e.value) }
    ensures value { IfSome result (λ e. e.value < 65536) }
    ensures width { IfSome result (λ e. e.width ≤ length bytes.now) }
{
    if bytes.len() < 2 || bytes[0] != b'\\' || bytes[1] != b'u' {
        return None;
    }
    let more = leading_us(&bytes[2..]);
    let digits = &bytes[2 + more..];
    if digits.len() < 4 {
        return None;
    }
    let value = hex_value(&digits[..4])?;
    Some(Escape {
        value,
        width: more + 6,
    })
}

// How many `u` bytes begin with.
fn leading_us(bytes: &[u8]) -> usize
    ensures count { result ≡ length (take_while (λ b. b == 117) bytes.now) }
    ensures within { result ≤ length bytes.now }
{
    bytes.iter().take_while(|b| **b == b'u').count()
}

// The value of four hexadecimal digits.
fn hex_value(digits: &[u8]) -> Option<u32>
    requires { length digits.now ≡ 4 }
    ensures digits { MatchOption result (NotHex digits.now) (IsHex digits.now) }
    ensures value { IfSome result (λ value. value < 65536) }
{
    let a = (digits[0] as char).to_digit(16)?;
    let b = (digits[1] as char).to_digit(16)?;
    let c = (digits[2] as char).to_digit(16)?;
    let d = (digits[3] as char).to_digit(16)?;
    Some(((a * 16 + b) * 16 + c) * 16 + d)
}
