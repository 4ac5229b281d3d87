//! Numbers of lines.

ghost use Rattle.std.specs.Prelude.{◌≡◌, true};
ghost use Rattle.std.specs.List.{list_all, prefix_len};
ghost use Rattle.std.specs.Char.{is_ascii_digit};
ghost use Rattle.std.specs.Str.Parse.{digits_value};
ghost use Rattle.hol_logs.specs.Step.{is_numeral};
ghost use Rattle.strict_lines.specs.Operands.{reads_number};
ghost use Rattle.flat_lines.specs.Numbers.{IsNumber, IsNumberRead};
ghost use Rattle.flat_lines.specs.Reads.{Reads};

/// A number of a line, which may have any length.
#[derive(Clone, Copy)]
pub enum Number {
    /// One that fits a machine word.
    Small(usize),
    /// One that doesn't.
    Huge,
}

/// A number that was read, and what is left of the text.
#[derive(Clone, Copy)]
pub struct NumberRead<'a> {
    pub number: Number,
    pub rest: &'a [u8],
}

/// The number whose digits the text begins with, and what is left, or None where there are no digits, or a zero before others.
pub fn read_number(text: &[u8]) -> Option<NumberRead<'_>>
    ensures { Reads IsNumberRead result (reads_number text.now) }
{
    let (digits, rest) = text.split_at(digits_len(text));
    if !is_numeral(digits) {
        return None;
    }
    let Ok(digits) = str::from_utf8(digits) else {
        return None;
    };
    let number = number_of(digits);
    Some(NumberRead { number, rest })
}

/// How many digits the text begins with.
fn digits_len(text: &[u8]) -> usize
    ensures { result ≡ prefix_len is_ascii_digit text.now }
{
    let mut len = 0;
    while len < text.len() && text[len].is_ascii_digit() {
        len += 1;
    }
    len
}

/// Whether digits are without leading zeros.
fn is_numeral(digits: &[u8]) -> bool
    requires { list_all is_ascii_digit digits.now ≡ true }
    ensures { result ≡ is_numeral digits.now }
{
    match digits {
        [] => false,
        [_] => true,
        [first, ..] => *first != b'0',
    }
}

/// The number of digits.
fn number_of(digits: &str) -> Number
    requires { is_numeral digits.now ≡ true }
    ensures { IsNumber result (digits_value 10 digits.now) }
{
    match digits.parse() {
        Ok(number) => Number::Small(number),
        Err(_) => Number::Huge,
    }
}
