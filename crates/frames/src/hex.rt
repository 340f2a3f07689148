// A line of upper-case hexadecimal digits, read into octets, and octets written as such digits.
ghost use Rattle.std.specs.Prelude.{◌≡◌, ◌<◌, ◌≤◌, ◌/◌, ◌%◌, true, length, Ok, Some};
ghost use Rattle.std.specs.Option.{IfSome};
ghost use Rattle.frames.specs.Hex.{is_digit, value_of, value_in, pair_in, all_digits, octets_in, hex_in, hex_text};

use crate::octets::{LONGEST, Octets};
use crate::refusal::Refusal;
use std::fmt;
use std::marker::Model;

// Whether a byte of text is an upper-case digit.
pub fn is_digit(byte: u8) -> bool
    ensures { result ≡ is_digit byte }
{
    matches!(byte, b'0'..=b'9' | b'A'..=b'F')
}

// What a digit is worth is chosen by arithmetic and not by a case for each kind: figures and letters come in no order that a processor foresees,
// and a jump at each of them took twice the time.
fn worth(digit: u8) -> u8
    requires { is_digit digit ≡ true }
    ensures is { result ≡ value_of digit }
    ensures half { result < 16 }
{
    let zero = if digit < b'A' { b'0' } else { b'A' - 10 };
    digit - zero
}

// Written out once more: by a call of the other, a pair takes more steps.
fn value(digit: u8) -> Option<u8>
    ensures is { result ≡ value_in digit }
    ensures half { IfSome result (λ v. v < 16) }
{
    if !is_digit(digit) {
        return None;
    }
    let zero = if digit < b'A' { b'0' } else { b'A' - 10 };
    Some(digit - zero)
}

// The octet of two digits, the high half first.
pub fn read_pair(high: u8, low: u8) -> Result<u8, Refusal>
    ensures { result ≡ pair_in high low }
{
    match (value(high), value(low)) {
        (Some(high), Some(low)) => Ok(high * 16 + low),
        _ => Err(Refusal::Hexadecimal),
    }
}

// Each is looked at, with no way out at a strange one: so several are looked at at once.
fn each_digit(bytes: &[u8]) -> bool
    ensures { result ≡ all_digits bytes.now }
{
    let mut all = true;
    for byte in bytes {
        all = all & is_digit(*byte);
    }
    all
}

// A strange digit is told without a look at what lies far behind it.
fn all_digits(line: &[u8]) -> bool
    ensures { result ≡ all_digits line.now }
{
    let (parts, rest) = line.as_chunks::<64>();
    for part in parts {
        if !each_digit(part) {
            return false;
        }
    }
    each_digit(rest)
}

// The octet of each pair of digits. No answer that may be a refusal is made of so many octets on the way, for each would be copied.
fn paired(digits: &[u8]) -> Octets
    requires digits { all_digits digits.now ≡ true }
    requires even { length digits.now % 2 ≡ 0 }
    requires room { length digits.now / 2 ≤ LONGEST }
    ensures { result ≡ octets_in digits.now }
{
    let mut octets = Octets::new();
    let (pairs, _) = digits.as_chunks::<2>();
    for [high, low] in pairs {
        let _ = octets.push(worth(*high) * 16 + worth(*low));
    }
    octets
}

// The octets of a line, refused where it has strange or single digits, or more than a frame.
pub fn read_hex(line: &[u8]) -> Result<Octets, Refusal>
    ensures { result ≡ hex_in line.now }
{
    // all are looked at first: a strange digit is told before a line that is too long
    if !all_digits(line) || line.len() % 2 != 0 {
        return Err(Refusal::Hexadecimal);
    }
    if line.len() / 2 > LONGEST {
        return Err(Refusal::TooLong);
    }
    Ok(paired(line))
}

// Octets that are printed as digits, two for each.
#[derive(Drop)]
pub struct Hex<'a> {
    octets: &'a [u8],
}

impl<'a> Model for Hex<'a> {
    ghost use Rattle.std.specs.Prelude.{ℕ, List};

    ghost Value = { List ℕ };

    ghost view = { λ h. h.octets.now };
}

impl<'a> Hex<'a> {
    // As many octets as a frame has are read back from what is printed.
    pub fn of(octets: &'a [u8]) -> Hex<'a>
        ensures is { result ≡ octets.now }
        ensures back { length octets.now ≤ 512 → hex_in (hex_text octets.now) ≡ Ok octets.now }
    {
        Hex { octets }
    }
}

impl<'a> fmt::Display for Hex<'a> {
    ghost output = { λ hex. Some (hex_text hex) };

    fn fmt<W: fmt::Write>(&self, f: &mut fmt::Formatter<W>) -> fmt::Result {
        for octet in self.octets {
            let octet = *octet;
            write!(f, "{octet:02X}")?;
        }
        Ok(())
    }
}
