// Decimal numbers.
ghost use Rattle.std.specs.Prelude.{◌≡◌, ℕ, ◌==◌, ◌≤◌, Err, IfOk, cond, length, ok_or, option_map};
ghost use Rattle.script.specs.Numbers.{decimal_on, number_in, read_as, up_to};
ghost use Rattle.script.specs.declared.unclear.Unclear.TheVariants.{Value};

use crate::unclear::Unclear;

// What a number of a line is read into: each type has its greatest number.
pub trait Number: Sized {
    ghost most: { ℕ };

    ghost value: { Self → ℕ };

    fn of(number: u64) -> Option<Self>
        ensures { option_map value result ≡ up_to most number };
}

// A mark: 0 or 1.
impl Number for bool {
    ghost most = { 1 };

    ghost value = { λ mark. cond mark 1 0 };

    fn of(number: u64) -> Option<bool> {
        match number {
            0 => Some(false),
            1 => Some(true),
            _ => None,
        }
    }
}

// One impl for each size, no plainer by a default body: that would need a law that ties `TryFrom` to `most`, proved at each type.
impl Number for u8 {
    ghost most = { 255 };

    ghost value = { λ octet. octet };

    fn of(number: u64) -> Option<u8> {
        u8::try_from(number).ok()
    }
}

impl Number for u16 {
    ghost most = { 65535 };

    ghost value = { λ number. number };

    fn of(number: u64) -> Option<u16> {
        u16::try_from(number).ok()
    }
}

impl Number for usize {
    ghost most = { 18446744073709551615 };

    ghost value = { λ number. number };

    fn of(number: u64) -> Option<usize> {
        usize::try_from(number).ok()
    }
}

// The greatest number that one more digit leaves below 10^18.
const TENTH: u64 = 99_999_999_999_999_999;

// `parse` of std takes a sign, and refuses text that is not UTF-8 before it looks at digits.
fn decimal(word: &[u8]) -> Option<u64>
    ensures { result ≡ decimal_on 0 word.now }
{
    let mut value = 0;
    for byte in word {
        if !byte.is_ascii_digit() || value > TENTH {
            return None;
        }
        value = value * 10 + (*byte - b'0') as u64;
    }
    Some(value)
}

// The number that a word writes which is digits alone, at least one.
fn read_decimal(word: &[u8]) -> Result<u64, Unclear>
    ensures { result ≡ cond (length word.now == 0) (Err Value) (ok_or (decimal_on 0 word.now) Value) }
{
    if word.is_empty() {
        return Err(Unclear::Value);
    }
    decimal(word).ok_or(Unclear::Value)
}

// The number that a word of digits writes, where its type holds it.
pub fn read_number<N: Number>(word: &[u8]) -> Result<N, Unclear>
    ensures { read_as N.value result ≡ number_in N.most word.now }
{
    N::of(read_decimal(word)?).ok_or(Unclear::Value)
}

// A number from 0 to `most`, for a bound that no type has.
pub fn read_number_up_to(word: &[u8], most: u64) -> Result<u64, Unclear>
    ensures is { result ≡ number_in most word.now }
    ensures few { IfOk result (λ n. n ≤ most) }
{
    match read_decimal(word)? {
        number if number <= most => Ok(number),
        _ => Err(Unclear::Value),
    }
}
