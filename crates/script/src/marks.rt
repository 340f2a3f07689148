// The marks of a rate request: one character for each RFCI.
ghost use Rattle.std.specs.Prelude.{◌≡◌, map};
ghost use Rattle.std.specs.List.{list_all};
ghost use Rattle.script.specs.Marks.{is_mark, bars, marks_in};

use crate::unclear::Unclear;

// How many marks a request has. A number of the caller's own would ask more of it: `map` wants an array that is known to fit in memory.
// It is said here once more, as `script` uses no library and knows nothing of frames: a caller that hands the marks on has an array of this very type.
pub const MARKS: usize = 63;

fn is_mark(byte: u8) -> bool
    ensures { result ≡ is_mark byte }
{
    matches!(byte, b'0' | b'1')
}

fn all_marks(word: &[u8]) -> bool
    ensures { result ≡ list_all is_mark word.now }
{
    word.iter().all(|byte| is_mark(*byte))
}

fn bars_of(marks: [u8; MARKS]) -> [bool; MARKS]
    ensures { result ≡ map bars marks }
{
    let mut bars = [false; MARKS];
    for (place, mark) in marks.iter().enumerate() {
        bars[place] = *mark == b'1';
    }
    bars
}

// Marks from RFCI 0 on: 1 bars, 0 allows.
pub fn read_marks(word: &[u8]) -> Result<[bool; MARKS], Unclear>
    ensures { result ≡ marks_in word.now }
{
    match <[u8; MARKS]>::try_from(word) {
        Ok(marks) if all_marks(word) => Ok(bars_of(marks)),
        _ => Err(Unclear::Value),
    }
}
