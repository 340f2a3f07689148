// A rate question: how many marks follow, and the marks.
ghost use Rattle.std.specs.Prelude.{◌≡◌, ◌≤◌, length};
ghost use Rattle.building.specs.Rates.{mark, mark_octet, rate_payload, rate_frame};

use crate::control::short_control;
use frames::control_kind::ControlKind;
use frames::mask::{MOST_MARKS, RateMask};
use frames::number::Number;
use frames::octets::Octets;
use frames::procedure::Procedure;
use frames::row::Row;

// 1 where a mark bars; 0 where it allows, and past the last one.
fn mark(bars: &[bool], place: usize) -> u8
    ensures { result ≡ mark bars.now place }
{
    u8::from(bars.get(place).copied().unwrap_or(false))
}

// Eight marks or, at the end, fewer: the first one highest.
fn mark_octet(bars: &[bool]) -> u8
    ensures { result ≡ mark_octet bars.now }
{
    (0..8).fold(0u8, |octet, place| (octet << 1) + mark(bars, place))
}

// The count of marks, and as many octets as hold them.
fn rate_payload(bars: &[bool]) -> Row<u8, 9>
    requires { length bars.now ≤ MOST_MARKS }
    ensures octets { result ≡ rate_payload bars.now }
    ensures few { length result ≤ 9 }
{
    let mut payload = Row::of_slice(&[bars.len() as u8]).unwrap();
    for eight in bars.chunks(8) {
        payload.push(mark_octet(eight)).unwrap();
    }
    payload
}

pub fn build_rate(number: Number, mask: &RateMask) -> Octets
    ensures { result ≡ rate_frame number mask.now }
{
    let payload = rate_payload(mask.marks());
    short_control(
        ControlKind::Question,
        Procedure::RateControl,
        number,
        payload.as_slice(),
    )
}
