// The fields of a link, read from its payload.
ghost use Rattle.std.specs.Prelude.{◌≡◌, ℕ, ◌+◌, ◌*◌, ◌/◌, ◌<◌, ◌≤◌, true, false, [], ◌∷◌, ◌++◌, length, take, drop, IfSome, if◌then◌else◌, slice_index};
ghost use Rattle.link_reading.specs.Layout.{is_last, is_wide, width, extent, size_of, sizes_in, halves, row_in, fields_of, subflows_of, timed_of, chain_of, ipti_octets};
ghost use Rattle.link_reading.specs.Holding.{examined};

use super::coded::{Combinations, is_last, width_of};
use super::fields::{Extent, Fields};
use frames::extent::MOST_SPARE;
use frames::refusal::Refusal;
use frames::row::Row;
use sets::limits::MOST_SUBFLOWS;

// How far the combinations go that the octets begin with.
fn measure(octets: &[u8], subflows: u8) -> Option<Extent>
    ensures is { result ≡ extent (length octets.now) subflows octets.now }
    ensures within { IfSome result (λ e. (e.count ≤ e.octets) × (e.octets ≤ length octets.now)) }
{
    let mut extent = Extent {
        count: 0,
        octets: 0,
    };
    for combination in Combinations::of(octets, subflows) {
        extent.count += 1;
        extent.octets += 1 + combination.sizes.len();
        if is_last(combination.head) {
            return Some(extent);
        }
    }
    None
}

fn subflows_in(octet: u8) -> u8
    ensures { result ≡ subflows_of octet }
{
    octet / 2 % 8
}

fn is_timed(octet: u8) -> bool
    ensures { result ≡ timed_of octet }
{
    octet / 16 % 2 == 1
}

fn is_chain(octet: u8) -> bool
    ensures { result ≡ chain_of octet }
{
    octet % 2 == 1
}

fn ipti_octets(timed: bool, count: usize) -> usize
    ensures { result ≡ ipti_octets timed count }
{
    if timed { count.div_ceil(2) } else { 0 }
}

// The fields of a link's payload, but for its rows; none where it is short of them.
fn read_fields(payload: &[u8]) -> Option<Fields>
    ensures { result ≡ fields_of payload.now }
{
    let (first, rest) = payload.split_first()?;
    let subflows = subflows_in(*first);
    let timed = is_timed(*first);
    let extent = measure(rest, subflows)?;
    let after = &rest[extent.octets..];
    let ([high, low, kind], over) = after
        .get(ipti_octets(timed, extent.count)..)?
        .split_first_chunk::<3>()?;
    Some(Fields {
        subflows,
        timed,
        chain: is_chain(*first),
        count: extent.count,
        place: 1 + extent.octets,
        versions: u16::from_be_bytes([*high, *low]),
        kind: *kind / 16,
        over: over.len(),
    })
}

// The fields of a payload that is sound in itself, or why it is refused.
#[tactic(auto, unfolding(crate::specs::Holding::examined))]
pub(crate) fn examine(payload: &[u8]) -> Result<Fields, Refusal>
    ensures { result ≡ examined payload.now }
{
    let fields = read_fields(payload).ok_or(Refusal::TooShort)?;
    if fields.over > MOST_SPARE {
        return Err(Refusal::UnexpectedValue);
    }
    if fields.versions % 2 == 0 {
        return Err(Refusal::ModeVersion);
    }
    Ok(fields)
}

// A size, in the octet or the two octets that it takes.
fn size_in(octets: &[u8]) -> u16
    ensures { result ≡ size_of octets.now }
{
    match octets {
        [high, low] => u16::from_be_bytes([*high, *low]),
        [octet, ..] => *octet as u16,
        [] => 0,
    }
}

// The sizes of a combination, in the octets that they take.
pub(crate) fn read_sizes(octets: &[u8], wide: bool, subflows: u8) -> Row<u16, MOST_SUBFLOWS>
    requires few { subflows ≤ MOST_SUBFLOWS }
    requires whole { length octets.now ≡ width subflows wide }
    ensures { result ≡ sizes_in wide subflows octets.now }
{
    let mut sizes = Row::new();
    for size in octets.chunks(width_of(1, wide)) {
        sizes.push(size_in(size)).unwrap();
    }
    sizes
}
