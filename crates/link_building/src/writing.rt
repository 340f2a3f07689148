// Links written octet by octet. There is room for what each function writes, since the payload of a part of a set is no longer than the most octets: that is said once, of all of it.
// A push that refuses was tried. Each function then answers a refusal that never comes, in two clauses for the one on the room: what it answers, and what is written where it is `Ok`.
// A loop has goals more, where a push in it was refused, and the `unwrap` at the end still needs the same room. That is no plainer.
ghost use Rattle.std.specs.Prelude.{◌≡◌, ◌+◌, ◌*◌, ◌<◌, ◌≤◌, false, [], ◌∷◌, ◌++◌, length, All, if◌then◌else◌};
ghost use Rattle.frames.specs.DataTypes.{data_number};
ghost use Rattle.link_building.specs.Wire.{wide, size_octets, combination, combinations, nibbles, payload_of};

use super::part::Part;
use super::payload::{MOST_OCTETS, Payload};
use frames::data_type::DataType;
use sets::combination::Combination;
use sets::limits::HIGHEST_IPTI;

// Each flag is one bit of the octet that is written.
fn flag(set: bool, value: u8) -> u8
    ensures { result ≡ (if set then value else 0) }
{
    if set { value } else { 0 }
}

#[tactic(auto, unfolding(crate::specs::Wire::wide))]
fn is_wide(sizes: &[u16]) -> bool
    ensures { result ≡ wide sizes.now }
{
    sizes.iter().any(|size| *size > 255)
}

// `wide` is the bit LI itself, as the first octet of the combination has it.
#[tactic(auto, unfolding(crate::specs::Wire::size_octets))]
fn write_size(out: &mut Payload, wide: bool, size: u16)
    requires narrow { wide ≡ false → size < 256 }
    requires room { length out.old + length (size_octets wide size) ≤ MOST_OCTETS }
    ensures { out.new ≡ out.old ++ size_octets wide size }
{
    if wide {
        let [high, low] = size.to_be_bytes();
        out.push(high);
        out.push(low);
    } else {
        out.push(size as u8);
    }
}

fn write_combination(out: &mut Payload, last: bool, row: &Combination)
    requires number { row.now.rfci < 64 }
    requires room { length out.old + length (combination last row.now.rfci row.now.sizes) ≤ MOST_OCTETS }
    ensures { out.new ≡ out.old ++ combination last row.now.rfci row.now.sizes }
{
    let sizes = row.sizes();
    let wide = is_wide(sizes);
    out.push(flag(last, 128) + flag(wide, 64) + row.rfci());
    for size in sizes {
        write_size(out, wide, *size);
    }
}

// The IPTIs of two combinations, or of one in the high half.
#[tactic(auto, unfolding(crate::specs::Wire::nibbles))]
fn iptis_octet(pair: &[Combination]) -> u8
    requires some { 1 ≤ length pair.now }
    requires few { length pair.now ≤ 2 }
    requires small { All (λ c. c.ipti ≤ HIGHEST_IPTI) pair.now }
    ensures { nibbles pair.now ≡ result ∷ [] }
{
    match pair {
        [high, low] => high.ipti() * 16 + low.ipti(),
        [high] => high.ipti() * 16,
        _ => 0,
    }
}

// What stands behind the IPTIs: the versions, of which there is the first alone, and the type of the frames that carry user data.
fn write_ending(out: &mut Payload, data_type: DataType)
    requires { length out.old + 3 ≤ MOST_OCTETS }
    ensures { out.new ≡ out.old ++ (0 ∷ 1 ∷ data_number data_type * 16 ∷ []) }
{
    out.push(0);
    out.push(1);
    out.push(data_type.number() * 16);
}

impl<'a> Part<'a> {
    fn write_combinations(&self, out: &mut Payload)
        requires { length out.old + length (combinations self.now.combinations) ≤ MOST_OCTETS }
        ensures { out.new ≡ out.old ++ combinations self.now.combinations }
    {
        if let Some((last, others)) = self.rows.split_last() {
            for row in others {
                write_combination(out, false, row);
            }
            write_combination(out, true, last);
        }
    }

    // Their IPTIs, two to an octet.
    fn write_iptis(&self, out: &mut Payload)
        requires { length out.old + length (nibbles self.now.combinations) ≤ MOST_OCTETS }
        ensures { out.new ≡ out.old ++ nibbles self.now.combinations }
    {
        for pair in self.rows.chunks(2) {
            out.push(iptis_octet(pair));
        }
    }

    pub(crate) fn payload(&self, chain: bool) -> Payload
        ensures { result ≡ payload_of chain self.now }
    {
        let opening = self.opening;
        let mut out = Payload::new();
        out.push(flag(opening.is_timed(), 16) + opening.subflows() * 2 + flag(chain, 1));
        self.write_combinations(&mut out);
        if opening.is_timed() {
            self.write_iptis(&mut out);
        }
        write_ending(&mut out, opening.data_type());
        out
    }
}
