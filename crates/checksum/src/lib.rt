// The two checksums of a frame, bit by bit: the highest bit of the first octet first.

#![tactic(auto)]

ghost use Rattle.std.specs.Prelude.{◌≡◌, ℕ, ◌+◌, ◌-◌, ◌*◌, ◌/◌, ◌%◌, ◌^◌, ◌<◌, ◌≤◌, [], ◌∷◌, length, bit_xor};
ghost use Rattle.checksum.specs.Division.{bits_of, octet_bits, reduced, parity, parity_of, Checks, header_sum, payload_sum};

// A generator polynomial: its degree, which is the width of the checksum, and its bits.
#[derive(Clone, Copy)]
struct Generator {
    width: u32,
    bits: u16,
    ghost degree: { (1 ≤ width) × (width ≤ 10) },
    ghost leading: { (2 ^ width ≤ bits) × (bits < 2 * 2 ^ width) },
}

// D^6 + D^5 + D^3 + D^2 + D + 1
const HEADER: Generator = Generator {
    width: 6,
    bits: 0b110_1111,
};

// D^10 + D^9 + D^5 + D^4 + D + 1
const PAYLOAD: Generator = Generator {
    width: 10,
    bits: 0b110_0011_0011,
};

impl Generator {
    // The parity after one bit more.
    // (d): that it stays below 2 ^ width is said in each step. The two generators differ in width, so a type for the sum would have the width
    // as a const parameter; the generator and its three functions would take it too, and unpack the sum at each bit: more than the clauses that go.
    fn with_bit(self, sum: u16, bit: u16) -> u16
        requires sum { sum < 2 ^ self.width }
        requires bit { bit < 2 }
        ensures is { result ≡ reduced self.width self.bits (bit_xor (sum * 2) (bit * 2 ^ self.width)) }
        ensures small { result < 2 ^ self.width }
    {
        let next = (sum << 1) ^ (bit << self.width);
        if next < 1 << self.width {
            next
        } else {
            next ^ self.bits
        }
    }

    // The parity after one octet more.
    fn with_octet(self, sum: u16, octet: u8) -> u16
        requires { sum < 2 ^ self.width }
        ensures is { result ≡ parity self.width self.bits sum (bits_of 8 octet) }
        ensures small { result < 2 ^ self.width }
    {
        let mut sum = sum;
        // places of bits: nothing is indexed by them
        for place in (0..8u32).rev() {
            let bit = (octet >> place & 1) as u16;
            sum = self.with_bit(sum, bit);
        }
        sum
    }

    // The checksum of octets, with the law that makes it one.
    fn of_octets(self, octets: &[u8]) -> u16
        ensures is { result ≡ parity_of self.width self.bits octets.now }
        ensures law { Checks self.width self.bits (octet_bits octets.now) result }
        ensures small { result < 2 ^ self.width }
    {
        let mut sum = 0;
        for octet in octets {
            sum = self.with_octet(sum, *octet);
        }
        sum
    }
}

// The header checksum, over the first two octets of a frame: with it they leave no remainder, and with no other of six bits.
pub fn header_checksum(first: u8, second: u8) -> u8
    ensures is { result ≡ header_sum first second }
    ensures law { Checks 6 0x6f (octet_bits (first ∷ second ∷ [])) result }
    ensures small { result < 64 }
{
    HEADER.of_octets(&[first, second]) as u8
}

// The payload checksum, over the whole payload: with it the payload leaves no remainder, and with no other of ten bits.
pub fn payload_checksum(octets: &[u8]) -> u16
    ensures is { result ≡ payload_sum octets.now }
    ensures law { Checks 10 0x633 (octet_bits octets.now) result }
    ensures small { result < 1024 }
{
    PAYLOAD.of_octets(octets)
}

#[cfg(test)]
mod tests {
    use super::*;

    #[test]
    fn vectors(rt: HostRuntime) {
        assert_eq!(rt; header_checksum(0xE4, 0x00), 0x24 >> 2);
        assert_eq!(rt; header_checksum(0xE0, 0x02), 0x1A >> 2);
        assert_eq!(rt; header_checksum(0xE0, 0x03), 0xA4 >> 2);
        assert_eq!(rt; header_checksum(0xE0, 0x00), 0xDC >> 2);
        assert_eq!(rt; payload_checksum(&[0x01]), (0x1A & 3) << 8 | 0x33);
        assert_eq!(rt; payload_checksum(&[0x03]), (0xA4 & 3) << 8 | 0x66);
        assert_eq!(rt;
            payload_checksum(&[0x02, 0x80, 0x28, 0x00, 0x01, 0x10]),
            (0xDC & 3) << 8 | 0xD8
        );
        assert_eq!(rt; payload_checksum(&[]), 0);
    }
}
