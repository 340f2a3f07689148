// The table's octets, row by row.
ghost use Rattle.std.specs.Prelude.{◌≡◌};
ghost use Rattle.worked.specs.Table.{rows, octets_at, AllRight};

pub const ROWS: usize = 8;

const TABLE: [&[u8]; ROWS] = [
    &[0xE4, 0x00, 0x24, 0x00],
    &[0xE8, 0x00, 0x90, 0x00, 0x50],
    &[0xE0, 0x02, 0x1A, 0x33, 0x01],
    &[0xE0, 0x03, 0xA4, 0x66, 0x03],
    &[0x20, 0x00, 0x8C],
    &[0xE0, 0x00, 0xDC, 0xD8, 0x02, 0x80, 0x28, 0x00, 0x01, 0x10],
    &[0x10, 0x00, 0x98, 0x01, 0x02, 0x03, 0x04, 0x05],
    &[0x01, 0x02, 0x24, 0x00],
];

// The octets of a row, and none past the last one. What each row says of them is right.
// (d): a row past the end is empty, as the definition says: no worked frame is.
pub fn worked_frame(row: usize) -> &'static [u8]
    ensures octets { result.now ≡ octets_at row rows }
    ensures table { AllRight rows }
{
    TABLE.get(row).copied().unwrap_or(&[])
}
