// What the payload of a link says, in plain numbers: counts and places as the definitions have them, and the octets are cut by them where they are read.

// How many combinations a payload begins with, and the octets that they take.
#[derive(Clone, Copy)]
pub struct Extent {
    pub count: usize,
    pub octets: usize,
}

// The fields of a link but for its combinations: `place` is where the IPTIs begin, `over` counts the octets after the fields.
// `kind` is the data PDU type as it stands on the wire, 0 to 15: one that there is no type for is refused only after a version that is not listed.
#[derive(Clone, Copy)]
pub struct Fields {
    pub subflows: u8,
    pub timed: bool,
    pub chain: bool,
    pub count: usize,
    pub place: usize,
    pub versions: u16,
    pub kind: u8,
    pub over: usize,
}
