// Orders, as they stand in a line.
use std::alloc::{AllocError, Global};
use std::num::ParseIntError;

// `draft` and `add` are as in a session, of which this program knows nothing: a common type would tie the two languages together.
// The sizes are lent by the numbers of the line.
#[derive(Clone, Copy)]
pub enum Order<'a> {
    Draft {
        subflows: u8,
        timed: bool,
        data_type: u8,
    },
    Add {
        rfci: u8,
        ipti: u8,
        sizes: &'a [u16],
    },
    Close,
    Find {
        sizes: &'a [u16],
    },
}

// What is no octet is refused as 255 is. An `Option` would be no plainer: only a draft says which of its refusals comes first.
fn octet(number: u16) -> u8 {
    u8::try_from(number).unwrap_or(u8::MAX)
}

// Why a line gives no numbers: it is not understood, or there is no memory for them.
#[derive(Debug, Drop)]
pub enum Misread {
    Unclear,
    Memory(AllocError),
}

impl From<ParseIntError> for Misread {
    fn from(_: ParseIntError) -> Misread {
        Misread::Unclear
    }
}

impl From<AllocError> for Misread {
    fn from(error: AllocError) -> Misread {
        Misread::Memory(error)
    }
}

// The numbers behind the first word of a line.
pub(crate) fn read_numbers(line: &str, alloc: Global) -> Result<Vec<u16>, Misread> {
    let mut numbers = Vec::new(alloc);
    for word in line.split_whitespace().skip(1) {
        numbers.push(word.parse()?).map_err(AllocError::from)?;
    }
    Ok(numbers)
}

// The order in a line with these numbers, if it is understood.
pub(crate) fn read_order<'a>(line: &str, numbers: &'a [u16]) -> Option<Order<'a>> {
    match (line.split_whitespace().next(), numbers) {
        (Some("draft"), [subflows, timed, data_type]) => Some(Order::Draft {
            subflows: octet(*subflows),
            timed: *timed != 0,
            data_type: octet(*data_type),
        }),
        (Some("add"), [rfci, ipti, sizes @ ..]) => Some(Order::Add {
            rfci: octet(*rfci),
            ipti: octet(*ipti),
            sizes,
        }),
        (Some("close"), []) => Some(Order::Close),
        (Some("find"), sizes) => Some(Order::Find { sizes }),
        _ => None,
    }
}
