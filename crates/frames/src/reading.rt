// Frames read from received octets.
ghost use Rattle.std.specs.Prelude.{◌≡◌, ℕ, ◌+◌, ◌*◌, ◌%◌, ◌/◌, ◌∷◌, IfOk};
ghost use Rattle.frames.specs.Contents.{seen, content, contents, parsed, Fit};
ghost use Rattle.frames.specs.declared.header.PduType.TheVariants.{Control};

use crate::control_kind::ControlKind;
use crate::data_type::DataType;
use crate::frame::{AckNack, Answer, DataHeader, Frame, Question, UserData};
use crate::header::{PduType, read_header};
use crate::procedure::Procedure;
use crate::refusal::Refusal;

// The ten bits after the header checksum: two of them lie in its octet, so they are no two octets of a number.
fn sum_field(third: u8, fourth: u8) -> u16
    ensures { result ≡ third % 4 * 256 + fourth }
{
    (third % 4) as u16 * 256 + fourth as u16
}

// The fields of user data in the first two octets.
fn data_header(data_type: DataType, first: u8, second: u8) -> DataHeader
    ensures { result ≡ record { data_type = data_type; number = first % 16; fqc = second / 64; rfci = second % 64 } }
{
    DataHeader {
        data_type,
        number: first % 16,
        fqc: second >> 6,
        rfci: second % 64,
    }
}

// An answer's ten bits are spare, and not read.
fn read_control<'a>(
    first: u8,
    second: u8,
    third: u8,
    fourth: u8,
    payload: &'a [u8],
) -> Result<Frame<'a>, Refusal>
    ensures { seen result ≡ contents Control (first ∷ second ∷ third ∷ fourth ∷ payload.now) }
{
    let kind = ControlKind::try_from((first >> 2) % 4)?;
    let number = first % 4;
    let version = second >> 4;
    let procedure = Procedure::try_from(second % 16)?;
    let place = 4;
    let answer = |ack_nack| {
        Frame::Answer(Answer {
            ack_nack,
            number,
            version,
            procedure,
            place,
            payload,
        })
    };
    Ok(match kind {
        ControlKind::Question => Frame::Question(Question {
            number,
            version,
            procedure,
            checksum: sum_field(third, fourth),
            place,
            payload,
        }),
        ControlKind::Ack => answer(AckNack::Ack),
        ControlKind::Nack => answer(AckNack::Nack),
    })
}

// The header decides first; then, in a control frame, its kind and its procedure.
pub fn read(octets: &[u8]) -> Result<Frame<'_>, Refusal>
    ensures says { seen result ≡ parsed octets.now }
    ensures fit { IfOk result (λ f. Fit (content f)) }
{
    let header = read_header(octets)?;
    match (header.pdu_type, octets) {
        (PduType::PlainData, [first, second, _, payload @ ..]) => Ok(Frame::UserData(UserData {
            header: data_header(DataType::Plain, *first, *second),
            checksum: None,
            place: 3,
            payload,
        })),
        (PduType::CheckedData, [first, second, third, fourth, payload @ ..]) => {
            Ok(Frame::UserData(UserData {
                header: data_header(DataType::Checked, *first, *second),
                checksum: Some(sum_field(*third, *fourth)),
                place: 4,
                payload,
            }))
        }
        (PduType::Control, [first, second, third, fourth, payload @ ..]) => {
            read_control(*first, *second, *third, *fourth, payload)
        }
        // the header was there
        _ => unreachable(),
    }
}
