// A link of a closed set with its header and checksums.
ghost use Rattle.std.specs.Prelude.{◌≡◌, ◌<◌, Ok};
ghost use Rattle.link_building.specs.Wire.{links_of};
ghost use Rattle.link_frames.specs.Frames.{link_frame, link_frame_of, Worked};

use building::question::build_question;
use frames::number::Number;
use frames::octets::Octets;
use frames::procedure::Procedure;
use frames::refusal::Refusal;
use link_building::building::link_payload;
use sets::closed::Set;

// Link `number` of the set. One past the last is refused by 114; 104 where it is too long, which no link of a set is.
#[tactic(auto, using(crate::proofs::Working::worked))]
pub fn link_frame(set: &Set, number: Number) -> Result<Octets, Refusal>
    ensures is { result ≡ link_frame number set.now }
    ensures sure { number < links_of set.now.combinations → result ≡ Ok (link_frame_of number set.now) }
    ensures worked { Worked }
{
    let payload = link_payload(set, number.value()).ok_or(Refusal::ValueRange)?;
    build_question(Procedure::Initialisation, number, payload.as_slice()).or(Err(
        Refusal::LinkTooLong,
    ))
}
