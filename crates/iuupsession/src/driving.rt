// Calls on a radio end, over whichever line.
use crate::answer::{Answer, Complaint, Missing};
use crate::command::Call;
use frames::octets::{LONGEST, Octets};
use frames::refusal::Refusal;
use lines::line::Line;
use radio_end::state::RadioEnd;
use reports::report::Report;
use sets::closed::Set;

fn take<L: Line>(radio: &mut RadioEnd<L>) -> Result<Option<Octets>, Refusal> {
    let mut buffer = [0; LONGEST];
    let length = radio.take(&mut buffer)?;
    length
        .map(|length| Octets::of_slice(&buffer[..length]))
        .transpose()
}

pub(crate) fn drive<L: Line>(
    radio: &mut RadioEnd<L>,
    call: Call,
    set: Option<Set>,
    report: &mut Report,
) -> Result<Answer, Complaint> {
    match call {
        Call::Start => radio.start(set.ok_or(Missing::ClosedSet)?, report)?,
        Call::Rate { bars } => radio.rate(bars, report)?,
        Call::Align { direction, steps } => radio.align(direction, steps, report)?,
        Call::Data { rfci, fqc, payload } => radio.data(rfci, fqc, payload.as_slice(), report)?,
        Call::Report { cause } => radio.report_error(cause, report)?,
        Call::Search { sizes } => {
            let rfci = radio.search(sizes.as_slice(), report)?;
            return Ok(Answer::Found { rfci });
        }
        Call::Receive { frame } => {
            return Ok(Answer::Received(radio.receive(frame.as_slice(), report)?));
        }
        Call::Set => return Ok(Answer::InForce(radio.in_force())),
        Call::Tick => radio.tick(report),
        Call::Take => return Ok(Answer::Taken(take(radio)?)),
        Call::Accept | Call::Decline { .. } => {
            return Err(Complaint::Missing(Missing::Call));
        }
    }
    Ok(Answer::Done)
}
