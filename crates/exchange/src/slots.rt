// An exchange of some kind, where one runs.
// A slot is an `Option` that its owner looks into and empties, too: a type of its own would only hand that on.
// Limits, line and report stay three arguments: the limits are the kind's, the line the end's, the report the caller's,
// and a struct of them would be made at each call only to be taken apart in the next one.
ghost use Rattle.std.specs.Prelude.{◌≡◌};
ghost use Rattle.frames.specs.Contents.{reply};
ghost use Rattle.reports.specs.Effects.{Did};
ghost use Rattle.exchange.specs.Slots.{slot_begun, slot_started, slot_ticked, slot_heard};

use crate::answer::read_cause;
use crate::exchange::Exchange;
use crate::inquiry::Inquiry;
use crate::limits::Limits;
use frames::cause::Cause;
use frames::frame::Answer;
use frames::number::Number;
use frames::refusal::Refusal;
use lines::line::Line;
use reports::report::Report;

// A question is asked for the first time, where none of its kind runs and the line takes its frame.
pub fn begin_in<Q: Inquiry, L: Line>(
    slot: &mut Option<Exchange<Q>>,
    question: Q,
    number: Number,
    limits: Limits,
    line: &mut L,
    report: &mut Report,
) -> Result<(), Refusal>
    ensures { Did L.waiting (slot_begun Q.frames Q.KIND (L.takes line.old) limits question number slot.old) slot.new result line.old line.new report.old report.new }
{
    if slot.is_some() {
        return Err(Refusal::AlreadyRuns);
    }
    let first = Exchange::first(question, number, limits);
    if !first.is_taken(line) {
        return Err(Refusal::LineDeclines);
    }
    start_in(slot, first, line, report);
    Ok(())
}

// An exchange begins: its start is named and its first frame sent, whether the line takes it or not.
pub fn start_in<Q: Inquiry, L: Line>(
    slot: &mut Option<Exchange<Q>>,
    first: Exchange<Q>,
    line: &mut L,
    report: &mut Report,
)
    ensures { Did L.waiting (slot_started Q.frames Q.KIND (L.takes line.old) first) slot.new result line.old line.new report.old report.new }
{
    first.start(line, report);
    *slot = Some(first);
}

// One tick.
pub fn pass_in<Q: Inquiry, L: Line>(
    slot: &mut Option<Exchange<Q>>,
    limits: Limits,
    line: &mut L,
    report: &mut Report,
)
    ensures { Did L.waiting (slot_ticked Q.frames Q.KIND (L.takes line.old) limits Q.UNANSWERED slot.old) slot.new result line.old line.new report.old report.new }
{
    if let Some(running) = slot {
        if !running.tick(limits, line, report) {
            *slot = None;
        }
    }
}

// An answer with a number. One with another number than the present frame's changes nothing, not even the ticks.
// An erroneous one counts as declined, and the call is refused.
pub fn hear_in<Q: Inquiry, L: Line>(
    slot: &mut Option<Exchange<Q>>,
    answer: Answer<'_>,
    limits: Limits,
    line: &mut L,
    report: &mut Report,
) -> Result<Option<Cause>, Refusal>
    ensures { Did L.waiting (slot_heard Q.frames Q.KIND (L.takes line.old) limits Q.follows Q.DECLINED Q.turns (reply answer.entry) slot.old) slot.new result line.old line.new report.old report.new }
{
    let running = slot.as_mut().ok_or(Refusal::UnexpectedProcedure)?;
    let read = read_cause(answer);
    let turn = Q::turn(&read);
    let (goes_on, told) = running.hear(turn, read, answer.number, limits, line, report);
    if !goes_on {
        *slot = None;
    }
    told
}
