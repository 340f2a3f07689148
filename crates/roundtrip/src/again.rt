// Each kind of frame, built again from what was read of it.
ghost use Rattle.std.specs.Prelude.{◌≡◌, ◌<◌, ◌≤◌, length, IfOk};
ghost use Rattle.frames.specs.Contents.{content, Fit};
ghost use Rattle.frames.specs.Frame.{longest};
ghost use Rattle.roundtrip.specs.Messages.{heard, mapped, sent, rebuilt};

use building::answer::{build_ack, build_nack};
use building::question::{build_alignment, build_error_event, build_question};
use building::rate::build_rate;
use building::user_data::build_user_data;
use frames::frame::{AckNack, Answer, Frame, Question, UserData};
use frames::number::Number;
use frames::octets::Octets;
use frames::procedure::Procedure;
use frames::reading::read;
use frames::refusal::Refusal;
use payloads::answer::{read_ack, read_nack};
use payloads::check::{check_question, check_user_data};
use payloads::question::{read_alignment, read_error_event, read_rate};

fn data_again(user_data: UserData<'_>) -> Result<Octets, Refusal>
    requires fields { Fit (content (Frame.UserData user_data)) }
    requires room { IfOk (heard (content (Frame.UserData user_data))) (λ m. length (sent m) ≤ longest) }
    ensures { result ≡ mapped sent (heard (content (Frame.UserData user_data.entry))) }
{
    check_user_data(user_data)?;
    let bits = 8 * user_data.payload.len();
    build_user_data(user_data.header, bits, user_data.payload)
}

fn question_again(question: Question<'_>) -> Result<Octets, Refusal>
    requires { Fit (content (Frame.Question question)) }
    ensures { result ≡ mapped sent (heard (content (Frame.Question question.entry))) }
{
    let number = Number::new(question.number)?;
    match question.procedure {
        Procedure::Initialisation => {
            check_question(question)?;
            build_question(question.procedure, number, question.payload)
        }
        Procedure::RateControl => Ok(build_rate(number, &read_rate(question)?)),
        Procedure::TimeAlignment => Ok(build_alignment(number, read_alignment(question)?)),
        Procedure::ErrorEvent => {
            let event = read_error_event(question)?;
            Ok(build_error_event(number, event.distance, event.cause))
        }
    }
}

fn answer_again(answer: Answer<'_>) -> Result<Octets, Refusal>
    requires { answer.number < 4 }
    ensures { result ≡ mapped sent (heard (content (Frame.Answer answer.entry))) }
{
    let number = Number::new(answer.number)?;
    match answer.ack_nack {
        AckNack::Ack => {
            read_ack(answer)?;
            Ok(build_ack(answer.procedure, number))
        }
        AckNack::Nack => {
            let cause = read_nack(answer)?;
            Ok(build_nack(answer.procedure, number, cause))
        }
    }
}

pub(crate) fn build_again(octets: &[u8]) -> Result<Octets, Refusal>
    ensures { result ≡ rebuilt octets.now }
{
    match read(octets)? {
        Frame::UserData(user_data) => data_again(user_data),
        Frame::Question(question) => question_again(question),
        Frame::Answer(answer) => answer_again(answer),
    }
}
