// A question that waits for its answer.
ghost use Rattle.std.specs.Prelude.{◌≡◌, length};
ghost use Rattle.exchange.specs.Asking.{begun};
ghost use Rattle.exchange.specs.Course.{CoursesHold};

// What an answer makes of an exchange is found beside it, too.
pub use crate::answer::Turn;
use crate::inquiry::Inquiry;
use crate::limits::Limits;
use frames::number::Number;
use lines::line::Line;

// The ticks that are left, and how often the present frame was repeated.
// The number of the present frame is plain, since `frame` and `more` of an `Inquiry` take any octet: a `Number` there would ask more of whoever calls them.
// The fields are open, since nothing has to hold between them.
#[derive(Clone, Copy, Drop)]
pub struct Exchange<Q> {
    pub question: Q,
    pub ticks: u16,
    pub repeats: u8,
    pub number: u8,
}

impl<Q: Inquiry> Exchange<Q> {
    // A question that is about to be asked. Whatever ticks and answers follow, and whatever the line takes,
    // no number is sent more than 1 + N times, or waited on for more than (1 + N) × T ticks.
    pub fn first(question: Q, number: Number, limits: Limits) -> Exchange<Q>
        ensures begun { result ≡ begun question number limits }
        ensures courses { CoursesHold Q.frames Q.KIND Q.follows Q.UNANSWERED Q.DECLINED Q.turns limits result }
    {
        Exchange {
            question,
            ticks: limits.ticks,
            repeats: 0,
            number: number.value(),
        }
    }

    pub fn question(&self) -> &Q
        ensures { result.now ≡ self.now.question }
    {
        &self.question
    }

    // Whether the line takes the present frame now.
    pub fn is_taken<L: Line>(&self, line: &L) -> bool
        ensures { result ≡ L.takes line.now (length (Q.frames self.now.question self.now.number)) }
    {
        line.takes_length(self.question.frame(self.number).as_slice().len())
    }
}
