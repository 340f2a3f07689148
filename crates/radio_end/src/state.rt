// What the radio end holds.
mod carrying;
mod hearing;
mod opening;
mod receiving;
mod requests;
mod standing;
mod taking;
mod ticking;

use bearer::bearer::Bearer;
use exchange::exchange::Exchange;
use exchange::numbered::Numbered;
use questions::alignment::AlignmentQuestion;
use questions::links::Links;
use questions::rate::RateQuestion;
use std::marker::Model;

// The bearer, an exchange of each kind while it runs, and the line. An offer begins at number 0; rate and alignment questions are numbered on.
#[derive(Drop)]
pub struct RadioEnd<L> {
    bearer: Bearer,
    links: Option<Exchange<Links>>,
    rate: Numbered<RateQuestion>,
    alignment: Numbered<AlignmentQuestion>,
    line: L,
}

impl<L> Model for RadioEnd<L> {
    ghost use Rattle.radio_end.specs.Radio.{Radio, On};

    ghost Value = { On Radio L };

    ghost view = { λ e. record { state = record { bearing = e.bearer; links = e.links; rate = e.rate; alignment = e.alignment }; line = e.line } };
}
