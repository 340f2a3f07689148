// What lies on the bench, and what comes of an order.
use crate::orders::Order;
use frames::refusal::Refusal;
use set_in_force::in_force::InForce;
use sets::closed::Set;
use sets::draft::Draft;
use sets::opening::Opening;

// A draft, and the set that was closed last.
// A session holds a draft too: what is common is one call of `sets` for each order. The complaint where there is none, and what becomes of the set, are the program's own: a common bench would be no plainer.
#[derive(Drop)]
pub struct Bench {
    draft: Option<Draft>,
    set: Option<InForce>,
}

#[derive(Clone, Copy)]
pub enum Answer {
    Done,
    Closed { set: Set, in_force: InForce },
    Found { rfci: u8 },
}

#[derive(Clone, Copy)]
pub enum Complaint {
    Unclear,
    NoDraft,
    Refused(Refusal),
}

impl From<Refusal> for Complaint {
    fn from(refusal: Refusal) -> Complaint {
        Complaint::Refused(refusal)
    }
}

impl Bench {
    pub(crate) fn new() -> Bench {
        Bench {
            draft: None,
            set: None,
        }
    }

    // An empty draft stays open.
    fn close(&mut self) -> Result<Answer, Complaint> {
        let draft = self.draft.as_ref().ok_or(Complaint::NoDraft)?;
        let mut place = None;
        draft.close_copy(&mut place)?;
        self.draft = None;
        let set: Set = place.unwrap();
        let in_force = InForce::from_set(set);
        self.set = Some(in_force);
        Ok(Answer::Closed { set, in_force })
    }

    pub(crate) fn obey(&mut self, order: Order<'_>) -> Result<Answer, Complaint> {
        match order {
            Order::Draft {
                subflows,
                timed,
                data_type,
            } => {
                self.draft = Some(Draft::open(Opening::new(subflows, timed, data_type)?));
                Ok(Answer::Done)
            }
            Order::Add { rfci, ipti, sizes } => {
                let draft = self.draft.as_mut().ok_or(Complaint::NoDraft)?;
                draft.add(rfci, ipti, sizes)?;
                Ok(Answer::Done)
            }
            Order::Close => self.close(),
            Order::Find { sizes } => {
                let set = self
                    .set
                    .as_ref()
                    .ok_or(Complaint::Refused(Refusal::WrongPhase))?;
                let rfci = set.search(sizes)?;
                Ok(Answer::Found { rfci })
            }
        }
    }
}
