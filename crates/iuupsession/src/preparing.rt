// What is prepared before an end is opened: the draft, the closed set, the settings, and the size of the next line.
use crate::answer::{Complaint, Missing};
use crate::command::Addition;
use bearer::settings::Settings;
use cells::count::CellCount;
use ring::size::RingSize;
use sets::closed::Set;
use sets::draft::Draft;
use sets::opening::Opening;

#[derive(Clone, Copy)]
pub enum LineSize {
    Cells(CellCount),
    Ring(RingSize),
}

// The draft is held as on the bench of `setshow`: what is common is one call of `sets` for each order. What is missing and what becomes of the set are the program's own: a common holder would be no plainer.
#[derive(Drop)]
pub struct Prepared {
    draft: Option<Draft>,
    pub set: Option<Set>,
    pub settings: Option<Settings>,
    pub size: Option<LineSize>,
}

impl Prepared {
    pub(crate) fn new() -> Prepared {
        Prepared {
            draft: None,
            set: None,
            settings: None,
            size: None,
        }
    }

    // It takes the place of the former one.
    pub(crate) fn open_draft(&mut self, opening: Opening) {
        self.draft = Some(Draft::open(opening));
    }

    pub(crate) fn add(&mut self, addition: Addition) -> Result<(), Complaint> {
        let draft = self.draft.as_mut().ok_or(Missing::Draft)?;
        Ok(draft.add(addition.rfci, addition.ipti, addition.sizes.as_slice())?)
    }

    // An empty draft stays open.
    pub(crate) fn close(&mut self) -> Result<(), Complaint> {
        let draft = self.draft.as_ref().ok_or(Missing::Draft)?;
        draft.close_copy(&mut self.set)?;
        self.draft = None;
        Ok(())
    }
}
