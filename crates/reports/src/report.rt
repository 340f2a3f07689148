// The report of one call: made empty, cleared by each call, and read by whoever lent it.
ghost use Rattle.std.specs.Prelude.{◌≡◌, ◌-◌, ◌≤◌, [], ◌++◌, take, length, replicate};
ghost use Rattle.reports.specs.Said.{noted};
ghost use Rattle.reports.specs.Blanks.{blank};

use crate::ending::Kind;
use crate::happening::Happening;
use std::marker::Model;

// No call causes more than four things.
const MOST: usize = 4;

// What lies in a cell behind those in use, so that the cells tell no more than the list does.
const BLANK: Happening = Happening::Started(Kind::Initialisation);

// The library has no heap: a plain array with a length, inside a type that means a list. Tried as a row of frames: proved, and
// short user data is received a fifth slower, since each call clears the report, and a row writes blanks over all its cells.
#[derive(Clone, Copy)]
pub struct Report {
    list: [Happening; MOST],
    count: usize,
}

impl Model for Report {
    ghost use Rattle.std.specs.Prelude.{◌≡◌, ◌-◌, ◌≤◌, List, ◌++◌, take, length, replicate};
    ghost use Rattle.reports.specs.declared.happening.Happening.{Happening};
    ghost use Rattle.reports.specs.Blanks.{blank};

    ghost Value = { List Happening };

    ghost view = { λ r. take r.count r.list };

    // `MOST`, which is not in scope here
    ghost invariant = { λ r. (r.count ≤ 4) × (length r.list ≡ 4) × (r.list ≡ take r.count r.list ++ replicate (4 - r.count) blank) };

    ghost inverse = { λ hs. record { list = hs ++ replicate (4 - length hs) blank; count = length hs } };
}

impl Report {
    pub fn new() -> Report
        ensures { result ≡ [] }
    {
        let list = [BLANK; MOST];
        Report { list, count: 0 }
    }

    // Blanks over what was in use alone: most calls note one thing.
    pub fn clear(&mut self)
        ensures { self.new ≡ [] }
    {
        wipe(&mut self.list, self.count);
        self.count = 0;
    }

    // What happened, the first thing first.
    pub fn happenings(&self) -> &[Happening]
        ensures listed { result.now ≡ self.now }
        ensures few { length result.now ≤ 4 }
    {
        &self.list[..self.count]
    }

    // One more; a report that has four keeps those.
    pub fn note(&mut self, happening: Happening)
        ensures { self.new ≡ noted happening self.old }
    {
        if self.count < MOST {
            self.list[self.count] = happening;
            self.count += 1;
        }
    }
}

// Behind `count` there are blanks already.
fn wipe(list: &mut [Happening], count: usize)
    requires used { count ≤ length list.old }
    requires behind { list.old ≡ take count list.old ++ replicate (length list.old - count) blank }
    ensures { list.new ≡ replicate (length list.old) blank }
{
    blank_over(&mut list[..count]);
}

fn blank_over(happenings: &mut [Happening])
    ensures { happenings.new ≡ replicate (length happenings.old) blank }
{
    for happening in happenings.iter_mut() {
        *happening = BLANK;
    }
}
