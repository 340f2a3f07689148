// The links of a set that were read, up to the last of them.
ghost use Rattle.std.specs.Prelude.{◌≡◌, ◌≤◌, length, if◌then◌else◌};
ghost use Rattle.sets.specs.Contents.{SoundDraft};

use sets::combination::Combination;
use sets::drafted::Drafted;
use sets::opening::Opening;
use std::marker::Model;

// `draft` has the combinations of the links so far; one at least once the last link is read, so that it can be closed.
// `links` counts them: it stays known once `complete`, so that an `Option` of the number awaited would say less.
#[derive(Clone, Copy)]
pub struct Held {
    pub(crate) draft: Drafted,
    pub(crate) versions: u16,
    pub(crate) links: u8,
    pub(crate) complete: bool,
}

impl Model for Held {
    ghost use Rattle.std.specs.Prelude.{◌≤◌, length, if◌then◌else◌};
    ghost use Rattle.link_reading.specs.Links.{Links};

    ghost Value = { Links };

    ghost view = { λ h. record { contents = h.draft; versions = h.versions; links = h.links; complete = h.complete } };

    ghost invariant = { λ h. (if h.complete then 1 else 0) ≤ length h.draft.combinations };

    ghost inverse = { λ l. record { draft = l.contents; versions = l.versions; links = l.links; complete = l.complete } };
}

impl Held {
    // What the set is opened with, as link 0 says.
    pub fn opening(&self) -> Opening
        ensures { result ≡ self.now.contents.opening }
    {
        self.draft.opening()
    }

    // The combinations so far, the first one first.
    pub fn rows(&self) -> &[Combination]
        ensures rows { result.now ≡ self.now.contents.combinations }
        ensures some { (if self.now.complete then 1 else 0) ≤ length self.now.contents.combinations }
        ensures sound { SoundDraft self.now.contents }
    {
        self.draft.rows()
    }

    // The versions that they list, one bit each.
    pub fn versions(&self) -> u16
        ensures { result ≡ self.now.versions }
    {
        self.versions
    }

    // How many were read.
    pub fn links(&self) -> u8
        ensures { result ≡ self.now.links }
    {
        self.links
    }

    // Whether the last is among them.
    pub fn is_complete(&self) -> bool
        ensures { result ≡ self.now.complete }
    {
        self.complete
    }

    // The same links held once more.
    pub fn copied(&self) -> Held
        ensures { result ≡ self.now }
    {
        Held {
            draft: self.draft,
            versions: self.versions,
            links: self.links,
            complete: self.complete,
        }
    }
}
