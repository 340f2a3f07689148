// What an end holds beside its line and its procedures.
// Line and report come apart into its calls: the line is the end's, the report the caller's, and a struct of both would be made only to be taken apart.
ghost use Rattle.std.specs.Prelude.{◌≡◌, Some, None, option_map};
ghost use Rattle.bearer.specs.Bearing.{opened, with_force, in_force, standing};

mod asking;
mod errors;
mod receiving;
mod sending;

use crate::settings::Settings;
pub use crate::traffic::Traffic;
use frames::number::Number;
use set_in_force::in_force::InForce;
use sets::closed::Set;
use std::marker::Model;

#[derive(Clone, Copy)]
pub struct Bearer {
    settings: Settings,
    // of the next error event
    events: Number,
    traffic: Option<Traffic>,
}

impl Model for Bearer {
    ghost use Rattle.bearer.specs.Bearing.{Bearing};

    ghost Value = { Bearing };

    ghost view = { λ b. record { settings = b.settings; events = b.events; force = b.traffic } };

    ghost inverse = { λ b. record { settings = b.settings; events = b.events; traffic = b.force } };
}

impl Bearer {
    // No set is in force, and error events are numbered from 0.
    pub fn new(settings: Settings) -> Bearer
        ensures { result ≡ opened settings }
    {
        Bearer::numbered(settings, Number::first())
    }

    // The same, with the number of the first error event as its owner gives it: one that takes the place of another goes on from there.
    pub fn numbered(settings: Settings, events: Number) -> Bearer
        ensures { result ≡ record (opened settings) { events = events } }
    {
        Bearer {
            settings,
            events,
            traffic: None,
        }
    }

    pub fn settings(&self) -> Settings
        ensures { result ≡ self.now.settings }
    {
        self.settings
    }

    // The number of the next error event.
    pub fn events(&self) -> Number
        ensures { result ≡ self.now.events }
    {
        self.events
    }

    // The set in force, and the numbers of its user data.
    pub fn traffic(&self) -> Option<&Traffic>
        ensures { option_map (λ t. t.now) result ≡ self.now.force }
    {
        self.traffic.as_ref()
    }

    // A set comes into force: both numbers begin at 0.
    pub fn enforce(&mut self, set: Set)
        ensures { self.new ≡ with_force (Some (in_force set)) self.old }
    {
        self.traffic = Some(Traffic::of_set(set));
    }

    // No set is in force any more.
    pub fn suspend(&mut self)
        ensures { self.new ≡ with_force None self.old }
    {
        self.traffic = None;
    }

    // The set in force, with the marks of its combinations.
    pub fn in_force(&self) -> Option<&InForce>
        ensures { option_map (λ s. s.now) result ≡ standing self.now.force }
    {
        self.traffic().map(|traffic| traffic.set())
    }
}
