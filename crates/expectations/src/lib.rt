// A list of expectations: how many nets it needs, and the first that areas with a run in them do not meet.
#![tactic(auto)]

pub mod needs;
pub mod search;

use method::{Frame, Net, Refusal, Time};

// What a marker expects: on this net, in this lane, this level (0 or 1) at every time from `from` to `to`, both included.
#[derive(Clone, Copy)]
pub struct Expectation {
    pub net: Net,
    pub lane: u8,
    pub from: Time,
    pub to: Time,
    pub level: u8,
}

// An expectation that is not met: its position in the list, from 0, and the first frame that breaks it.
#[derive(Clone, Copy)]
pub struct Unmet {
    pub position: usize,
    pub frame: Frame,
}

// What Mark answers: the first expectation that is not met, or none where all are; or the first "no".
pub type Marking = Result<Option<Unmet>, Refusal>;
