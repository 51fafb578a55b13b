// Loads of nets: how many nets a list of them suits, and the charge that their changes draw in a run that lies in areas.
#![tactic(auto)]

pub mod drawing;
pub mod listing;

// What a change on a net draws, in picocoulombs: one charge for any change, or one for rising and one for falling.
#[derive(Clone, Copy)]
pub enum Load {
    Any(f64),
    Edges { rising: f64, falling: f64 },
}
