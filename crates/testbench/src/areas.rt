// The areas: filled with rubbish before a call, and summed as the call leaves them. The rules stand in lib.rt.
use crate::head::Head;
use crate::print::show_number;
use method::Tick;
use std::io::{Eprint, Print};

// Arrays that hold the areas in front; how long the areas are stands in a case's head.
#[derive(Drop)]
pub struct Areas {
    pub directory: [u16; 400],
    pub times: [Tick; 2100],
    pub inertial: [u16; 2100],
    pub fanins: [u16; 16400],
    pub values: [u64; 2100],
}

impl Areas {
    pub fn zeros() -> Areas {
        Areas {
            directory: [0; 400],
            times: [0; 2100],
            inertial: [0; 2100],
            fanins: [0; 16400],
            values: [0; 2100],
        }
    }

    pub fn rubbish(rubbish: u16) -> Areas {
        let mut areas = Areas::zeros();
        fill(&mut areas.directory, rubbish);
        fill(&mut areas.times, rubbish);
        fill(&mut areas.inertial, rubbish);
        fill(&mut areas.fanins, rubbish);
        fill(&mut areas.values, rubbish);
        areas
    }
}

// A number as areas hold it, by its parts of two bytes each.
trait Parts: Copy {
    // The number whose parts are all this one.
    fn of_part(part: u16) -> Self;

    // The sum with each of the number's parts, the lowest first.
    fn added_to(self, sum: u64) -> u64;
}

impl Parts for u16 {
    fn of_part(part: u16) -> u16 {
        part
    }

    fn added_to(self, sum: u64) -> u64 {
        with_number(sum, u64::from(self))
    }
}

impl Parts for u32 {
    fn of_part(part: u16) -> u32 {
        u32::from(part) * 65537
    }

    fn added_to(self, sum: u64) -> u64 {
        let a = with_number(sum, u64::from(self));
        with_number(a, u64::from(self / 65536))
    }
}

impl Parts for u64 {
    fn of_part(part: u16) -> u64 {
        u64::from(part) * 281479271743489
    }

    fn added_to(self, sum: u64) -> u64 {
        let a = with_number(sum, self);
        let b = with_number(a, self / 65536);
        let c = with_number(b, self / 4294967296);
        with_number(c, self / 281474976710656)
    }
}

fn fill<T: Parts>(area: &mut [T], rubbish: u16) {
    let mut part = rubbish;
    for number in area {
        *number = T::of_part(part);
        part = part.wrapping_add(257);
    }
}

pub fn show_sums(rt: &(impl Print + Eprint), head: Head, areas: &Areas) {
    show_plan_sums(rt, head, areas);
    show_sum(rt, &areas.values[..head.values_length()]);
}

// Of the areas that Plan is lent.
pub fn show_plan_sums(rt: &(impl Print + Eprint), head: Head, areas: &Areas) {
    show_sum(rt, &areas.directory[..head.directory_length()]);
    show_sum(rt, &areas.times[..head.times_length()]);
    show_sum(rt, &areas.inertial[..head.inertial_length()]);
    show_sum(rt, &areas.fanins[..head.fanins_length()]);
}

fn show_sum<T: Parts>(rt: &(impl Print + Eprint), numbers: &[T]) {
    show_number(
        rt,
        numbers.iter().fold(0, |sum, number| number.added_to(sum)),
    );
}

// The sum with one number more, of which the lowest two bytes count.
pub fn with_number(sum: u64, number: u64) -> u64 {
    (17 * (sum % 65521) + number % 65536 + 1) % 65521
}
