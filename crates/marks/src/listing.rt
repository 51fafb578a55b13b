// The expectations of a case, and Mark's answer in print.
use marking::{Expectation, Marking};
use method::{Net, Tick, Time};
use std::io::{Eprint, Print};
use testbench::{FromBytes, show_number, show_refusal, show_text};

// The expectations of the records, of twelve bytes each; behind them one whose every number is 0.
pub(crate) fn list_of(records: &[u8]) -> [Expectation; 12] {
    let mut list = [expectation_of(&[]); 12];
    for (expectation, record) in list.iter_mut().zip(records.chunks(12)) {
        *expectation = expectation_of(record);
    }
    list
}

fn expectation_of(record: &[u8]) -> Expectation {
    Expectation {
        net: Net(numbers::number_at(record, 0)),
        lane: numbers::byte_at(record, 2),
        from: Time(Tick::at_byte(record, 3)),
        to: Time(Tick::at_byte(record, 7)),
        level: numbers::byte_at(record, 11),
    }
}

pub(crate) fn show_marking(rt: &(impl Print + Eprint), answer: Marking) {
    match answer {
        Ok(None) => show_text(rt, b"all met"),
        Ok(Some(unmet)) => {
            show_text(rt, b"unmet");
            show_number(rt, unmet.position as u64);
            show_number(rt, u64::from(unmet.frame.0));
        }
        Err(refusal) => show_refusal(rt, refusal),
    }
}
