// Expectations as bytes, records of twelve, and Mark on them. An inner crate: its functions ask their caller for what they need.
#![tactic(auto)]

ghost use Rattle.std.specs.Prelude.{◌≡◌, ◌≤◌, take};
ghost use Rattle.records.specs.Records.{most_records, time_at, record_at, first_records, records_suit};

mod lending;

use expectations::Expectation;
pub use lending::mark_first;
use method::{Net, Tick, Time};

pub const RECORD_LENGTH: usize = 12;

const MOST_RECORDS: usize = 1024;

// Whether the bytes are a whole number of records, and not too many.
#[tactic(auto, unfolding(crate::specs::Records::records_suit))]
pub fn records_suit(bytes: &[u8]) -> bool
    ensures { result ≡ records_suit bytes.now }
{
    if bytes.len() % RECORD_LENGTH != 0 {
        return false;
    }
    bytes.len() / RECORD_LENGTH <= MOST_RECORDS
}

// The first records of the bytes, and behind them records of zeros.
pub fn records_of(bytes: &[u8], count: usize) -> [Expectation; MOST_RECORDS]
    requires { count ≤ most_records }
    ensures { take count result ≡ first_records bytes.now count }
{
    let none = Expectation {
        net: Net(0),
        lane: 0,
        from: Time(0),
        to: Time(0),
        level: 0,
    };
    let mut list = [none; MOST_RECORDS];
    for k in 0..count {
        list[k] = record_at(bytes, RECORD_LENGTH * k);
    }
    list
}

// The record that starts at a place.
#[tactic(auto, unfolding(crate::specs::Records::record_at))]
fn record_at(bytes: &[u8], at: usize) -> Expectation
    requires { at ≤ 12288 }
    ensures { result ≡ record_at bytes.now at }
{
    Expectation {
        net: Net(numbers::number_at(bytes, at)),
        lane: numbers::byte_at(bytes, at + 2),
        from: Time(time_at(bytes, at + 4)),
        to: Time(time_at(bytes, at + 8)),
        level: numbers::byte_at(bytes, at + 3),
    }
}

// The time whose four bytes start at a place.
#[tactic(auto, unfolding(crate::specs::Records::time_at))]
fn time_at(bytes: &[u8], at: usize) -> Tick
    requires { at ≤ 12296 }
    ensures { result ≡ time_at bytes.now at }
{
    numbers::number_at(bytes, at) as Tick + 65536 * (numbers::number_at(bytes, at + 2) as Tick)
}
