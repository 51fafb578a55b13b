// A circuit with its words, as a case has them.
use crate::head::Head;
use crate::input::{Cut, read_all, read_list};
use circuit::Task;
use method::{Tick, Words};
use std::io::{Eprint, Input};

// A head and what follows it: the input had it all, and the buffers hold it.
#[derive(Drop)]
pub struct Case {
    pub head: Head,
    file: [u8; 70000],
    counts: [u8; 80],
    changes: [Tick; 400],
    before: [u64; 400],
    after: [u64; 400],
}

impl Case {
    pub fn file(&self) -> &[u8] {
        &self.file[..self.head.file_length()]
    }

    pub fn task(&self) -> Task {
        Task {
            file: self.file(),
            counts: &self.counts[..self.head.counts_length()],
            changes: &self.changes[..self.head.changes_length()],
        }
    }

    pub fn words(&self) -> Words {
        Words {
            before: &self.before[..self.head.before_length()],
            after: &self.after[..self.head.after_length()],
        }
    }
}

pub fn read_case(rt: &(impl Input + Eprint)) -> Result<Case, Cut> {
    let mut bytes = [0; 24];
    let head = read_all(rt, &mut bytes);
    let case = read_behind(rt, Head(bytes));
    head.and(case)
}

// The case of a head, which was read before. All that should follow it is asked for before any of it is judged.
pub fn read_behind(rt: &(impl Input + Eprint), head: Head) -> Result<Case, Cut> {
    let mut case = Case {
        head,
        file: [0; 70000],
        counts: [0; 80],
        changes: [0; 400],
        before: [0; 400],
        after: [0; 400],
    };
    let file = read_all(rt, &mut case.file[..head.file_length()]);
    let counts = read_all(rt, &mut case.counts[..head.counts_length()]);
    let changes = read_list(rt, &mut case.changes[..head.changes_length()]);
    let before = read_list(rt, &mut case.before[..head.before_length()]);
    let after = read_list(rt, &mut case.after[..head.after_length()]);
    file.and(counts).and(changes).and(before).and(after)?;
    if !head.is_held() {
        return Err(Cut);
    }
    Ok(case)
}
