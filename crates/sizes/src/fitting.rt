// The questions of the fitted Run. All of them are asked before anything is written, so the areas are only lent to be read.
ghost use Rattle.std.specs.Prelude.{◌≡◌};
ghost use Rattle.lists.specs.Ladder.{first_no, accepted};
ghost use Rattle.method.specs.Refusals.{first_of, on_paper};
ghost use Rattle.method.specs.WordLists.{words_in, lengths_of};
ghost use Rattle.circuit.specs.File.{inputs_of, gates_of};
ghost use Rattle.circuit.specs.Questions as reader;
ghost use Rattle.circuit.specs.Task.{task_in};
ghost use Rattle.engine.specs.Areas.{areas};
ghost use Rattle.sizes.specs.Fitted.{areas_fit, own_questions};
ghost use Rattle.sizes.specs.Steps.{questions_of};

use crate::totals::totals_within;
use circuit::{InputsAndGates, Reading, Task};
use method::{Refusal, Tick, Totals, Words};

// All questions in their order. It answers what the reader does.
pub(crate) fn questions(
    task: Task,
    limit: u16,
    directory: &[u16],
    times: &[Tick],
    inertial: &[u16],
    fanins: &[u16],
    values: &[u64],
    words: Words,
) -> Reading
    ensures { on_paper result ≡ questions_of (task_in task.entry) limit (lengths_of (words_in words.entry)) (areas directory.now times.now inertial.now fanins.now values.now) }
{
    let read = circuit::read(task.file)?;
    ask_own(
        task, limit, read, directory, times, inertial, fanins, values, words,
    )?;
    Ok(read)
}

// Questions 11, 20, 13, 22 and 10 of an accepted file.
fn ask_own(
    task: Task,
    limit: u16,
    nets: InputsAndGates,
    directory: &[u16],
    times: &[Tick],
    inertial: &[u16],
    fanins: &[u16],
    values: &[u64],
    words: Words,
) -> Result<(), Refusal>
    requires { (reader.read_of task.file.now ≡ accepted (record { inputs = inputs_of task.file.now; gates = gates_of task.file.now })) × (nets.inputs ≡ inputs_of task.file.now) × (nets.gates ≡ gates_of task.file.now) }
    ensures { first_of result ≡ first_no (own_questions (task_in task.entry) limit (lengths_of (words_in words.entry)) (areas directory.now times.now inertial.now fanins.now values.now)) }
{
    if !stimulus::words_suit(nets.inputs, task.changes, words) {
        return Err(Refusal::WordCounts);
    }
    if !stimulus::changes_suit(nets.inputs, task.counts, task.changes) {
        return Err(Refusal::ChangeTimes);
    }
    let totals = totals_within(task, limit, nets)?;
    if !areas_fit(
        nets.inputs + nets.gates,
        totals,
        directory,
        times,
        inertial,
        fanins,
        values,
    ) {
        return Err(Refusal::AreaLengths);
    }
    Ok(())
}

// Question 10, of the fitted Run's five areas, where there are this many nets with these totals.
fn areas_fit(
    nets: u16,
    totals: Totals,
    directory: &[u16],
    times: &[Tick],
    inertial: &[u16],
    fanins: &[u16],
    values: &[u64],
) -> bool
    ensures { result ≡ areas_fit nets totals (areas directory.now times.now inertial.now fanins.now values.now) }
{
    let frames = totals.frames as usize;
    if directory.len() != 2 * (nets as usize) {
        return false;
    }
    if times.len() != frames {
        return false;
    }
    if inertial.len() != frames {
        return false;
    }
    if fanins.len() != totals.fanins as usize {
        return false;
    }
    values.len() == frames
}
