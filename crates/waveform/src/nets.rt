// The lines of the nets, and the answer to a circuit with its words.
ghost use Rattle.std.specs.Prelude.{◌≡◌, length};
ghost use Rattle.method.specs.Changes.{schedule};
ghost use Rattle.method.specs.Once.{ones};
ghost use Rattle.method.specs.WordLists.{words_in};
ghost use Rattle.circuit.specs.Questions.{read_of};
ghost use Rattle.circuit.specs.Task.{task_in};
ghost use Rattle.engine.specs.Areas.{areas};
ghost use Rattle.waveform.specs.Wave.{answer_text};
ghost use Rattle.text.specs.Wrote.{Wrote};
ghost use Rattle.waveform.specs.Steps.{list_length, part_frames, area_line, area_lines, nets_read, run_text};

use crate::input::{list_length, take_words};
use circuit::Task;
use method::{Frame, Net, Tick, Words};
use text::{put_frame, put_newline, put_number, put_refused};

// The wave program's limit on frames is the greatest that there is.
const FRAME_LIMIT: u16 = 2048;

// So many frames of a net, in lane 0, from its parts of the times and the values.
fn put_frames(output: &mut [u8], at: usize, times: &[Tick], values: &[u64], frames: u16) -> usize
    ensures { Wrote output.old at (part_frames times.now values.now frames) output.new result }
{
    let mut end = at;
    for k in 0..frames {
        let seen = looks::sight_at(times, values, 0, Frame(k));
        end = put_frame(output, end, seen.began, seen.level);
    }
    end
}

// A net's line.
fn put_net(
    output: &mut [u8],
    at: usize,
    directory: &[u16],
    times: &[Tick],
    values: &[u64],
    net: Net,
) -> usize
    ensures { Wrote output.old at (area_line directory.now times.now values.now net.0) output.new result }
{
    let frames = slices::entry_at(directory, 2 * (net.0 as usize) + 1);
    let t = looks::times_of(directory, times, net);
    let v = looks::values_of(directory, values, net);
    let a = put_number(output, at, net.0 as u32);
    let b = put_frames(output, a, t, v, frames);
    put_newline(output, b)
}

// The lines of the first nets, from the buffer's start on.
fn put_nets(
    output: &mut [u8],
    directory: &[u16],
    times: &[Tick],
    values: &[u64],
    nets: u16,
) -> usize
    ensures { Wrote output.old 0 (area_lines directory.now times.now values.now nets) output.new result }
{
    let mut end = 0;
    for net in 0..nets {
        end = put_net(output, end, directory, times, values, Net(net));
    }
    end
}

// Runs the circuit of the file in these areas, and writes the lines of its nets, or the refusal.
fn put_run(
    task: Task,
    directory: &mut [u16],
    times: &mut [Tick],
    inertial: &mut [u16],
    fanins: &mut [u16],
    values: &mut [u64],
    words: Words,
    output: &mut [u8],
) -> usize
    ensures { Wrote output.old 0 (run_text (task_in task.entry) (words_in words.entry) (areas directory.old times.old inertial.old fanins.old values.old)) output.new result }
{
    match engine::run(
        task,
        FRAME_LIMIT,
        directory,
        times,
        inertial,
        fanins,
        values,
        words,
    ) {
        Err(refusal) => put_refused(output, u8::from(refusal)),
        Ok(_) => put_nets(output, directory, times, values, net_count(task.file)),
    }
}

// How many nets the circuit of the file has, by the reader's answer; none where it is refused.
fn net_count(file: &[u8]) -> u16
    ensures { result ≡ nets_read (read_of file.now) }
{
    match circuit::read(file) {
        Ok(read) => read.inputs + read.gates,
        Err(_) => 0,
    }
}

// Takes both lists from the word part, which has as many words for each as they have places, and writes what Run answers
// to them, where there are as many counts of 1 and times of 1: each input changes once, at 1.
fn put_with_words(
    task: Task,
    part: &[u8],
    before: &mut [u64],
    after: &mut [u64],
    output: &mut [u8],
) -> usize
    requires before_len { (length before.old ≡ list_length (length part.now)) × (length after.old ≡ list_length (length part.now)) }
    requires changes_value { schedule task.counts.now task.changes.now ≡ ones (list_length (length part.now)) }
    ensures { Wrote output.old 0 (answer_text task.entry.file.now part.now) output.new result }
{
    let mut directory = [0u16; 320];
    let mut times: [Tick; 2048] = [0; 2048];
    let mut inertial = [0u16; 2048];
    let mut fanins = [0u16; 16384];
    let mut values = [0u64; 2048];
    take_words(part, 0, before);
    take_words(part, before.len(), after);
    put_run(
        task,
        &mut directory,
        &mut times,
        &mut inertial,
        &mut fanins,
        &mut values,
        Words { before, after },
        output,
    )
}

// The answer to a circuit file and its word part, from the buffer's start on.
pub(crate) fn put_answer(file: &[u8], part: &[u8], output: &mut [u8]) -> usize
    ensures { Wrote output.old 0 (answer_text file.now part.now) output.new result }
{
    let counts = [1u8; 32];
    let changes: [Tick; 32] = [1; 32];
    let mut before = [0u64; 32];
    let mut after = [0u64; 32];
    let n = list_length(part);
    put_with_words(
        Task {
            file,
            counts: &counts[0..n],
            changes: &changes[0..n],
        },
        part,
        &mut before[0..n],
        &mut after[0..n],
        output,
    )
}
