// The comparison with a simulator by another hand: the changes of every net in all 64 lanes. The stored output is what
// that simulator says of the stored vectors (tools/make_vectors.py).
//
// Standard input is a stream of any number of vectors: two bytes with a length N, and N bytes. These are: the circuit's
// length (2), how many changes the inputs have together (2), the circuit, how many changes each input has (1 each), the times
// of the changes (4 each), a before word for each input and an after word for each change (8 each); inputs in order, and each
// input's changes in the order of their times. Numbers of more than one byte are little-endian. Standard output has for each
// vector a line a net, and an empty line after the last:
//
//     K t=word t=word ...; C
//
// K is the net's number. Frame 0 stands in the line, and every later frame whose word is another than that of the
// frame before: the time in decimal and the word in 16 hexadecimal digits, bit L for lane L. C is the sum over the 64
// lanes of what Count answers. A vector that is turned down has one line, `refused` and a number, and the empty line. The
// number is 0 if the vector has under 4 bytes or is shorter than its circuit, 11 if what stands behind the circuit is longer or
// shorter than said, and else Run's. The program stops at the end of the stream; where that lies within a vector, and where it
// cannot read or write on, which standard error then says, it prints `cut` and stops.
#![tactic(auto)]

ghost use Rattle.std.specs.Prelude.{◌≡◌, ◌+◌, ◌*◌, ◌≤◌, length};

mod nets;

use circuit::Task;
use method::{Tick, Words};
use nets::show_nets;
use numbers::number_at;
use std::io::{Eprint, Input, Print};
use testbench::{Cut, end_line, fill_list, read_all, read_first, show_cut, show_refused};

// Every frame total that Run can accept is within this limit.
const FULL_COURSE: u16 = 2048;

fn main(rt: HostRuntime) {
    if show_vectors(&rt).is_err() {
        show_cut(&rt);
    }
}

// No input has as many vectors as there are turns: each takes two bytes or more.
fn show_vectors(rt: &(impl Input + Print + Eprint)) -> Result<(), Cut> {
    for _ in 0..u64::MAX {
        let Some(length) = read_first::<2>(rt)? else {
            break;
        };
        let mut body = [0; 65535];
        let vector = &mut body[..usize::from(number_at(&length, 0))];
        read_all(rt, vector)?;
        show_vector(rt, vector)?;
        end_line(rt)?;
    }
    Ok(())
}

// Where the circuit ends, as the wave program asks in its question 0.
fn show_vector(rt: &(impl Print + Eprint), vector: &[u8]) -> Result<(), Cut> {
    if vector.len() < 4 {
        return refuse(rt, 0);
    }
    let end = 4 + usize::from(number_at(vector, 0));
    if vector.len() < end {
        return refuse(rt, 0);
    }
    let total = usize::from(number_at(vector, 2));
    show_circuit(rt, &vector[4..end], &vector[end..], total)
}

// Asks the circuit's questions before the one about the words. A count and a word go with each input, a time and a word with
// each change. An accepted circuit has at most 32 inputs; it is asked again, so that the lists hold what they must whatever the
// reader promises. More changes than 8 for each of so many are 20.
fn show_circuit(
    rt: &(impl Print + Eprint),
    file: &[u8],
    lists: &[u8],
    total: usize,
) -> Result<(), Cut>
    requires { total ≤ 65535 }
{
    match circuit::read(file) {
        Ok(read) => {
            // An accepted circuit has 160 nets at most, so nothing is cut off.
            let nets = read.inputs.saturating_add(read.gates);
            let inputs = usize::from(read.inputs);
            if lists.len() != 9 * inputs + 12 * total {
                return refuse(rt, 11);
            }
            if 32 < inputs {
                return refuse(rt, 2);
            }
            if 256 < total {
                return refuse(rt, 20);
            }
            show_run(rt, file, lists, inputs, total, nets)
        }
        Err(refusal) => refuse(rt, u8::from(refusal)),
    }
}

// Takes the counts, the times and the words from the bytes, runs the circuit, and prints its nets or the number of the refusal.
fn show_run(
    rt: &(impl Print + Eprint),
    file: &[u8],
    lists: &[u8],
    inputs: usize,
    total: usize,
    nets: u16,
) -> Result<(), Cut>
    requires { (inputs ≤ 32) × (total ≤ 256) × (length lists.now ≡ 9 * inputs + 12 * total) }
{
    let mut changes: [Tick; 256] = [0; 256];
    let mut before = [0u64; 32];
    let mut after = [0u64; 256];
    let words = inputs + 4 * total;
    fill_list(&mut changes[..total], &lists[inputs..]);
    fill_list(&mut before[..inputs], &lists[words..]);
    fill_list(&mut after[..total], &lists[words + 8 * inputs..]);
    let mut directory = [0u16; 320];
    let mut times: [Tick; 2048] = [0; 2048];
    let mut inertial = [0u16; 2048];
    let mut fanins = [0u16; 16384];
    let mut values = [0u64; 2048];
    let answer = engine::run(
        Task {
            file,
            counts: &lists[..inputs],
            changes: &changes[..total],
        },
        FULL_COURSE,
        &mut directory,
        &mut times,
        &mut inertial,
        &mut fanins,
        &mut values,
        Words {
            before: &before[..inputs],
            after: &after[..total],
        },
    );
    match answer {
        Ok(_) => show_nets(rt, &directory, &times, &values, nets),
        Err(refusal) => refuse(rt, u8::from(refusal)),
    }
}

fn refuse(rt: &(impl Print + Eprint), number: u8) -> Result<(), Cut> {
    show_refused(rt, number);
    end_line(rt)
}
