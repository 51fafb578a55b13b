// The totals of a plan, without the plan: the frames of every net are counted, and of the areas only the directory and the times
// are made, since a gate's times are gathered from those before it. An inner crate: its function asks its caller for what it needs.
#![tactic(auto)]

ghost use Rattle.std.specs.Prelude.{◌≡◌, ◌+◌, ◌*◌, ◌<◌, length};
ghost use Rattle.method.specs.Kinds.{most_fanins};
ghost use Rattle.method.specs.Limits.{most_net_frames};
ghost use Rattle.circuit.specs.File.{inputs_of, gates_of};
ghost use Rattle.circuit.specs.Task.{task_in};
ghost use Rattle.counting.specs.Steps.{Asked, Counting, CountedTo, Totalled};

use circuit::{InputsAndGates, Task};
use framing::store_times;
use layout::time_gate;
use method::{Net, Tick, Totals};

// A pair for each net of the largest circuit.
const DIRECTORY_LENGTH: usize = 320;

// A place for each frame that a circuit may have.
const TIMES_LENGTH: usize = 2048;

// Counts the frames of all nets, until a gate shows that there are too many. It lays 11 kilobytes on the stack, the two areas and
// the row in which a gate's times are gathered; nobody reads inertial indices and fan-in rows, so none are made.
pub fn count(task: Task, nets: InputsAndGates) -> Option<Totals>
    requires { Asked (task_in task) × (nets.inputs ≡ inputs_of task.file.now) × (nets.gates ≡ gates_of task.file.now) }
    ensures { Totalled (task_in task.entry) result }
{
    let mut directory = [0u16; DIRECTORY_LENGTH];
    let mut times: [Tick; TIMES_LENGTH] = [0; TIMES_LENGTH];
    let start = layout::add_inputs(task.counts, task.changes, &mut directory, &mut times);
    count_gates(task, nets, &mut directory, &mut times, start)
}

// Counts the gates' frames behind those of the inputs.
fn count_gates(
    task: Task,
    nets: InputsAndGates,
    directory: &mut [u16],
    times: &mut [Tick],
    start: Totals,
) -> Option<Totals>
    requires { Counting (task_in task) 0 directory.old times.old start × (nets.inputs ≡ inputs_of task.file.now) × (nets.gates ≡ gates_of task.file.now) }
    ensures { Totalled (task_in task.entry) result }
{
    let mut gathered: [Tick; layout::GATHERED_LENGTH] = [0; layout::GATHERED_LENGTH];
    let mut totals = start;
    for j in 0..nets.gates {
        let net = Net(nets.inputs + j);
        totals = count_gate(task, j, net, directory, times, &mut gathered, totals)?;
    }
    Some(totals)
}

// Counts the frames of gate j, which drives `net`, and stores its times for the gates behind it.
fn count_gate(
    task: Task,
    j: u16,
    net: Net,
    directory: &mut [u16],
    times: &mut [Tick],
    gathered: &mut [Tick],
    totals: Totals,
) -> Option<Totals>
    requires counting { Counting (task_in task) j directory.old times.old totals × (j < gates_of task.file.now) × (net.0 ≡ inputs_of task.file.now + j) }
    requires most_net_frames_in_bounds { 1 + most_fanins * most_net_frames < length gathered.old }
    ensures { CountedTo (task_in task.entry) (j + 1) directory.new times.new result }
{
    let gate = circuit::gate_at(task.file, j);
    let count = time_gate(task.file, gate, directory, times, gathered, totals.frames)?;
    let own = &gathered[0..count];
    Some(store_times(gate.entries, net, own, directory, times, totals))
}
