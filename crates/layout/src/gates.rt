// The gates, one after the other: each is planned from the nets before it.
ghost use Rattle.std.specs.Prelude.{◌≡◌, ◌+◌, ◌*◌, ◌≤◌, ◌<◌, length};
ghost use Rattle.method.specs.Kinds.{most_fanins};
ghost use Rattle.method.specs.Times.{gate_times};
ghost use Rattle.method.specs.Limits.{most_net_frames, most_total_frames};
ghost use Rattle.circuit.specs.File.{inputs_of, gates_of};
ghost use Rattle.circuit.specs.Task.{task_in};
ghost use Rattle.method.specs.Areas.{areas};
ghost use Rattle.gathering.specs.Steps.{Fed, spans};
ghost use Rattle.layout.specs.Steps.{Given, Going, Counted, Reached};

use crate::MOST_FANINS;
use circuit::{GateRecord, InputsAndGates, Task};
use framing::store_gate;
use gathering::gate_times;
use method::{Net, Tick, Totals};

const MOST_NET_FRAMES: usize = 64;

const MOST_TOTAL_FRAMES: u16 = 2048;

// Room for the times of any gate, from those of its fan-ins.
pub const GATHERED_LENGTH: usize = MOST_FANINS * MOST_NET_FRAMES + 2;

// Plans the gates, until one shows that there are too many frames. The row in which a gate's times are gathered is made once for
// all gates, since to clear it for each would cost more than to fill it.
pub(crate) fn add_gates(
    task: Task,
    nets: InputsAndGates,
    directory: &mut [u16],
    times: &mut [Tick],
    inertial: &mut [u16],
    fanins: &mut [u16],
    start: Totals,
) -> Option<Totals>
    requires given { Given (task_in task) (areas directory.old times.old inertial.old fanins.old) × (nets.inputs ≡ inputs_of task.file.now) × (nets.gates ≡ gates_of task.file.now) }
    requires going { Going (task_in task) 0 (areas directory.old times.old inertial.old fanins.old) start }
    ensures { Reached (task_in task.entry) nets.gates (areas directory.new times.new inertial.new fanins.new) result }
{
    let mut gathered: [Tick; GATHERED_LENGTH] = [0; GATHERED_LENGTH];
    let mut totals = start;
    for j in 0..nets.gates {
        let net = Net(nets.inputs + j);
        totals = add_gate(
            task,
            j,
            net,
            directory,
            times,
            inertial,
            fanins,
            &mut gathered,
            totals,
        )?;
    }
    Some(totals)
}

// Plans gate j, which drives `net`, after the nets before it, unless there are too many frames.
fn add_gate(
    task: Task,
    j: u16,
    net: Net,
    directory: &mut [u16],
    times: &mut [Tick],
    inertial: &mut [u16],
    fanins: &mut [u16],
    gathered: &mut [Tick],
    totals: Totals,
) -> Option<Totals>
    requires given { Given (task_in task) (areas directory.old times.old inertial.old fanins.old) × (j < gates_of task.file.now) × (net.0 ≡ inputs_of task.file.now + j) }
    requires going { Going (task_in task) j (areas directory.old times.old inertial.old fanins.old) totals }
    requires most_net_frames_in_bounds { 1 + most_fanins * most_net_frames < length gathered.old }
    ensures { Reached (task_in task.entry) (j + 1) (areas directory.new times.new inertial.new fanins.new) result }
{
    let gate = circuit::gate_at(task.file, j);
    let count = time_gate(task.file, gate, directory, times, gathered, totals.frames)?;
    let own = &gathered[0..count];
    Some(store_gate(
        task.file, gate, net, own, directory, times, inertial, fanins, totals,
    ))
}

// Puts the times of a gate at the front of `gathered`, and counts them, unless they are too many for a net, or too many behind the
// first frames.
pub fn time_gate(
    file: &[u8],
    gate: GateRecord,
    directory: &[u16],
    times: &[Tick],
    gathered: &mut [Tick],
    first: u16,
) -> Option<usize>
    requires fed { Fed file.now gate directory.now times.now × (first ≤ most_total_frames) }
    requires most_net_frames_in_bounds { 1 + most_fanins * most_net_frames < length gathered.old }
    ensures { Counted gathered.new (gate_times gate.delay (spans file.now gate.list gate.entries directory.now times.now)) first result }
{
    let count = gate_times(file, gate, directory, times, gathered);
    if MOST_NET_FRAMES < count {
        return None;
    }
    if ((MOST_TOTAL_FRAMES - first) as usize) < count {
        return None;
    }
    Some(count)
}
