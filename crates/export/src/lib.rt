// The calls over plain numbers and slices, as C has them: `export_c` gives each to C. Each answers 0, with the numbers of its answer in a
// lent array; or the number of the first "no", and leaves that array as it was.
#![tactic(auto)]

ghost use Rattle.std.specs.Prelude.{◌≡◌};
ghost use Rattle.method.specs.Areas.{areas as planned};
ghost use Rattle.method.specs.WordLists.{word_lists};
ghost use Rattle.circuit.specs.Questions.{read_of};
ghost use Rattle.circuit.specs.Task.{task_of};
ghost use Rattle.converter.specs.Convert.{newer_of, older_of, other_of};
ghost use Rattle.looks.specs.Look.{level_of, count_of};
ghost use Rattle.planner.specs.Plan.{plan_of};
ghost use Rattle.engine.specs.Areas.{areas};
ghost use Rattle.engine.specs.Run.{run_of};
ghost use Rattle.sizes.specs.Sizes.{size_of};
ghost use Rattle.sizes.specs.Fitted.{fitted_of};
ghost use Rattle.answers.specs.Numbers.{numbers, numbered, in_numbers, outcome_in, net_numbers, total_numbers, sight_numbers, one_number};
ghost use Rattle.export.specs.Marked.{mark_in};

use answers::give;
use circuit::Task;
use method::{Tick, Time, Words};
use records::{RECORD_LENGTH, mark_first, records_of, records_suit};

// The bytes of the expectations are no whole number of records, or more than there is room for.
const NO_RECORDS: u32 = 100;

// Reads a circuit file: I and G.
pub fn mazh_read(file: &[u8], nets: &mut [u32; 2]) -> u32
    ensures { numbers result nets.new ≡ in_numbers net_numbers nets.old (read_of file.now) }
{
    give(circuit::read(file), nets)
}

// Plan: the frames, the fan-in entries and the last potential time.
pub fn mazh_plan(
    file: &[u8],
    counts: &[u8],
    changes: &[Tick],
    limit: u16,
    directory: &mut [u16],
    times: &mut [Tick],
    inertial: &mut [u16],
    fanins: &mut [u16],
    totals: &mut [u32; 3],
) -> u32
    ensures { numbered (numbers result totals.new) (planned directory.new times.new inertial.new fanins.new) ≡ outcome_in total_numbers totals.old (plan_of (task_of file.now counts.now changes.now) limit (planned directory.old times.old inertial.old fanins.old)) }
{
    let task = Task {
        file,
        counts,
        changes,
    };
    let answer = planner::plan(task, limit, directory, times, inertial, fanins);
    give(answer, totals)
}

// Run: the totals of Plan.
pub fn mazh_run(
    file: &[u8],
    counts: &[u8],
    changes: &[Tick],
    limit: u16,
    directory: &mut [u16],
    times: &mut [Tick],
    inertial: &mut [u16],
    fanins: &mut [u16],
    values: &mut [u64],
    before: &[u64],
    after: &[u64],
    totals: &mut [u32; 3],
) -> u32
    ensures { numbered (numbers result totals.new) (areas directory.new times.new inertial.new fanins.new values.new) ≡ outcome_in total_numbers totals.old (run_of (task_of file.now counts.now changes.now) limit (word_lists before.now after.now) (areas directory.old times.old inertial.old fanins.old values.old)) }
{
    let task = Task {
        file,
        counts,
        changes,
    };
    let words = Words { before, after };
    let answer = engine::run(
        task, limit, directory, times, inertial, fanins, values, words,
    );
    give(answer, totals)
}

// Size: the totals of Plan.
pub fn mazh_size(
    file: &[u8],
    counts: &[u8],
    changes: &[Tick],
    limit: u16,
    totals: &mut [u32; 3],
) -> u32
    ensures { numbers result totals.new ≡ in_numbers total_numbers totals.old (size_of (task_of file.now counts.now changes.now) limit) }
{
    let task = Task {
        file,
        counts,
        changes,
    };
    give(sizes::size(task, limit), totals)
}

// The fitted Run: the totals of Plan.
pub fn mazh_run_fitted(
    file: &[u8],
    counts: &[u8],
    changes: &[Tick],
    limit: u16,
    directory: &mut [u16],
    times: &mut [Tick],
    inertial: &mut [u16],
    fanins: &mut [u16],
    values: &mut [u64],
    before: &[u64],
    after: &[u64],
    totals: &mut [u32; 3],
) -> u32
    ensures { numbered (numbers result totals.new) (areas directory.new times.new inertial.new fanins.new values.new) ≡ outcome_in total_numbers totals.old (fitted_of (task_of file.now counts.now changes.now) limit (word_lists before.now after.now) (areas directory.old times.old inertial.old fanins.old values.old)) }
{
    let task = Task {
        file,
        counts,
        changes,
    };
    let words = Words { before, after };
    let answer = sizes::run_fitted(
        task, limit, directory, times, inertial, fanins, values, words,
    );
    give(answer, totals)
}

// Level: the level, the frame's begin and its end, which is 0 where it has none.
pub fn mazh_level(times: &[Tick], values: &[u64], lane: u8, time: Tick, sight: &mut [u32; 3]) -> u32
    ensures { numbers result sight.new ≡ in_numbers sight_numbers sight.old (level_of times.now values.now lane time) }
{
    give(looks::level(times, values, lane, Time(time)), sight)
}

// Count: how many changes.
#[tactic(auto, using(answers::proofs::Given::given_answer, answers::proofs::Given::given_numbers))]
pub fn mazh_count(times: &[Tick], values: &[u64], lane: u8, changes: &mut [u32; 1]) -> u32
    ensures { numbers result changes.new ≡ in_numbers one_number changes.old (count_of times.now values.now lane) }
{
    give(looks::count(times, values, lane), changes)
}

// From the former edition of the circuit file to the present one: the length of the file written.
#[tactic(auto, using(answers::proofs::Given::given_areas))]
pub fn mazh_newer(file: &[u8], area: &mut [u8], length: &mut [u32; 1]) -> u32
    ensures { numbered (numbers result length.new) area.new ≡ outcome_in one_number length.old (newer_of file.now area.old) }
{
    give(converter::newer(file, area), length)
}

// From the present edition to the former one.
pub fn mazh_older(file: &[u8], area: &mut [u8], length: &mut [u32; 1]) -> u32
    ensures { numbered (numbers result length.new) area.new ≡ outcome_in one_number length.old (older_of file.now area.old) }
{
    give(converter::older(file, area), length)
}

// From the file's own edition to the other.
pub fn mazh_other(file: &[u8], area: &mut [u8], length: &mut [u32; 1]) -> u32
    ensures { numbered (numbers result length.new) area.new ≡ outcome_in one_number length.old (other_of file.now area.old) }
{
    give(converter::other(file, area), length)
}

// Mark, with the expectations as bytes: 1 where all are met; else 0, the position and the frame of the first that is not.
pub fn mazh_mark(
    file: &[u8],
    counts: &[u8],
    changes: &[Tick],
    limit: u16,
    directory: &mut [u16],
    times: &mut [Tick],
    inertial: &mut [u16],
    fanins: &mut [u16],
    values: &mut [u64],
    before: &[u64],
    after: &[u64],
    expectations: &[u8],
    verdict: &mut [u64; 3],
) -> u32
    ensures { numbered (numbers result verdict.new) (areas directory.new times.new inertial.new fanins.new values.new) ≡ mark_in verdict.old (task_of file.now counts.now changes.now) limit (word_lists before.now after.now) (areas directory.old times.old inertial.old fanins.old values.old) expectations.now }
{
    let task = Task {
        file,
        counts,
        changes,
    };
    let words = Words { before, after };
    if !records_suit(expectations) {
        return NO_RECORDS;
    }
    let count = expectations.len() / RECORD_LENGTH;
    let answer = mark_first(
        task,
        limit,
        directory,
        times,
        inertial,
        fanins,
        values,
        words,
        records_of(expectations, count),
        count,
    );
    give(answer, verdict)
}
