// Runs a parse table over an input.
#![tactic(auto)]

ghost use Rattle.std.specs.Prelude.{◌≡◌, true, ◌∷◌, ◌+◌, ◌^◌, ◌<◌, ◌≤◌, length, take, replicate};
ghost use Rattle.machine.specs.Checks.{input_ok, closed_ok, restricted_refusal};
ghost use Rattle.machine.specs.ComputedRun.{Machine, Outcome, start, reading, restricted_reading};
ghost use Rattle.machine.specs.RunTo.{run_to};
ghost use Rattle.machine.proofs.Checked.{Checked, Passed};
ghost use Rattle.exploration.specs.Expected.{Explores};
ghost use Rattle.steps.specs.State.{machine_of, stop_number, Held};
ghost use Rattle.parser.specs.Answer.{counts_of, reading_numbers, ReadsAs};
ghost use Rattle.parser.specs.Phases.{reached, accepted_at, count_bits, Countable, At, Says, Ends, Advances, start_state, checkpoint_at, ResumesIn, Resumes, Explorable, tells, AnswersAt, Answers, Ready, ReadsTo};
ghost use Rattle.parser.specs.Terminals.{Lists};

use exploration::Cut;
use std::ops::ControlFlow;
use steps::{State, Stop};
use table_checks::Refusal;
use tables::Shape;
use unlisted_steps::Spot;

// The steps made, the stack places in use and the productions listed.
#[derive(Clone, Copy)]
pub struct Counts {
    pub steps: u64,
    pub depth: usize,
    pub listed: usize,
}

// How a reading ended; `reading_numbers` of specs/Answer.antt gives the paper's number and values of each.
#[derive(Clone, Copy)]
pub enum Reading {
    Accepted(Counts),
    // A wrong terminal at a position, one with no action or a closed one, with the expected set and its size.
    NoAction {
        position: usize,
        expected: u64,
        size: u32,
        counts: Counts,
    },
    // A wrong terminal, too, but a fresh reading was cut short: which terminals can follow is not known.
    ExpectedUnknown {
        position: usize,
        counts: Counts,
    },
    StepLimit(Counts),
    StackFull(Counts),
    ListFull(Counts),
    // A reduction that no table of the maker asks for.
    Broken(Counts),
}

// How a run ends: with the reading's end, or before a wrong terminal, where the expected set is yet to be found.
#[derive(Clone, Copy)]
enum Ending {
    Final(Reading),
    Wrong(usize, Counts),
}

// Where a run has been: a fresh reading can go on from there. The second area holds the stack.
#[derive(Clone, Copy)]
struct Checkpoint {
    spot: Spot,
    position: usize,
}

// How a run ended, and its last checkpoint, if it came to one.
#[derive(Clone, Copy)]
struct Course {
    end: Ending,
    checkpoint: Option<Checkpoint>,
}

fn count(s: State) -> Counts
    requires { Countable count_bits s }
    ensures { counts_of result ≡ reached s }
{
    Counts {
        steps: (s.position + s.listed) as u64,
        depth: s.depth,
        listed: s.listed,
    }
}

fn stopped(e: Stop, s: State) -> Reading
    requires { Countable count_bits s }
    ensures { reading_numbers result ≡ stop_number e ∷ reached s }
{
    let c = count(s);
    match e {
        Stop::StackFull => Reading::StackFull(c),
        Stop::ListFull => Reading::ListFull(c),
        Stop::Broken => Reading::Broken(c),
    }
}

// Acceptance is a step of its own.
fn accepted(s: State) -> Reading
    requires { s.position + s.listed + 1 < 2 ^ count_bits }
    ensures { reading_numbers result ≡ 0 ∷ accepted_at s }
{
    Reading::Accepted(Counts {
        steps: (s.position + s.listed + 1) as u64,
        depth: s.depth,
        listed: s.listed,
    })
}

// The steps from a state, as many as it has left, over a line with the end of the input or a bar behind it: the run's
// end, or the state to go on from, with no step left.
fn advance(
    table: &[u16],
    cells: &[u16],
    line: &[u8],
    barred: bool,
    stack: &mut [u16],
    list: &mut [u16],
    z: Shape,
    from: State,
) -> ControlFlow<Ending, State>
    requires { (Passed table.now line.now (length stack.old)) × (length line.now ≤ 65535) × (Held table.now cells.now stack.old list.old z from) × (from.position + from.listed + from.left < 2 ^ count_bits) }
    ensures { Advances table.now line.now barred cells.now z from (machine_of stack.old list.old from) stack.new list.new result }
{
    let mut s = from;
    loop {
        let a = steps::action(cells, line, barred, z, s);
        if a == 0 {
            return ControlFlow::Break(Ending::Wrong(s.position, count(s)));
        }
        if s.left == 0 {
            return ControlFlow::Continue(s);
        }
        match steps::step(table, cells, stack, list, z, s, a) {
            Ok(Some(t)) => s = t,
            Ok(None) => return ControlFlow::Break(Ending::Final(accepted(s))),
            Err(e) => return ControlFlow::Break(Ending::Final(stopped(e, s))),
        }
    }
}

// How many of the steps left are made before the next checkpoint: so many that a copy of the stack costs little beside them.
fn portion(left: u64, depth: usize) -> u64
    ensures { (result ≤ left) × (0 < left → 0 < result) }
{
    let depth = depth.max(512);
    if (left as usize) < depth {
        left
    } else {
        depth as u64
    }
}

// State 0 alone, before the first step.
fn at_start() -> State
    ensures { result ≡ start_state }
{
    State {
        depth: 1,
        listed: 0,
        position: 0,
        left: 0,
        top: 0,
    }
}

// Leaves a checkpoint at a state, with so many steps left: the second area takes the stack. It is called seldom, and
// stands apart so that the steps have the registers.
#[inline(never)]
fn leave_checkpoint(stack: &[u16], second: &mut [u16], s: State, left: u64) -> Checkpoint
    requires { (s.depth ≤ length stack.now) × (s.depth ≤ length second.old) }
    ensures { (result ≡ checkpoint_at s left) × (take s.depth second.new ≡ take s.depth stack.now) }
{
    scans::copy(stack, second, s.depth);
    Checkpoint {
        spot: Spot {
            depth: s.depth,
            left,
            top: s.top,
        },
        position: s.position,
    }
}

// The run over a line by a table, both checked. Now and then it leaves a checkpoint.
fn run(
    table: &[u16],
    line: &[u8],
    barred: bool,
    stack: &mut [u16],
    list: &mut [u16],
    second: &mut [u16],
    step_limit: u64,
) -> Course
    requires { (Passed table.now line.now (length stack.old)) × (length line.now ≤ 65535) × (length stack.old ≤ length second.old) }
    ensures { (Ends (run_to table.now line.now barred step_limit (start stack.old list.old)) result.end stack.new list.new) × (Resumes table.now line.now step_limit second.new result.checkpoint) }
{
    let z = tables::shape_of(table);
    let cells = tables::cells_of(table, z);
    stack[0] = 0;
    let mut s = at_start();
    let mut checkpoint = None;
    let mut left = step_limit;
    loop {
        s.left = portion(left, s.depth);
        left -= s.left;
        match advance(table, cells, line, barred, stack, list, z, s) {
            ControlFlow::Break(end) => return Course { end, checkpoint },
            ControlFlow::Continue(t) => s = t,
        }
        if left == 0 {
            let end = Ending::Final(Reading::StepLimit(count(s)));
            return Course { end, checkpoint };
        }
        checkpoint = Some(leave_checkpoint(stack, second, s, left));
    }
}

// What an exploration tells, with the position and the counts of the run.
fn told(e: Result<u64, Cut>, position: usize, counts: Counts) -> Reading
    ensures { reading_numbers result ≡ tells e position counts }
{
    match e {
        Ok(expected) => Reading::NoAction {
            position,
            expected,
            size: sets::size(expected),
            counts,
        },
        Err(Cut) => Reading::ExpectedUnknown { position, counts },
    }
}

// The exploration behind a line, from the checkpoint where that lies before the line's end, else from the beginning.
fn explore_from(
    table: &[u16],
    line: &[u8],
    closed: u64,
    second: &mut [u16],
    step_limit: u64,
    checkpoint: Option<Checkpoint>,
) -> Result<u64, Cut>
    requires { (Checked table.now) × (closed_ok table.now closed ≡ true) × (input_ok table.now line.now ≡ true) × (0 < length second.old) × (ResumesIn table.now line.now step_limit second.old checkpoint) }
    ensures { Explores table.now closed step_limit (length second.old) line.now result }
{
    match checkpoint {
        Some(m) if m.position < line.len() => exploration::explore(
            table, line, closed, second, m.spot, m.position, step_limit,
        ),
        _ => {
            let s = exploration::begin(second, step_limit);
            exploration::explore(table, line, closed, second, s, 0, step_limit)
        }
    }
}

// The answer for a wrong terminal at a position: the open terminals that can follow the line before it.
fn explored(
    table: &[u16],
    line: &[u8],
    closed: u64,
    second: &mut [u16],
    step_limit: u64,
    position: usize,
    counts: Counts,
    checkpoint: Option<Checkpoint>,
) -> Reading
    requires { (Checked table.now) × (closed_ok table.now closed ≡ true) × (input_ok table.now line.now ≡ true) × (0 < length second.old) × (position ≤ length line.now) × (Resumes table.now line.now step_limit second.old checkpoint) }
    ensures { (m : Machine) → At m position counts → AnswersAt table.now closed line.now step_limit (length second.old) m result }
{
    let e = explore_from(
        table,
        &line[..position],
        closed,
        second,
        step_limit,
        checkpoint,
    );
    told(e, position, counts)
}

// The answer of a run that has ended.
fn answered(
    table: &[u16],
    line: &[u8],
    closed: u64,
    second: &mut [u16],
    step_limit: u64,
    r: Course,
) -> Reading
    requires { (Checked table.now) × (closed_ok table.now closed ≡ true) × (input_ok table.now line.now ≡ true) × (0 < length second.old) × (Explorable (length line.now) r.end) × (Resumes table.now line.now step_limit second.old r.checkpoint) }
    ensures { (o : Outcome) → Says o r.end → Answers table.now closed line.now step_limit (length second.old) o result }
{
    let checkpoint = r.checkpoint;
    match r.end {
        Ending::Final(a) => a,
        Ending::Wrong(position, counts) => {
            explored(
                table, line, closed, second, step_limit, position, counts, checkpoint,
            )
        }
    }
}

// The same, and the second area is cleared.
fn finish(
    table: &[u16],
    line: &[u8],
    closed: u64,
    second: &mut [u16],
    step_limit: u64,
    r: Course,
) -> Reading
    requires { (Checked table.now) × (closed_ok table.now closed ≡ true) × (input_ok table.now line.now ≡ true) × (0 < length second.old) × (Explorable (length line.now) r.end) × (Resumes table.now line.now step_limit second.old r.checkpoint) }
    ensures { ((o : Outcome) → Says o r.end → Answers table.now closed line.now step_limit (length second.old) o result) × (second.new ≡ replicate (length second.old) 0) }
{
    let a = answered(table, line, closed, second, step_limit, r);
    scans::clear(second);
    a
}

// The reading of a line by a table, where nothing is refused: the whole input, or what stands before its first closed
// terminal, which is the bar.
fn read(
    table: &[u16],
    line: &[u8],
    barred: bool,
    closed: u64,
    stack: &mut [u16],
    list: &mut [u16],
    second: &mut [u16],
    step_limit: u64,
) -> Reading
    requires { Ready table.now line.now closed (length stack.old) (length second.old) }
    ensures { ReadsTo table.now line.now barred closed stack.old list.old second.old step_limit result stack.new list.new second.new }
{
    let r = run(table, line, barred, stack, list, second, step_limit);
    finish(table, line, closed, second, step_limit, r)
}

// Reads an input by a table: every input is answered, and a refusal changes nothing.
pub fn parse(
    table: &[u16],
    input: &[u8],
    stack: &mut [u16],
    list: &mut [u16],
    second: &mut [u16],
    step_limit: u64,
) -> Result<Reading, Refusal>
    ensures { ReadsAs (reading table.now input.now stack.old list.old second.old step_limit) result stack.new list.new second.new }
{
    parse_restricted(table, input, 0, stack, list, second, step_limit)
}

// The restricted reading, where nothing is refused: no step looks at the word of closed terminals.
fn read_restricted(
    table: &[u16],
    input: &[u8],
    closed: u64,
    stack: &mut [u16],
    list: &mut [u16],
    second: &mut [u16],
    step_limit: u64,
) -> Reading
    requires { restricted_refusal table.now closed input.now (length stack.old) (length second.old) ≡ 0 }
    ensures { ReadsAs (restricted_reading table.now closed input.now stack.old list.old second.old step_limit) (Ok result) stack.new list.new second.new }
{
    let n = scans::first_closed(input, closed);
    let barred = n < input.len();
    read(
        table,
        &input[..n],
        barred,
        closed,
        stack,
        list,
        second,
        step_limit,
    )
}

// Reads an input by a table for those to whom some terminals are closed: a closed next terminal is wrong, and no
// closed one is expected. With the word 0 it is `parse`.
pub fn parse_restricted(
    table: &[u16],
    input: &[u8],
    closed: u64,
    stack: &mut [u16],
    list: &mut [u16],
    second: &mut [u16],
    step_limit: u64,
) -> Result<Reading, Refusal>
    ensures { ReadsAs (restricted_reading table.now closed input.now stack.old list.old second.old step_limit) result stack.new list.new second.new }
{
    table_checks::check_restricted(table, input, closed, stack.len(), second.len())?;
    Ok(read_restricted(table, input, closed, stack, list, second, step_limit))
}

// The terminals of an expected set, ascending, with zeros after them; the result is how many they are.
pub fn terminals(expected: u64, out: &mut [u8; 64]) -> usize
    ensures { Lists expected result out.new }
{
    *out = [0; 64];
    let mut left = expected;
    let mut n = 0;
    while left != 0 {
        let m = sets::lowest(left);
        out[n] = m as u8;
        left = sets::rest(left);
        n += 1;
    }
    n
}
