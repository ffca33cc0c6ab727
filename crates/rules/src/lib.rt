// The two rules of a schedule: every edge's head waits for its tail, and no step holds more of a class than its units.
#![tactic(auto)]

ghost use Rattle.std.specs.Prelude.{◌≡◌, get_or, ◌+◌, ◌-◌, ◌*◌, ◌%◌, ◌≤◌, ◌<◌, unwrap_or, IfSome};
ghost use Rattle.form.specs.Places.{no_class};
ghost use Rattle.legal.specs.Loop.{Loop, Pair};
ghost use Rattle.legal.specs.Judging.{broken_edge, units_of};
ghost use Rattle.answer.specs.Outcome.{refusal_in};
ghost use Rattle.tables.specs.Edges.{EndsIn, ToldBy};
ghost use Rattle.tables.specs.Times.{SoundTimes, Timed};
ghost use Rattle.legal.specs.Held.{held};
ghost use Rattle.rules.specs.Busy.{held_on, busy_in, StartsIn, Seated};
ghost use Rattle.rules.specs.Lowest.{lower_spot, node_spot};

use answer::Refusal;
use form::{Edges, hold_of};
use tables::Timetable;

// A step, so many iterations of the body later. Even the largest leaves room for a latency.
fn later(step: u16, length: u16, iterations: u16) -> u32
    ensures { (result ≡ step + length * iterations) × (result ≤ 4294901760) }
{
    u32::from(step) + u32::from(length) * u32::from(iterations)
}

// The lowest edge that breaks the edge rule, if one does.
pub fn broken_edge(edges: Edges, times: Timetable) -> Option<u16>
    requires ends { EndsIn times.nodes edges }
    requires told { (g : Loop) × ((p : Pair) × ToldBy g times.nodes edges × Timed g p times) }
    ensures first { (g : Loop) (p : Pair) → ToldBy g times.nodes edges.entry → Timed g p times → unwrap_or result edges.entry.count ≡ broken_edge g p }
    ensures within { IfSome result (λ e. e < edges.entry.count) }
{
    let length = times.length;
    for e in 0..edges.count {
        let i = e as usize;
        let tail = edges.from[i] as usize;
        let head = edges.to[i] as usize;
        let delays = u16::from(edges.delays[i]) + u16::from(times.retiming[tail]);
        let taken = u16::from(times.retiming[head]);
        let head_begins = later(times.start[head], length, delays);
        let tail_begins = later(times.start[tail], length, taken);
        let works = u32::from(times.latency[tail]);
        if head_begins < tail_begins + works {
            return Some(e);
        }
    }
    None
}

// How many steps after `start` comes `step`, over the end of the body where it lies before.
fn gap_of(length: u16, start: u16, step: u16) -> u16
    requires { (1 ≤ start) × (start ≤ length) × (1 ≤ step) × (step ≤ length) }
    ensures { result ≡ (step + length - start) % length }
{
    if start <= step {
        return step - start;
    }
    length - (start - step)
}

// How often an operation that starts at `start` and holds its unit for `hold` steps holds it in `step`, its steps taken modulo the length.
fn held_in(length: u16, start: u16, hold: u8, step: u16) -> u16
    requires { (1 ≤ start) × (start ≤ length) × (1 ≤ step) × (step ≤ length) }
    ensures { (result ≡ held length start hold step) × (result ≤ 255) }
{
    let steps = u16::from(hold);
    let gap = gap_of(length, start, step);
    if length < steps {
        return 1 + (steps - 1 - gap) / length;
    }
    if gap < steps {
        return 1;
    }
    0
}

// The same of an operation on class `own`, which holds no unit of another class.
fn held_on(length: u16, own: u8, start: u16, class: u8, hold: u8, step: u16) -> u16
    requires { (1 ≤ start) × (start ≤ length) × (1 ≤ step) × (step ≤ length) }
    ensures { (result ≡ held_on length own start class hold step) × (result ≤ 255) }
{
    // before the test, so that the loop above takes nodes several at a time
    let held = held_in(length, start, hold, step);
    if own != class {
        return 0;
    }
    held
}

// How often the nodes hold a unit of `class` in `step`.
pub fn busy_in<'a>(
    length: u16,
    nodes: u8,
    runs: &'a [u8; 64],
    start: &'a [u16; 64],
    class: u8,
    hold: u8,
    step: u16,
) -> u16
    requires { (nodes ≤ 64) × (1 ≤ step) × (step ≤ length) × StartsIn length start.now nodes }
    ensures { result ≡ busy_in length runs.now start.now class hold step nodes }
{
    let mut busy: u16 = 0;
    for v in 0..nodes {
        let i = v as usize;
        busy += held_on(length, runs[i], start[i], class, hold, step);
    }
    busy
}

// A step and a class as one number, which grows by steps and then by classes.
fn spot(step: u16, class: u8) -> u32
    ensures { (result ≡ step * 4 + class) × (result < 262400) }
{
    u32::from(step) * 4 + u32::from(class)
}

// The spot of a step and a class where the step holds more of it than its units and no spot so far is lower; else the lowest so far.
fn lower_spot(times: &Timetable, number: u8, step: u16, lowest: u32) -> u32
    requires seated { (times.now.nodes ≤ 64) × (number < 4) × StartsIn times.now.length times.now.start times.now.nodes }
    requires step { (1 ≤ step) × (step ≤ times.now.length) }
    ensures { result ≡ lower_spot times.now.length times.now.runs times.now.start times.now.nodes (get_or times.now.class number no_class) number step lowest }
{
    let here = spot(step, number);
    if lowest <= here {
        return lowest;
    }
    let class = times.class[number as usize];
    let busy = busy_in(
        times.length,
        times.nodes,
        &times.runs,
        &times.start,
        number,
        hold_of(class),
        step,
    );
    let units = u16::from(class.units);
    if busy <= units {
        return lowest;
    }
    here
}

// The same of the step in which a node starts, and of step 1 where its operation runs over the end of the body.
fn node_spot(times: &Timetable, number: u8, step: u16, lowest: u32) -> u32
    requires seated { (times.now.nodes ≤ 64) × (number < 4) × StartsIn times.now.length times.now.start times.now.nodes }
    requires step { (1 ≤ step) × (step ≤ times.now.length) }
    ensures { result ≡ node_spot times.now.length times.now.runs times.now.start times.now.nodes (get_or times.now.class number no_class) number step lowest }
{
    let lower = lower_spot(times, number, step, lowest);
    let class = times.class[number as usize];
    let end = u32::from(step) + u32::from(hold_of(class));
    let last = u32::from(times.length) + 1;
    if end <= last {
        return lower;
    }
    lower_spot(times, number, 1, lower)
}

// Refused with Units and the lowest overfull step and its lowest class: a node of the class starts there or runs over the end into step 1, or the step before would hold as much.
pub fn crowded(times: Timetable) -> Result<(), Refusal>
    requires sound_times { SoundTimes times }
    requires timed { (g : Loop) × ((p : Pair) × Timed g p times × Seated g p) }
    ensures { (g : Loop) (p : Pair) → Timed g p times → Seated g p → refusal_in result ≡ units_of g p }
{
    let past = spot(times.length, 4);
    let mut lowest = past;
    for v in 0..times.nodes {
        let i = v as usize;
        lowest = node_spot(&times, times.runs[i], times.start[i], lowest);
    }
    if lowest < past {
        return Err(Refusal::Units(lowest / 4, lowest % 4));
    }
    Ok(())
}
