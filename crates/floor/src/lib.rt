// The floor: a length that no legal pair of the loop is shorter than, and what attains it.
#![tactic(auto)]

ghost use Rattle.std.specs.Prelude.{◌≡◌, false, ℕ, ◌+◌, ◌-◌, ◌*◌, ◌/◌, ◌≤◌, ◌<◌, max, get_or, Ok, IsSomeAnd};
ghost use Rattle.answer.specs.Outcome.{edges_of};
ghost use Rattle.answer.specs.Tally.{Tallies};
ghost use Rattle.form.specs.declared.Form.{Form};
ghost use Rattle.form.specs.Ranges.{GoodClass};
ghost use Rattle.system.specs.System.{Losing};
ghost use Rattle.system.specs.Lent.{system_in};
ghost use Rattle.form.specs.Hold.{hold};
ghost use Rattle.legal.specs.Loop.{Loop, Pair, loop_of};
ghost use Rattle.legal.specs.Systems.{knotted, paces};
ghost use Rattle.tables.specs.Edges.{ToldBy};
ghost use Rattle.tables.specs.Times.{SoundTimes, Timed};
ghost use Rattle.tables.specs.Lent.{LentBy};
ghost use Rattle.floor.specs.Parts.{cycle_part};
ghost use Rattle.floor.specs.Least.{enough};
ghost use Rattle.floor.specs.Tables.{how_many, EdgedIn, held_in, Costed, PacedBy, Busy, Measured};
ghost use Rattle.floor.specs.Outcome.{floored_in};
ghost use Rattle.floor.specs.Floor.{FormFloored, RecordFloored};

use answer::{Cycle, Refused};
use floor_part::Part;
use form::{Class, Edges};
use system::Constraints;
use tables::Timetable;
use widths::wide;

// The floor, and the part that attains it first.
#[derive(Clone, Copy)]
pub struct Attained {
    pub floor: u32,
    pub part: Part,
}

// The most steps that a class needs, and the lowest class that needs them.
#[derive(Clone, Copy)]
struct Busiest {
    part: u16,
    class: u8,
}

// Parts (a) and (b), the latter with the lowest class that it is of, and the floor.
#[derive(Clone, Copy)]
struct AllParts {
    latency: u16,
    units: u16,
    class: u8,
    floor: u16,
}

// How many nodes run on a class.
fn nodes_on(nodes: u8, runs: &[u8; 64], class: u8) -> u8
    requires { nodes ≤ 64 }
    ensures { (result ≡ how_many runs.now class nodes) × (result ≤ 64) }
{
    let mut on: u8 = 0;
    for v in 0..nodes {
        if runs[v as usize] == class {
            on += 1;
        }
    }
    on
}

// All steps of the operations of a plain class, one step for each of a pipelined one.
fn busy_steps(class: Class, on: u8) -> u16
    requires { (class.latency ≤ 8) × (on ≤ 64) }
    ensures { (result ≡ on * hold class) × (result ≤ 512) }
{
    let plain = class.pipelined == 0;
    if plain {
        return wide(on) * wide(class.latency);
    }
    wide(on)
}

// Busy steps over units, rounded up.
fn units_part(class: Class, on: u8) -> u16
    requires good_class { GoodClass class }
    requires on_bound { on ≤ 64 }
    ensures { (result ≡ (on * hold class + (class.units - 1)) / class.units) × (result ≤ 512) }
{
    let busy = busy_steps(class, on);
    let units = wide(class.units);
    (busy + (units - 1)) / units
}

// The class that needs the most steps.
fn busiest_class(times: Timetable) -> Busiest
    requires { SoundTimes times }
    ensures { ((g : Loop) (p : Pair) → Timed g p times → Busy g g.classes result.part result.class) × (result.part ≤ 512) }
{
    let mut part: u16 = 0;
    let mut number: u8 = 0;
    for c in 0..times.classes {
        let class = times.class[c as usize];
        let here = units_part(class, nodes_on(times.nodes, &times.runs, c));
        if part < here {
            part = here;
            number = c;
        }
    }
    Busiest {
        part,
        class: number,
    }
}

// What the edges cost: the latency of their tails.
fn costs_of(edges: u16, from: &[u8; 256], latency: &[u8; 64]) -> [u16; 256]
    requires edges_bound { edges ≤ 256 }
    requires by_index { (e : ℕ) → e < edges → get_or from.now e 0 < 64 }
    ensures { (e : ℕ) → e < edges → get_or result e 0 ≡ get_or latency.now (get_or from.now e 0) 0 }
{
    let mut costs = [0u16; 256];
    for e in 0..edges as usize {
        let tail = from[e] as usize;
        costs[e] = wide(latency[tail]);
    }
    costs
}

// What the edges gain at a length: as many steps for each of up to 15 delays.
fn gains_of(edges: u16, delays: &[u8; 256], length: u16) -> [u16; 256]
    requires edges_bound { (edges ≤ 256) × (length ≤ 512) }
    requires by_index { (e : ℕ) → e < edges → get_or delays.now e 0 ≤ 15 }
    ensures { (e : ℕ) → e < edges → get_or result e 0 ≡ length * get_or delays.now e 0 }
{
    let mut gains = [0u16; 256];
    for e in 0..edges as usize {
        gains[e] = length * wide(delays[e]);
    }
    gains
}

// The system of a length: its edges, what they gain at it, and what they cost.
fn paced<'a>(
    nodes: u8,
    edges: Edges<'a>,
    gains: &'a [u16; 256],
    costs: &'a [u16; 256],
) -> Constraints<'a>
    ensures { (result.nodes ≡ nodes) × (result.edges ≡ edges.entry.count) × (system_in result ≡ held_in nodes edges.entry gains.now costs.now) }
{
    Constraints {
        nodes,
        edges: edges.count,
        tails: edges.from,
        heads: edges.to,
        gains,
        costs,
    }
}

// Whether no cycle has a latency sum above the length times its delay sum.
fn is_enough(nodes: u8, edges: Edges, costs: &[u16; 256], length: u16) -> bool
    requires { EdgedIn nodes edges × (length ≤ 512) }
    ensures { (g : Loop) → ToldBy g nodes edges.entry → Costed g edges.entry.count costs.now → result ≡ enough g length }
{
    let gains = gains_of(edges.count, edges.delays, length);
    system::settle(paced(nodes, edges, &gains, costs)).is_ok()
}

// The least length that is enough, where a length that is not is known. Each turn halves the lengths left, 512 at most.
fn least_over(nodes: u8, edges: Edges, costs: &[u16; 256], known: u16) -> u16
    requires { EdgedIn nodes edges × (known ≤ 512) }
    ensures { (g : Loop) → PacedBy g nodes edges.entry costs.now → enough g known ≡ false → result ≡ cycle_part g }
{
    let mut short = known;
    // a length that is enough: 512 is for every loop without a knot
    let mut long: u16 = 512;
    while short + 1 < long {
        let middle = (short + long) / 2;
        if is_enough(nodes, edges, costs, middle) {
            long = middle;
        } else {
            short = middle;
        }
    }
    long
}

// The larger of a length and (c). Mostly the length is enough, and the system is settled once.
fn cycle_over(nodes: u8, edges: Edges, costs: &[u16; 256], length: u16) -> u16
    requires { EdgedIn nodes edges × (length ≤ 512) }
    ensures { (g : Loop) → PacedBy g nodes edges.entry costs.now → 1 ≤ length → result ≡ max length (cycle_part g) }
{
    if is_enough(nodes, edges, costs, length) {
        return length;
    }
    least_over(nodes, edges, costs, length)
}

// A cycle whose latency sum is above the length times its delay sum, if there is one.
fn breaking_cycle(nodes: u8, edges: Edges, costs: &[u16; 256], length: u16) -> Option<Cycle>
    requires { EdgedIn nodes edges × (length ≤ 512) }
    ensures { (g : Loop) → ToldBy g nodes edges.entry → Costed g edges.entry.count costs.now → enough g length ≡ false → IsSomeAnd result (λ c. Losing (paces g length) (edges_of c) × Tallies c) }
{
    let gains = gains_of(edges.count, edges.delays, length);
    match solve::solve(paced(nodes, edges, &gains, costs)) {
        Ok(_) => None,
        Err(refuted) => Some(refuted.cycle),
    }
}

// Parts (a) and (b) of a loop without a knot, and the floor: the larger of them where that is enough for every cycle.
fn parts_of(edges: Edges, costs: &[u16; 256], times: Timetable) -> AllParts
    requires { EdgedIn times.nodes edges × SoundTimes times }
    ensures { (g : Loop) (p : Pair) → PacedBy g times.nodes edges.entry costs.now → Timed g p times → Measured g result.latency result.units result.class result.floor }
{
    let latency = wide(tables::largest(&times.latency, times.nodes));
    let busiest = busiest_class(times);
    let least = latency.max(busiest.part);
    AllParts {
        latency,
        units: busiest.part,
        class: busiest.class,
        floor: cycle_over(times.nodes, edges, costs, least),
    }
}

// The floor of a loop without a knot.
fn free_floor(edges: Edges, times: Timetable) -> Attained
    requires { (f : Form) × LentBy f edges times × (knotted (loop_of f) ≡ false) }
    ensures { (f : Form) → LentBy f edges.entry times → knotted (loop_of f) ≡ false → FormFloored f (floored_in (Ok result)) }
{
    let costs = costs_of(edges.count, edges.from, &times.latency);
    let parts = parts_of(edges, &costs, times);
    let floor = parts.floor as u32;
    if parts.floor <= parts.latency {
        return Attained {
            floor,
            part: Part::Latency,
        };
    }
    if parts.floor <= parts.units {
        return Attained {
            floor,
            part: Part::Units(parts.class as u32),
        };
    }
    let short = parts.floor - 1;
    Attained {
        floor,
        part: Part::Cycle(breaking_cycle(times.nodes, edges, &costs, short).unwrap()),
    }
}

// The floor of a form, or its knot. Its edges are lent, and its timetable stands for the rest.
pub fn floor_tables(edges: Edges, times: Timetable) -> Result<Attained, Refused>
    requires { (f : Form) × LentBy f edges times }
    ensures { (f : Form) → LentBy f edges.entry times → FormFloored f (floored_in result) }
{
    knots::unknotted(times.nodes, edges)?;
    Ok(free_floor(edges, times))
}

// The floor of a record, or what is refused of it: by the reader first.
pub fn floor(record: &[u8]) -> Result<Attained, Refused>
    ensures { RecordFloored «record».now (floored_in result) }
{
    match &reader::read(record) {
        Ok(form) => floor_tables(form.edges(), tables::times_of(form)),
        Err(refusal) => Err((*refusal).into()),
    }
}
