// The list rule: nodes placed step by step, the heaviest that is ready first.
#![tactic(auto)]

ghost use Rattle.std.specs.Prelude.{◌≡◌, ℕ, ◌+◌, ◌*◌, ◌≤◌, ◌<◌, length, get_or, take, eqb};
ghost use Rattle.lists.specs.Pick.{pick};
ghost use Rattle.lists.specs.Span.{span};
ghost use Rattle.lists.specs.Fold.{count};
ghost use Rattle.legal.specs.Loop.{Loop, Pair};
ghost use Rattle.tables.specs.Edges.{EndsIn, ToldBy};
ghost use Rattle.tables.specs.Times.{SoundTimes, Timed};
ghost use Rattle.list_rule.specs.Order.{order_of};
ghost use Rattle.list_rule.specs.Rule.{start_number, list_rule_of};
ghost use Rattle.list_rule.specs.Tables.{weight_of, OnBoard, EndsInBody, Raised, Used, WaitsTabled, blocks_at};

use form::{Class, Edges, hold_of};
use tables::Timetable;
use widths::wide;

// The place of a step and a class in the table of use.
fn spot(step: u16, class: u8) -> usize
    ensures { (result ≡ step * 4 + class) × (result < 262400) }
{
    step as usize * 4 + class as usize
}

// The heavier, the lower.
fn key_of(weight: u8) -> u32
    ensures { result + weight ≡ 255 }
{
    255 - weight as u32
}

// A key for each node.
fn keys_of(nodes: u8, weight: &[u8; 64]) -> [u32; 64]
    requires { nodes ≤ 64 }
    ensures { (v : ℕ) → v < nodes → get_or result v 0 + weight_of weight.now v ≡ 255 }
{
    let mut keys = [0u32; 64];
    for v in 0..nodes {
        let i = v as usize;
        keys[i] = key_of(weight[i]);
    }
    keys
}

// The nodes heaviest first, then lowest number.
fn order_of(nodes: u8, weight: &[u8; 64]) -> [u8; 64]
    requires { nodes ≤ 64 }
    ensures { (length result ≡ 64) × (take nodes result ≡ order_of (weight_of weight.now) nodes) }
{
    let keys = keys_of(nodes, weight);
    sorted::sorted(nodes, &keys)
}

// No unit is in use.
fn idle() -> [u8; 4128]
    ensures { (length result ≡ 4128) × ((i : ℕ) → get_or result i 0 ≡ 0) }
{
    [0; 4128]
}

// One more unit of `class` in use, in the steps that an operation from `begins` on holds it; 0 is not placed.
fn raise(busy: &mut [u8; 4128], begins: u16, class: u8, hold: u16)
    requires busy_len { (length busy.old ≡ 4128) × (class < 4) × (begins + hold ≤ 1032) }
    requires by_index { (q : ℕ) → q < 1032 → get_or busy.old (q * 4 + class) 0 < 255 }
    ensures { Raised busy.old begins class (begins + hold) busy.new }
{
    if begins == 0 {
        return;
    }
    for q in begins..begins + hold {
        let at = spot(q, class);
        busy[at] += 1;
    }
}

// The units in use by the starts given, into a table in which none is.
fn fill_busy(
    busy: &mut [u8; 4128],
    nodes: u8,
    classes: [Class; 4],
    runs: &[u8; 64],
    start: &[u16; 64],
)
    requires busy_len { (length busy.old ≡ 4128) × ((i : ℕ) → get_or busy.old i 0 ≡ 0) }
    requires nodes_bound { (nodes ≤ 64) × ((v : ℕ) → v < nodes → OnBoard classes runs.now v × (get_or start.now v 0 ≤ 1024)) }
    ensures { Used classes runs.now start.now nodes busy.new }
{
    for v in 0..nodes {
        let i = v as usize;
        let number = runs[i];
        let class = classes[number as usize];
        raise(busy, start[i], number, wide(hold_of(class)));
    }
}

// How many nodes are not placed.
fn unplaced(nodes: u8, start: &[u16; 64]) -> u8
    requires { nodes ≤ 64 }
    ensures { result ≡ count (λ v. eqb (start_number start.now v) 0) (span 0 nodes) }
{
    let mut left: u8 = 0;
    for v in 0..nodes {
        if start[v as usize] == 0 {
            left += 1;
        }
    }
    left
}

// 1 where an edge keeps its head from starting at `step`.
fn blocked(delays: u8, tail: u8, head: u8, begins: u16, latency: u8, step: u16) -> u16
    ensures { result ≡ pick (blocks_at delays tail head begins latency step) 1 0 }
{
    if delays as u16 + tail as u16 != head as u16 {
        return 0;
    }
    if begins == 0 {
        return 1;
    }
    if (step as u32) < begins as u32 + latency as u32 {
        return 1;
    }
    0
}

// How many edges keep each node from starting at `step`.
fn waiting(
    edges: Edges,
    retiming: &[u8; 64],
    latency: &[u8; 64],
    start: &[u16; 64],
    step: u16,
) -> [u16; 64]
    requires { EndsIn 64 edges }
    ensures { WaitsTabled edges.entry.from.now edges.entry.to.now edges.entry.delays.now retiming.now latency.now start.now step edges.entry.count result }
{
    let mut waits = [0u16; 64];
    for e in 0..edges.count {
        let i = e as usize;
        let tail = edges.from[i] as usize;
        let head = edges.to[i] as usize;
        waits[head] += blocked(
            edges.delays[i],
            retiming[tail],
            retiming[head],
            start[tail],
            latency[tail],
            step,
        );
    }
    waits
}

// Starts that are not 0 stay; the other nodes are placed.
pub fn list_rule(edges: Edges, times: Timetable) -> [u16; 64]
    requires { EndsIn times.nodes edges × SoundTimes times × EndsInBody times }
    ensures { (g : Loop) (p : Pair) → ToldBy g times.nodes edges.entry → Timed g p times → result ≡ list_rule_of g p.retiming times.start }
{
    let nodes = times.nodes;
    let classes = times.class;
    let weight = reach::weights(nodes, edges, &times.retiming);
    let order = order_of(nodes, &weight);
    let mut start = times.start;
    let mut busy = idle();
    fill_busy(&mut busy, nodes, classes, &times.runs, &times.start);
    'steps: for p in 1..1024u16 {
        if unplaced(nodes, &start) == 0 {
            break 'steps;
        }
        let waits = waiting(edges, &times.retiming, &times.latency, &start, p);
        'nodes: for i in 0..nodes {
            let v = order[i as usize] as usize;
            if start[v] != 0 || waits[v] != 0 {
                continue 'nodes;
            }
            let number = times.runs[v];
            let class = classes[number as usize];
            let hold = wide(hold_of(class));
            for q in p..p + hold {
                if class.units <= busy[spot(q, number)] {
                    continue 'nodes;
                }
            }
            start[v] = p;
            raise(&mut busy, p, number, hold);
        }
    }
    start
}
