// Fitting a retiming to given starts.
#![tactic(auto)]

ghost use Rattle.std.specs.Prelude.{◌≢◌, ◌≡◌, ℕ, ◌+◌, ◌-◌, ◌/◌, ◌≤◌, ◌<◌, get_or, take, Some};
ghost use Rattle.lists.specs.Fold.{top};
ghost use Rattle.form.specs.declared.Form.{Form};
ghost use Rattle.legal.specs.Loop.{Loop, Pair, loop_of, pair_of};
ghost use Rattle.answer.specs.declared.Refusal.TheVariants.{NoRetiming};
ghost use Rattle.tables.specs.Edges.{EndsIn, ToldBy};
ghost use Rattle.tables.specs.Times.{Timed};
ghost use Rattle.tables.specs.Lent.{LentBy};
ghost use Rattle.rules.specs.Busy.{StartsIn};
ghost use Rattle.plans.specs.Pairs.{SameButPair};
ghost use Rattle.plans.specs.Tabled.{TabledBy};
ghost use Rattle.plans.specs.Outcome.{plan_in, scheduled_in};
ghost use Rattle.fit.specs.Outcome.{fitting_in};
ghost use Rattle.plans.specs.Scheduling.{unturned, Planned};
ghost use Rattle.fit.specs.Tables.{Limited, turned_over, LimitsTabled};
ghost use Rattle.fit.specs.Retimed.{fitted_form, StartsFitted, TablesFitted};
ghost use Rattle.fit.specs.Fitting.{fit_of, RecordFitted};

use answer::{Cycle, Refusal, Refused};
use form::Edges;
use plans::{Rewritten, Turned};
use system::Constraints;
use tables::Timetable;
use widths::wide;

// What each edge gains and costs the retimings, in tables that can be lent.
#[derive(Clone, Copy)]
struct Limits {
    gains: [u16; 256],
    costs: [u16; 256],
}

// How many bodies after the one in which a node starts at `start` another can start at `next`: what it is late by, over the length, rounded up.
fn late(length: u16, start: u16, latency: u8, next: u16) -> u16
    requires { (start ≤ length) × (1 ≤ next) × (next ≤ length) }
    ensures { result ≡ (start + latency + (length - 1) - next) / length }
{
    let finish = start as u32 + latency as u32;
    if finish <= next as u32 {
        return 0;
    }
    if finish <= next as u32 + length as u32 {
        return 1;
    }
    ((finish + (length as u32 - 1) - next as u32) / length as u32) as u16
}

// The delays of the edges, and how many bodies each is late by.
fn limits_of(edges: Edges, times: Timetable) -> Limits
    requires { EndsIn times.nodes edges × StartsIn times.length times.start times.nodes }
    ensures { (g : Loop) (p : Pair) → ToldBy g times.nodes edges.entry → Timed g p times → Limited g p edges.entry.count result.gains result.costs }
{
    let length = times.length;
    let mut gains = [0u16; 256];
    let mut costs = [0u16; 256];
    for e in 0..edges.count as usize {
        let tail = edges.from[e] as usize;
        let head = edges.to[e] as usize;
        let gain = wide(edges.delays[e]);
        let cost = late(
            length,
            times.start[tail],
            times.latency[tail],
            times.start[head],
        );
        gains[e] = gain;
        costs[e] = cost;
    }
    Limits { gains, costs }
}

// The largest of the first values.
fn top_of(values: &[u32; 64], nodes: u8) -> u32
    requires { nodes ≤ 64 }
    ensures { result ≡ top (take nodes values.now) }
{
    values[..nodes as usize].iter().copied().fold(0, u32::max)
}

// How far each of the first values is below the top of them; 0 past them.
fn turned(values: &[u32; 64], nodes: u8, highest: u32) -> [u8; 64]
    requires nodes_bound { (nodes ≤ 64) × (highest ≤ 63) }
    requires by_index { (v : ℕ) → v < nodes → get_or values.now v 0 ≤ highest }
    ensures { result ≡ turned_over highest values.now nodes }
{
    let mut retiming = [0u8; 64];
    for v in 0..nodes {
        let i = v as usize;
        retiming[i] = (highest - values[i]) as u8;
    }
    retiming
}

// The retiming of least depth within the limits, node by node the largest; or a cycle that no retiming can pass.
fn fit_limits(nodes: u8, edges: Edges, limits: Limits) -> Result<[u8; 64], Cycle>
    requires { LimitsTabled nodes edges.count edges.from.now edges.to.now limits.gains limits.costs }
    ensures { TablesFitted nodes edges.entry.count edges.entry.from.now edges.entry.to.now limits.gains limits.costs (fitting_in result) }
{
    let system = Constraints {
        nodes,
        edges: edges.count,
        tails: edges.from,
        heads: edges.to,
        gains: &limits.gains,
        costs: &limits.costs,
    };
    let values = match solve::solve(system) {
        Ok(values) => values,
        Err(refuted) => return Err(refuted.cycle),
    };
    let highest = top_of(&values, nodes);
    Ok(turned(&values, nodes, highest))
}

// The retiming that fits the starts of the form that is lent, or a cycle that no retiming can pass.
pub fn fit_starts(edges: Edges, times: Timetable) -> Result<[u8; 64], Cycle>
    requires lent { (f : Form) × LentBy f edges times }
    requires length_nonzero { times.length ≢ 0 }
    ensures { (f : Form) → LentBy f edges.entry times → StartsFitted (loop_of f) (pair_of f) (fitting_in result) }
{
    let limits = limits_of(edges, times);
    fit_limits(times.nodes, edges, limits)
}

// The refusal of starts that no retiming fits.
fn unfit(cycle: Cycle) -> Refused
    requires { 0 < cycle.count }
    ensures { (result.refusal ≡ NoRetiming) × (result.cycle ≡ Some cycle) }
{
    Refused {
        refusal: Refusal::NoRetiming,
        cycle: Some(cycle),
    }
}

// Bare, Knot, NoRetiming, Units, else the timetable with the retiming that fits. The unit rule asks the starts alone.
fn plan_tables(edges: Edges, times: Timetable) -> Result<Turned, Refused>
    requires { (f : Form) × LentBy f edges times }
    ensures { (f : Form) → TabledBy f edges.entry times → SameButPair f f → Planned fit_of fitted_form unturned f (plan_in times result) }
{
    let bare = times.length == 0;
    if bare {
        return Err(Refusal::Bare.into());
    }
    knots::unknotted(times.nodes, edges)?;
    let retiming = fit_starts(edges, times).map_err(unfit)?;
    rules::crowded(times)?;
    let mut fitted = times;
    fitted.retiming = retiming;
    Ok(plans::uncounted(fitted))
}

// The record with a retiming that fits its starts, into `out`; a refusal leaves `out` as it was.
pub fn fit(record: &[u8], out: &mut [u8]) -> Result<Rewritten, Refused>
    ensures { RecordFitted «record».now out.old out.new (scheduled_in result) }
{
    match &reader::read(record) {
        Ok(form) => {
            let plan = plan_tables(form.edges(), tables::times_of(form))?;
            plans::write_plan(*form, plan, out)
        }
        Err(refusal) => Err((*refusal).into()),
    }
}
