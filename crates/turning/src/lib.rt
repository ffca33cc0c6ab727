// First schedules and rotations of a form that is lent: bodies by the list rule, with the retiming that fits them.
#![tactic(auto)]

ghost use Rattle.std.specs.Prelude.{◌≡◌, ℕ, ◌+◌, ◌-◌, ◌≤◌, ◌<◌, leb, get_or, replicate};
ghost use Rattle.lists.specs.Pick.{pick};
ghost use Rattle.lists.specs.Filled.{filled};
ghost use Rattle.form.specs.declared.Form.{Form};
ghost use Rattle.legal.specs.Loop.{Loop, Pair, latency as latency_in};
ghost use Rattle.tables.specs.Edges.{EndsIn};
ghost use Rattle.tables.specs.Times.{SoundTimes, times_of};
ghost use Rattle.list_rule.specs.Rule.{list_rule_of, length_of};
ghost use Rattle.list_rule.specs.Tables.{EndsInBody};
ghost use Rattle.plans.specs.Pairs.{times_with};
ghost use Rattle.turning.specs.Rotation.{first_form, turned_form, rotated_or};
ghost use Rattle.turning.specs.Lending.{EndSoon, PlaceableBy, UnknottedBy, TurnableBy};

use form::Edges;
use tables::Timetable;

// The length of a body: the last step in which a node that starts as given is at work.
fn length_of(nodes: u8, latency: &[u8; 64], start: &[u16; 64]) -> u16
    requires { EndSoon nodes latency.now start.now }
    ensures { (g : Loop) → g.graph.nodes ≡ nodes → ((v : ℕ) → v < nodes → latency_in g v ≡ get_or latency.now v 0) → result ≡ length_of g start.now }
{
    let mut last: u16 = 0;
    for v in 0..nodes {
        let i = v as usize;
        let end = start[i] + latency[i] as u16 - 1;
        last = last.max(end);
    }
    last
}

// The timetable with the starts, length and retimings given.
fn with_pair(mut times: Timetable, start: [u16; 64], length: u16, retiming: [u8; 64]) -> Timetable
    ensures { result ≡ times_with times start length retiming }
{
    times.length = length;
    times.start = start;
    times.retiming = retiming;
    times
}

// The timetable with its nodes placed by the list rule, its length taken anew, and retimings 0.
fn placed(edges: Edges, times: Timetable) -> Timetable
    requires ends { EndsIn times.nodes edges × SoundTimes times × EndsInBody times }
    requires placeable { (g : Loop) × ((p : Pair) × PlaceableBy g p edges times) }
    ensures { (g : Loop) (p : Pair) → PlaceableBy g p edges.entry times → result ≡ times_with times (list_rule_of g p.retiming times.start) (length_of g (list_rule_of g p.retiming times.start)) (replicate 64 0) }
{
    let start = list_rule::list_rule(edges, times);
    let length = length_of(times.nodes, &times.latency, &start);
    with_pair(times, start, length, [0; 64])
}

// The timetable of the form's first schedule: the list rule with all retimings 0.
pub fn first_times(edges: Edges, times: Timetable) -> Timetable
    requires { (f : Form) × UnknottedBy f edges times }
    ensures { (f : Form) → UnknottedBy f edges.entry times → result ≡ times_of (first_form f) }
{
    let bare = with_pair(times, [0; 64], 0, [0; 64]);
    placed(edges, bare)
}

// The starts of the nodes less so many steps; 0 is a node to place anew, and stands past the nodes.
fn dropped(nodes: u8, start: &[u16; 64], steps: u16) -> [u16; 64]
    requires { nodes ≤ 64 }
    ensures { result ≡ filled 64 (λ v. get_or start.now v 0 - steps) nodes }
{
    let mut lower = [0u16; 64];
    for v in 0..nodes {
        let i = v as usize;
        lower[i] = start[i].saturating_sub(steps);
    }
    lower
}

// A retiming, 1 more where the node starts in the first steps.
fn gain(retiming: u8, start: u16, steps: u16) -> u8
    requires { retiming ≤ 63 }
    ensures { result ≡ retiming + pick (leb start steps) 1 0 }
{
    if start <= steps {
        return retiming + 1;
    }
    retiming
}

// The retimings of the nodes, 1 more for those that start in the first steps; 0 past the nodes.
fn gained(nodes: u8, retiming: &[u8; 64], start: &[u16; 64], steps: u16) -> [u8; 64]
    requires { (nodes ≤ 64) × ((v : ℕ) → v < nodes → get_or retiming.now v 0 ≤ 63) }
    ensures { result ≡ filled 64 (λ v. get_or retiming.now v 0 + pick (leb (get_or start.now v 0) steps) 1 0) nodes }
{
    let mut raised = [0u8; 64];
    for v in 0..nodes {
        let i = v as usize;
        raised[i] = gain(retiming[i], start[i], steps);
    }
    raised
}

// The timetable of the form with its starts rotated, its length taken anew, and retimings 0.
fn turn_times(edges: Edges, times: Timetable, steps: u16) -> Timetable
    requires { (f : Form) × TurnableBy f edges times steps }
    ensures { (f : Form) → TurnableBy f edges.entry times steps → result ≡ times_of (turned_form f steps) }
{
    let lower = dropped(times.nodes, &times.start, steps);
    let raised = gained(times.nodes, &times.retiming, &times.start, steps);
    let bare = with_pair(times, lower, 0, raised);
    placed(edges, bare)
}

// The timetable of the form rotated by so many steps; no retiming is fitted to more than 512 steps.
pub fn rotate_times(edges: Edges, times: Timetable, steps: u16) -> Timetable
    requires { (f : Form) × TurnableBy f edges times steps }
    ensures { (f : Form) → TurnableBy f edges.entry times steps → result ≡ times_of (rotated_or f steps) }
{
    let mut turned = turn_times(edges, times, steps);
    if 512 < turned.length {
        return turned;
    }
    // starts that the list rule made always fit
    let retiming = fit::fit_starts(edges, turned).unwrap_or([0; 64]);
    turned.retiming = retiming;
    turned
}
