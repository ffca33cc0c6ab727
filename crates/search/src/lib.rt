// Searches: the first schedule, then rotations, and the shortest pair met.
#![tactic(auto)]

ghost use Rattle.std.specs.Prelude.{◌≡◌, ◌≤◌};
ghost use Rattle.form.specs.declared.Form.{Form};
ghost use Rattle.tables.specs.Times.{times_of};
ghost use Rattle.plans.specs.Outcome.{plan_in, scheduled_in};
ghost use Rattle.plans.specs.Tabled.{TabledBy};
ghost use Rattle.plans.specs.Scheduling.{Planned, RecordScheduled};
ghost use Rattle.turning.specs.Lending.{UnknottedBy};
ghost use Rattle.search.specs.Search.{halved, shorter};
ghost use Rattle.search.specs.Searching.{search_asked, search_form, search_turns, Answers};

use answer::{Refusal, Refused};
use form::Edges;
use plans::{Rewritten, Turned};
use tables::Timetable;

// A size halved while it is at least the length.
fn halve(size: u16, length: u16) -> u16
    requires { 1 ≤ length }
    ensures { result ≡ halved 17 length size }
{
    let mut steps = size;
    while length <= steps {
        steps = steps / 2;
    }
    steps
}

// The shorter timetable, the earlier among equals.
fn shorter_of(old: Timetable, new: Timetable) -> Timetable
    ensures { (x y : Form) → old ≡ times_of x → new ≡ times_of y → result ≡ times_of (shorter x y) }
{
    if new.length < old.length {
        return new;
    }
    old
}

// The shortest timetable met, and the rotations completed.
fn found(times: Timetable, rotations: u32) -> Turned
    ensures { (result.times ≡ times) × (result.rotations ≡ rotations) }
{
    Turned { rotations, times }
}

// Up to `count` rotations from the first schedule on, by the size halved while it is at least the length at hand.
// A rotation costs at most some N*(N+E) steps for the weights, E+9*N for each of 1023 steps of the list rule, and N*E for
// the fit, under a million at 64 nodes and 256 edges; a search makes at most `count` of them after the first schedule.
pub fn search_times(edges: Edges, times: Timetable, count: u16, size: u16) -> Turned
    requires { (f : Form) × UnknottedBy f edges times }
    ensures { (f : Form) → UnknottedBy f edges.entry times → Answers f count size result.times result.rotations }
{
    let mut now = turning::first_times(edges, times);
    let mut best = now;
    let mut steps = size;
    for rotations in 0..count as u32 {
        steps = halve(steps, now.length);
        if steps == 0 {
            return found(best, rotations);
        }
        let turned = turning::rotate_times(edges, now, steps);
        let long = 512 < turned.length;
        if long {
            return found(best, rotations);
        }
        best = shorter_of(best, turned);
        now = turned;
    }
    found(best, count as u32)
}

// Knot, then Size, else the shortest pair of a search.
fn search_plan(edges: Edges, times: Timetable, count: u16, size: u16) -> Result<Turned, Refused>
    requires { (f : Form) × TabledBy f edges times }
    ensures { (f : Form) → TabledBy f edges.entry times → Planned (search_asked size) (search_form count size) (search_turns count size) f (plan_in times result) }
{
    knots::unknotted(times.nodes, edges)?;
    if size == 0 {
        return Err(Refusal::Size(0).into());
    }
    Ok(search_times(edges, times, count, size))
}

// The record with the shortest pair of a search, into `out`, and the rotations completed; a refusal leaves `out` as it was.
pub fn search(record: &[u8], count: u16, size: u16, out: &mut [u8]) -> Result<Rewritten, Refused>
    ensures { RecordScheduled (search_asked size) (search_form count size) (search_turns count size) «record».now out.old out.new (scheduled_in result) }
{
    match &reader::read(record) {
        Ok(form) => {
            let plan = search_plan(form.edges(), tables::times_of(form), count, size)?;
            plans::write_plan(*form, plan, out)
        }
        Err(refusal) => Err((*refusal).into()),
    }
}
