// First schedules and rotations.
#![tactic(auto)]

ghost use Rattle.std.specs.Prelude.{◌≡◌};
ghost use Rattle.form.specs.declared.Form.{Form};
ghost use Rattle.plans.specs.Outcome.{plan_in, scheduled_in};
ghost use Rattle.plans.specs.Tabled.{TabledBy};
ghost use Rattle.plans.specs.Scheduling.{unturned, Planned, RecordScheduled};
ghost use Rattle.turning.specs.Rotation.{first_form};
ghost use Rattle.rotation.specs.Rotating.{first_asked, turns, rotate_asked, rotated_by};

use answer::{Refusal, Refused};
use form::Edges;
use plans::{Rewritten, Turned};
use tables::Timetable;

// Knot, else the timetable of the form's first schedule.
fn first_plan(edges: Edges, times: Timetable) -> Result<Turned, Refused>
    requires { (f : Form) × TabledBy f edges times }
    ensures { (f : Form) → TabledBy f edges.entry times → Planned first_asked first_form unturned f (plan_in times result) }
{
    knots::unknotted(times.nodes, edges)?;
    Ok(plans::uncounted(turning::first_times(edges, times)))
}

// The record with its first schedule, into `out`; a refusal leaves `out` as it was.
pub fn first(record: &[u8], out: &mut [u8]) -> Result<Rewritten, Refused>
    ensures { RecordScheduled first_asked first_form unturned «record».now out.old out.new (scheduled_in result) }
{
    match &reader::read(record) {
        Ok(form) => {
            let plan = first_plan(form.edges(), tables::times_of(form))?;
            plans::write_plan(*form, plan, out)
        }
        Err(refusal) => Err((*refusal).into()), // what the reader refuses comes first
    }
}

// Whether a body of this length can be rotated by so many steps.
fn turns_by(steps: u16, length: u16) -> bool
    ensures { result ≡ turns steps length }
{
    if steps == 0 {
        return false;
    }
    steps < length
}

// What the judge refuses, then Size, then Long, else the timetable of the form rotated.
fn rotate_plan(edges: Edges, times: Timetable, steps: u16) -> Result<Turned, Refused>
    requires { (f : Form) × TabledBy f edges times }
    ensures { (f : Form) → TabledBy f edges.entry times → Planned (rotate_asked steps) (rotated_by steps) unturned f (plan_in times result) }
{
    judge::judge_tables(edges, times)?;
    if !turns_by(steps, times.length) {
        return Err(Refusal::Size(steps as u32).into());
    }
    let turned = turning::rotate_times(edges, times, steps);
    if 512 < turned.length {
        return Err(Refusal::Long.into());
    }
    Ok(plans::uncounted(turned))
}

// The record rotated by so many steps, into `out`; a refusal leaves `out` as it was.
pub fn rotate(record: &[u8], steps: u16, out: &mut [u8]) -> Result<Rewritten, Refused>
    ensures { RecordScheduled (rotate_asked steps) (rotated_by steps) unturned «record».now out.old out.new (scheduled_in result) }
{
    match &reader::read(record) {
        Ok(form) => {
            let plan = rotate_plan(form.edges(), tables::times_of(form), steps)?;
            plans::write_plan(*form, plan, out)
        }
        Err(refusal) => Err((*refusal).into()),
    }
}
