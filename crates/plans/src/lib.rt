// Plans: what becomes of a form, and its record with the new pair.
#![tactic(auto)]

ghost use Rattle.std.specs.Prelude.{true, ◌≡◌, map, Ok};
ghost use Rattle.answer.specs.Refused.{fine};
ghost use Rattle.reader.specs.Reading.{read_form};
ghost use Rattle.writer.specs.Layout.{layout};
ghost use Rattle.plans.specs.Pairs.{as_body_step, with_times};
ghost use Rattle.plans.specs.Outcome.{plan_in, scheduled_in};
ghost use Rattle.plans.specs.Scheduling.{PlanWritten};

use answer::Refused;
use form::{BodyStep, Form};
use tables::Timetable;

// What a fit, a first schedule, a rotation and a search answer: the size of the record written, and the rotations completed.
#[derive(Clone, Copy)]
pub struct Rewritten {
    pub size: u32,
    pub rotations: u32,
}

// A timetable with a form's new pair, and the rotations that it took.
#[derive(Clone, Copy)]
pub struct Turned {
    pub rotations: u32,
    pub times: Timetable,
}

// Starts as the form holds them.
fn steps_of(start: [u16; 64]) -> [BodyStep; 64]
    ensures { result ≡ map as_body_step start }
{
    let mut steps = [BodyStep(0); 64];
    for v in 0..64u8 {
        let i = v as usize;
        steps[i] = BodyStep(start[i]);
    }
    steps
}

// The form with a plan's pair into `out`; a refusal leaves `out` as it was.
pub fn write_plan(mut form: Form, plan: Turned, out: &mut [u8]) -> Result<Rewritten, Refused>
    requires { fine (read_form (layout (with_times form plan.times))).refusal ≡ true }
    ensures { PlanWritten form (plan_in plan.times (Ok plan)) out.old out.new (scheduled_in result) }
{
    let times = plan.times;
    form.header.length = times.length;
    let start = times.start;
    let steps = steps_of(start);
    let retiming = times.retiming;
    form.start = steps;
    form.retiming = retiming;
    let size = writer::write_taken(form, out)?;
    Ok(Rewritten {
        size,
        rotations: plan.rotations,
    })
}

// A plan by no rotations that are told.
pub fn uncounted(times: Timetable) -> Turned
    ensures { result ≡ record { rotations = 0; times = times } }
{
    Turned {
        rotations: 0, // none are told
        times,
    }
}
