// The judge: whether a record's pair is legal.
#![tactic(auto)]

ghost use Rattle.form.specs.declared.Form.{Form};
ghost use Rattle.tables.specs.Lent.{LentBy};
ghost use Rattle.judge.specs.Outcome.{judged_in};
ghost use Rattle.judge.specs.Judgement.{Judgement, RecordJudgement};

use answer::{Refusal, Refused};
use form::Edges;
use tables::Timetable;

// What is refused of a form, in the scope's order: Bare, Knot, Dependence, Units. Its edges are lent, and its timetable stands for the rest.
pub fn judge_tables(edges: Edges, times: Timetable) -> Result<(), Refused>
    requires { (f : Form) × LentBy f edges times }
    ensures { (f : Form) → LentBy f edges.entry times → Judgement f (judged_in result) }
{
    if times.length == 0 {
        return Err(Refusal::Bare.into());
    }
    knots::unknotted(times.nodes, edges)?;
    if let Some(edge) = rules::broken_edge(edges, times) {
        return Err(Refusal::Dependence(u32::from(edge)).into());
    }
    rules::crowded(times)?;
    Ok(())
}

// What is refused of a record: by the reader first. The form stays where it was read, and its edges are lent.
pub fn judge(record: &[u8]) -> Result<(), Refused>
    ensures { RecordJudgement «record».now (judged_in result) }
{
    match &reader::read(record) {
        Ok(form) => judge_tables(form.edges(), tables::times_of(form)),
        Err(refusal) => Err((*refusal).into()),
    }
}
