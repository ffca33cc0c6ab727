// The plain loop: iteration after iteration, each node after those whose values it needs.
#![tactic(auto)]

ghost use Rattle.std.specs.Prelude.{◌≡◌, ℕ, ◌*◌, ◌≤◌, ◌<◌, length, get_or, take, Some};
ghost use Rattle.answer.specs.Outcome.{refusal_in};
ghost use Rattle.answer.specs.declared.Refusal.TheVariants.{Knot};
ghost use Rattle.form.specs.Ranges.{WellFormed};
ghost use Rattle.legal.specs.Loop.{loop_of};
ghost use Rattle.plain.specs.Outcome.{looped_in};
ghost use Rattle.plain.specs.Looping.{looped};
ghost use Rattle.plain.specs.Answer.{room_of, FormLooped, RecordLooped};

use answer::{Refusal, Refused};
use form::Form;
use knots::Tied;
use machine::Iteration;
use operands::Inputs;

// So many iterations, one after the other: each node in order, its value stored at its place.
// Both loops stand in one function: the form is not handed on for each iteration.
fn iterate_all(form: Form, order: [u8; 64], iterations: u16, starts: &[u32], values: &mut [u32])
    requires well_formed { WellFormed form }
    requires order_len { (length order ≡ 64) × ((k : ℕ) → k < form.header.nodes → get_or order k 0 < form.header.nodes) }
    requires nodes_in_bounds { (15 * form.header.nodes ≤ length starts.now) × (iterations * form.header.nodes ≤ length values.old) }
    ensures { values.new ≡ looped (loop_of form) starts.now (take form.header.nodes order) iterations values.old }
{
    let links = links::links_of(&form.to, form.header.edges);
    let nodes = form.header.nodes;
    let inputs = Inputs {
        nodes,
        edges: form.header.edges,
        from: &form.from,
        delays: &form.delays,
        next: &links.next,
    };
    for i in 0..iterations as u32 {
        let row = i as usize * nodes as usize;
        for k in 0..nodes as usize {
            let v = order[k] as usize;
            let node = form.node[v];
            let value = operands::value_of(
                node.operation,
                links.first[v],
                inputs,
                Iteration(i),
                starts,
                values,
            );
            values[row + v] = value;
        }
    }
}

// The refusal of a loop with a knot.
fn knotted(tied: Tied) -> Refused
    requires { 0 < tied.knot.count }
    ensures { (result.refusal ≡ Knot) × (result.cycle ≡ Some tied.knot) }
{
    Refused {
        refusal: Refusal::Knot,
        cycle: Some(tied.knot),
    }
}

// Room for the start table, then for the values.
fn room_of(nodes: u8, iterations: u16, starts: usize, values: usize) -> Result<(), Refusal>
    ensures { refusal_in result ≡ room_of nodes iterations starts values }
{
    if starts < 15 * nodes as usize {
        return Err(Refusal::Room(0));
    }
    if values < iterations as usize * nodes as usize {
        return Err(Refusal::Room(1));
    }
    Ok(())
}

// The plain loop of a form, or what is refused of it: a knot, then room.
pub fn plain_form(
    form: Form,
    iterations: u16,
    starts: &[u32],
    values: &mut [u32],
) -> Result<(), Refused>
    requires { WellFormed form }
    ensures { FormLooped form iterations starts.now values.old values.new (looped_in result) }
{
    let rank = knots::ranked(form.header.nodes, form.edges()).map_err(knotted)?;
    room_of(form.header.nodes, iterations, starts.len(), values.len())?;
    let order = sorted::sorted(form.header.nodes, &rank);
    iterate_all(form, order, iterations, starts, values);
    Ok(())
}

// The plain loop of a record, or what is refused of it: by the reader first. A refusal writes nothing.
pub fn plain(
    record: &[u8],
    iterations: u16,
    starts: &[u32],
    values: &mut [u32],
) -> Result<(), Refused>
    ensures { RecordLooped «record».now iterations starts.now values.old values.new (looped_in result) }
{
    match &reader::read(record) {
        Ok(form) => plain_form(*form, iterations, starts, values),
        Err(refusal) => Err((*refusal).into()),
    }
}
