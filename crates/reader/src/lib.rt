// A record's bytes into a held form: every field in layout order, at its offset.
#![tactic(auto)]

ghost use Rattle.std.specs.Prelude.{◌≡◌, ◌+◌, ◌*◌, ◌≤◌, ◌<◌, ltb, length, get_or, None, Some, IfOk};
ghost use Rattle.lists.specs.Pick.{pick};
ghost use Rattle.answer.specs.Outcome.{refusal_in};
ghost use Rattle.answer.specs.declared.Refusal.TheVariants.{Retiming, Tail};
ghost use Rattle.form.specs.Places.{no_class, empty_form, scheduled_of};
ghost use Rattle.form.specs.Offsets.{starts_at};
ghost use Rattle.reader.specs.Outcome.{edge_table, placed_table, table_in, front_in, prefix_in, record_in};
ghost use Rattle.reader.specs.Tables.{Few, Headed, no_classes, no_nodes, no_edges, no_starts, ClassesRead, NodesRead, EdgesRead, StartsRead};
ghost use Rattle.reader.specs.Reading.{normalized, TablesRead, prefix_of, read_form};

use answer::Refusal;
use field::Kind;
use form::{BodyStep, Class, Form, Header, Node};

// The record at the front of bytes: its form, and where it ends.
#[derive(Clone, Copy)]
pub struct Front {
    pub size: usize,
    pub form: Form,
}

// A class's latency, 0 past the table.
fn latency_of(class: &[Class; 4], number: u8) -> u8
    ensures { result ≡ (get_or class.now number no_class).latency }
{
    class.get(number as usize).map_or(0, |found| found.latency)
}

// Mark, version and the counts.
#[tactic(auto, using(std::proofs::lemmas::Grind::common_steps, field::specs::Laws::taken_stopped), unfolding(crate::specs::Tables::header_of, form::specs::Places::empty_form))]
fn header(s: &[u8]) -> Result<Header, Refusal>
    ensures { Headed s.now result }
{
    field::take(s, 0, 3, 4936530, 4936530, Kind::Mark)?;
    field::take(s, 3, 2, 1, 1, Kind::Version)?;
    let classes = field::take(s, 5, 1, 1, 4, Kind::Count)?;
    let nodes = field::take(s, 6, 1, 1, 64, Kind::Count)?;
    let edges = field::take(s, 7, 2, 0, 256, Kind::Count)?;
    let length = field::take(s, 9, 2, 0, 512, Kind::Count)?;
    Ok(Header {
        classes: classes as u8,
        nodes: nodes as u8,
        edges: edges as u16,
        length: length as u16,
    })
}

// The classes' rows, into a table of none.
fn classes(s: &[u8], at: usize, count: u8, class: &mut [Class; 4]) -> Result<(), Refusal>
    requires bounds { (count ≤ 4) × (at ≤ 20000) }
    requires none { class.old ≡ no_classes }
    ensures { ClassesRead s.now at count (table_in result class.new) }
{
    for i in 0..count as usize {
        class[i] = rows::class_row(s, at + 3 * i)?;
    }
    Ok(())
}

// The nodes' rows, into a table of none.
fn nodes(s: &[u8], at: usize, classes: u8, count: u8, node: &mut [Node; 64]) -> Result<(), Refusal>
    requires bounds { (count ≤ 64) × (at ≤ 20000) }
    requires none { node.old ≡ no_nodes }
    ensures { NodesRead s.now at classes count (table_in result node.new) }
{
    for i in 0..count as usize {
        node[i] = rows::node_row(s, at + 6 * i, classes)?;
    }
    Ok(())
}

// The edges' rows, into tables of none.
fn edges(
    s: &[u8],
    at: usize,
    header: Header,
    from: &mut [u8; 256],
    to: &mut [u8; 256],
    delays: &mut [u8; 256],
) -> Result<(), Refusal>
    requires bounds { Few header × (at ≤ 20000) }
    requires none { edge_table from.old to.old delays.old ≡ no_edges }
    ensures { EdgesRead s.now at header.nodes header.edges (table_in result (edge_table from.new to.new delays.new)) }
{
    for i in 0..header.edges as usize {
        let edge = rows::edge_row(s, at + 3 * i, header.nodes)?;
        from[i] = edge.from;
        to[i] = edge.to;
        delays[i] = edge.delays;
    }
    Ok(())
}

// The starts and retimings of a schedule, into tables of none.
fn starts(
    s: &[u8],
    at: usize,
    header: Header,
    class: &[Class; 4],
    node: &[Node; 64],
    start: &mut [BodyStep; 64],
    retiming: &mut [u8; 64],
) -> Result<(), Refusal>
    requires bounds { Few header × (at ≤ 20000) }
    requires none { placed_table start.old retiming.old ≡ no_starts }
    ensures { StartsRead s.now at header.length class.now node.now (scheduled_of header.length header.nodes) (table_in result (placed_table start.new retiming.new)) }
{
    let count = scheduled_nodes(header.length, header.nodes);
    for i in 0..count {
        let latency = latency_of(class, node[i].class);
        let row = rows::start_row(s, at + 3 * i, header.length, latency)?;
        start[i] = row.start;
        retiming[i] = row.retiming;
    }
    Ok(())
}

// There is no schedule, or one of its retimings is 0.
#[tactic(auto, using(std::proofs::lemmas::Grind::common_steps, std::proofs::lemmas::Bool::Decides::nat_tests, crate::proofs::Laws::zero_contained), unfolding(crate::specs::Reading::normalized, lists::specs::Pick::pick))]
fn is_normalized(length: u16, nodes: u8, retiming: &[u8; 64]) -> bool
    requires { nodes ≤ 64 }
    ensures { result ≡ normalized length nodes retiming.now }
{
    length == 0 || retiming[..nodes as usize].contains(&0)
}

// A schedule has a retiming 0.
fn none_is_zero(header: Header, retiming: &[u8; 64]) -> Result<(), Refusal>
    requires { header.nodes ≤ 64 }
    ensures { refusal_in result ≡ pick (normalized header.length header.nodes retiming.now) None (Some (Retiming (starts_at header + 2))) }
{
    if is_normalized(header.length, header.nodes, retiming) {
        return Ok(());
    }
    let edges_at = 11 + 3 * header.classes as u32 + 6 * header.nodes as u32;
    let starts_at = edges_at + 3 * header.edges as u32;
    Err(Refusal::Retiming(starts_at + 2))
}

// No byte is left past the end of what was read.
#[tactic(auto, using(std::proofs::lemmas::Grind::common_steps, std::proofs::lemmas::Bool::Decides::nat_tests), unfolding(lists::specs::Pick::pick))]
fn tail(s: &[u8], end: usize) -> Result<(), Refusal>
    requires { end ≤ 60000 }
    ensures { refusal_in result ≡ pick (ltb end (length s.now)) (Some (Tail end)) None }
{
    if end < s.len() {
        return Err(Refusal::Tail(end as u32));
    }
    Ok(())
}

// How many nodes have a start and a retiming.
#[tactic(auto, using(std::proofs::lemmas::Grind::common_steps, std::proofs::lemmas::Bool::Decides::nat_tests), unfolding(form::specs::Places::scheduled_of, lists::specs::Pick::pick))]
fn scheduled_nodes(length: u16, nodes: u8) -> usize
    ensures { (result ≡ scheduled_of length nodes) × (result ≤ nodes) }
{
    if length == 0 {
        return 0;
    }
    nodes as usize
}

// The header and the four tables at the front of the lent bytes, into an empty form; where they end. Each table is read where it stays.
#[tactic(auto, unfolding(form::specs::Places::empty_form))]
fn tables(s: &[u8], form: &mut Form) -> Result<usize, Refusal>
    requires { form.old ≡ empty_form }
    ensures { TablesRead s.now (front_in result form.new) }
{
    let header = header(s)?;
    form.header = header;
    classes(s, 11, header.classes, &mut form.class)?;
    let nodes_at = 11 + 3 * header.classes as usize;
    nodes(s, nodes_at, header.classes, header.nodes, &mut form.node)?;
    let edges_at = nodes_at + 6 * header.nodes as usize;
    edges(
        s,
        edges_at,
        header,
        &mut form.from,
        &mut form.to,
        &mut form.delays,
    )?;
    let starts_at = edges_at + 3 * header.edges as usize;
    starts(
        s,
        starts_at,
        header,
        &form.class,
        &form.node,
        &mut form.start,
        &mut form.retiming,
    )?;
    let scheduled = scheduled_nodes(header.length, header.nodes);
    let end = starts_at + 3 * scheduled;
    Ok(end)
}

// The record at the front of the lent bytes, or the first refusal; what is left past it is not looked at.
#[tactic(auto, using(std::proofs::lemmas::Grind::common_steps, answer::specs::Refused::fines), unfolding(crate::specs::Reading::prefix_of, crate::specs::Reading::fronted, crate::specs::Reading::end_of, crate::specs::Reading::retiming_offset, lists::specs::Pick::pick))]
pub fn read_prefix(s: &[u8]) -> Result<Front, Refusal>
    ensures value { prefix_in result ≡ prefix_of s.now }
    ensures near { IfOk result (λ front. front.size ≤ 1367) }
{
    let mut form = Form::empty();
    let size = tables(s, &mut form)?;
    none_is_zero(form.header, &form.retiming)?;
    Ok(Front { size, form })
}

// The record in the lent bytes, or the first refusal.
#[tactic(auto, using(std::proofs::lemmas::Grind::common_steps, answer::specs::Refused::fines), unfolding(crate::specs::Reading::read_form, crate::specs::Reading::answered, crate::specs::Reading::tail_of, crate::specs::Reading::prefix_of, crate::specs::Reading::fronted, crate::specs::Reading::end_of, crate::specs::Reading::retiming_offset, lists::specs::Pick::pick))]
pub fn read(s: &[u8]) -> Result<Form, Refusal>
    ensures { record_in result ≡ read_form s.now }
{
    let mut form = Form::empty();
    let end = tables(s, &mut form)?;
    none_is_zero(form.header, &form.retiming)?;
    tail(s, end)?;
    Ok(form)
}
