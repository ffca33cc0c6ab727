// The listing of a record as text, into a lent buffer: measured on a page of no room, then written.
#![tactic(auto)]

ghost use Rattle.std.specs.Prelude.{◌≡◌, [], ◌∷◌, ◌++◌, ◌+◌, ◌≤◌, ◌<◌, eqb, length};
ghost use Rattle.lists.specs.Pick.{pick};
ghost use Rattle.laid.specs.Laid.{Laid};
ghost use Rattle.laid.specs.Rows.{rows};
ghost use Rattle.text.specs.Page.{Puts};
ghost use Rattle.text.specs.Decimal.{decimal, newline};
ghost use Rattle.text.specs.Words.{refused_word, retiming_text};
ghost use Rattle.listing.specs.Outcome.{listed_in};
ghost use Rattle.listing.specs.Lines.{cell, verdict, nodes_text, step_line, counts_line, form_lines, listed, listed_buffer};
ghost use Rattle.listing.specs.Shown.{Shown, sizes_text, Seen, Viewed, view_text};

use answer::{Refusal, Refused};
use form::{Form, Header};
use tables::Timetable;
use text::Page;

// What a listing shows where nothing is refused: the form and its floor.
#[derive(Clone, Copy)]
struct View {
    form: Form,
    floor: u32,
}

// A node where it starts in the step.
fn put_node(page: &mut Page, step: u16, node: u32, start: u16, retiming: u8)
    requires { (page.old.at ≤ 700000) × (node < 1000) }
    ensures { (page.new.at ≤ page.old.at + 8) × Puts page.old page.new (pick (eqb start step) (32 ∷ (decimal node ++ retiming_text retiming)) []) }
{
    if start != step {
        return;
    }
    page.byte(b' ');
    page.number(node);
    page.retiming(retiming);
}

// The nodes that start in the step, ascending.
fn put_nodes(page: &mut Page, step: u16, times: &Timetable)
    requires { (page.old.at ≤ 600000) × (times.now.nodes ≤ 64) }
    ensures { (page.new.at ≤ page.old.at + 512) × Puts page.old page.new (nodes_text (cell times.now.start) (cell times.now.retiming) times.now.nodes step) }
{
    for i in 0..times.nodes as usize {
        put_node(page, step, i as u32, times.start[i], times.retiming[i]);
    }
}

// The line of a step.
fn put_line(page: &mut Page, step: u16, times: &Timetable)
    requires { (page.old.at ≤ 500000) × (step < 1000) × (times.now.nodes ≤ 64) }
    ensures { (page.new.at ≤ page.old.at + 517) × Puts page.old page.new (step_line (cell times.now.start) (cell times.now.retiming) times.now.nodes step) }
{
    page.number(step as u32);
    page.byte(b':');
    let past = page.at;
    put_nodes(page, step, times);
    if page.at == past {
        page.word(b" -\n");
        return;
    }
    page.byte(b'\n');
}

// The lines of the body's steps.
fn put_lines(page: &mut Page, times: &Timetable)
    requires { (page.old.at ≤ 1000) × (times.now.nodes ≤ 64) × (times.now.length ≤ 512) }
    ensures { (page.new.at ≤ page.old.at + 264704) × Puts page.old page.new (rows (λ i. step_line (cell times.now.start) (cell times.now.retiming) times.now.nodes (i + 1)) times.now.length) }
{
    for i in 0..times.length {
        put_line(page, i + 1, times);
    }
}

// Whether the length is the floor, and the line's end.
fn put_verdict(page: &mut Page, length: u16, floor: u32)
    requires { page.old.at ≤ 1000 }
    ensures { (page.new.at ≤ page.old.at + 10) × Puts page.old page.new (verdict length floor ++ newline) }
{
    if length as u32 == floor {
        page.word(b" shortest\n");
        return;
    }
    page.word(b" open\n");
}

// The counts of nodes, edges and steps.
fn put_sizes(page: &mut Page, header: Header)
    requires { (page.old.at ≤ 100) × (header.edges ≤ 256) × (header.length ≤ 512) }
    ensures { (page.new.at ≤ page.old.at + 30) × Puts page.old page.new (sizes_text header.nodes header.edges header.length) }
{
    page.field(b"nodes ", header.nodes as u32);
    page.field(b" edges ", header.edges as u32);
    page.field(b" length ", header.length as u32);
}

// The counts, the depth, the floor and the verdict.
fn put_counts(page: &mut Page, header: Header, depth: u8, floor: u32)
    requires { (page.old.at ≤ 50) × (header.edges ≤ 256) × (header.length ≤ 512) × (floor ≤ 512) }
    ensures { (page.new.at ≤ page.old.at + 60) × Puts page.old page.new (counts_line header.nodes header.edges header.length depth floor) }
{
    put_sizes(page, header);
    page.field(b" depth ", depth as u32);
    page.field(b" floor ", floor);
    put_verdict(page, header.length, floor);
}

// The whole listing of a form; its starts and retimings are lent.
fn put_form(page: &mut Page, form: Form, floor: u32)
    requires { Shown form floor × (page.old.at ≡ 0) }
    ensures { (page.new.at ≤ 1000000) × Puts page.old page.new (form_lines form) }
{
    let times = tables::times_of(&form);
    let depth = tables::largest(&times.retiming, form.header.nodes);
    page.word(b"RSK 1\n");
    put_counts(page, form.header, depth, floor);
    put_lines(page, &times);
}

// The whole listing of what is refused.
fn put_refused(page: &mut Page, number: u32)
    requires { (number < 1000) × (page.old.at ≡ 0) }
    ensures { (page.new.at ≤ 1000000) × Puts page.old page.new (refused_word ++ (decimal number ++ newline)) }
{
    page.field(b"refused ", number);
    page.byte(b'\n');
}

// The whole listing, and its size.
fn put_view(out: &mut [u8], view: Result<View, Refused>) -> usize
    requires { Seen view }
    ensures { (result ≤ 1000000) × Laid out.old 0 (view_text view) out.new result }
{
    let mut page = Page::new(out);
    match view {
        Ok(view) => put_form(&mut page, view.form, view.floor),
        Err(refused) => put_refused(&mut page, refused.refusal.number()),
    }
    page.at
}

// What a record shows: it is read once.
fn view_of(record: &[u8]) -> Result<View, Refused>
    ensures { Viewed «record».now result }
{
    match &reader::read(record) {
        Ok(form) => {
            let edges = form.edges();
            let times = tables::times_of(form);
            judge::judge_tables(edges, times)?;
            let attained = floor::floor_tables(edges, times)?;
            Ok(View {
                form: *form,
                floor: attained.floor,
            })
        }
        Err(refusal) => Err((*refusal).into()),
    }
}

// The record's listing into `out`, or what the judge refuses of it; its size. Room leaves `out` as it was.
pub fn list(record: &[u8], out: &mut [u8]) -> Result<u32, Refusal>
    ensures value { listed_in result ≡ listed «record».now (length out.old) }
    ensures out_after { out.new ≡ listed_buffer «record».now out.old }
{
    let view = view_of(record);
    // into no room: the size alone
    let size = put_view(&mut out[..0], view);
    if out.len() < size {
        return Err(Refusal::Room(0));
    }
    put_view(out, view);
    Ok(size as u32)
}
