// A body as a reservation table, into a lent buffer: a row for each step, a column for each class, in it a
// place of six bytes for each unit. Where the buffer ends nothing is put, so that the same functions measure
// a table, into no room at all, and write it.
#![tactic(auto)]

ghost use Rattle.std.specs.Prelude.{◌&&◌, ◌≡◌, [], ◌∷◌, ◌++◌, ◌+◌, ◌-◌, ◌*◌, ◌≤◌, ◌<◌, eqb, ltb, length, get_or, unwrap_or, IfSome};
ghost use Rattle.laid.specs.Laid.{Laid};
ghost use Rattle.laid.specs.Rows.{rows};
ghost use Rattle.form.specs.declared.Form.{Form};
ghost use Rattle.form.specs.Places.{no_class, class_of};
ghost use Rattle.text.specs.Page.{Puts};
ghost use Rattle.text.specs.Decimal.{decimal};
ghost use Rattle.text.specs.Words.{retiming_text};
ghost use Rattle.tables.specs.Times.{times_of};
ghost use Rattle.drawing.specs.Words.{free_word};
ghost use Rattle.drawing.specs.Table.{blanks, right, class_line, head_text, start_place, held_place, places_text, row_text, table_text, drawn, drawn_buffer};
ghost use Rattle.rules.specs.Busy.{StartsIn};
ghost use Rattle.drawing.specs.Noted.{NotedBy, Narrow, TimesTabled};

use form::{Class, hold_of};
use rules::busy_in;
use tables::Timetable;
use text::Page;

// So many blanks.
fn put_blanks(page: &mut Page, count: usize)
    requires { (page.old.at ≤ 1900000) × (count ≤ 100) }
    ensures { (page.new.at ≡ page.old.at + count) × Puts page.old page.new (blanks count) }
{
    for _i in 0..count {
        page.byte(b' ');
    }
}

// How many digits a number below 1000 has.
fn digits_of(number: u32) -> usize
    ensures { (result ≡ length (decimal number)) × (result ≤ 3) × (number < 100 → result ≤ 2) }
{
    if number < 10 {
        return 1;
    }
    if number < 100 {
        return 2;
    }
    3
}

// A number at the right of a place.
fn put_right(page: &mut Page, number: u32)
    requires { (page.old.at ≤ 1890000) × (number < 1000) }
    ensures { (page.new.at ≤ page.old.at + 6) × Puts page.old page.new (right (decimal number)) }
{
    put_blanks(page, 6 - digits_of(number));
    page.number(number);
}

// How long "+r" is.
fn retiming_size(retiming: u8) -> usize
    ensures { (result ≡ length (retiming_text retiming)) × (result ≤ 4) }
{
    if retiming == 0 {
        return 0;
    }
    1 + digits_of(retiming as u32)
}

// A node that starts, with its "+r", at the right of a place.
fn put_start(page: &mut Page, node: u32, retiming: u8)
    requires { (page.old.at ≤ 1790000) × (node < 100) }
    ensures { (page.new.at ≤ page.old.at + 6) × Puts page.old page.new (right (decimal node ++ retiming_text retiming)) }
{
    let size = digits_of(node) + retiming_size(retiming);
    put_blanks(page, 6 - size);
    page.number(node);
    page.retiming(retiming);
}

// A node that still holds its unit, at the right of a place.
fn put_held(page: &mut Page, node: u32)
    requires { (page.old.at ≤ 1790000) × (node < 100) }
    ensures { (page.new.at ≤ page.old.at + 6) × Puts page.old page.new (right (91 ∷ (decimal node ++ (93 ∷ [])))) }
{
    put_blanks(page, 4 - digits_of(node));
    page.field(b"[", node);
    page.byte(b']');
}

// Whether a node on class `own` is of `class` and starts in the step.
fn starts_in(step: u16, class: u8, own: u8, start: u16) -> bool
    ensures { result ≡ (eqb own class && eqb start step) }
{
    if own != class {
        return false;
    }
    start == step
}

// Whether it started before the step and holds its unit up to it.
fn holds_in(step: u16, class: u8, hold: u8, own: u8, start: u16) -> bool
    ensures { result ≡ (eqb own class && (ltb start step && ltb step (start + hold))) }
{
    if own != class {
        return false;
    }
    if step <= start {
        return false;
    }
    (step as u32) < start as u32 + hold as u32
}

// The place of a node where it starts.
fn put_starter(page: &mut Page, step: u16, class: u8, node: u32, own: u8, start: u16, retiming: u8)
    requires { (page.old.at ≤ 1780000) × (node < 100) }
    ensures { (page.new.at ≤ page.old.at + 6) × Puts page.old page.new (start_place step class node own start retiming) }
{
    if !starts_in(step, class, own, start) {
        return;
    }
    put_start(page, node, retiming);
}

// The place of a node where it still holds its unit.
fn put_holder(page: &mut Page, step: u16, class: u8, hold: u8, node: u32, own: u8, start: u16)
    requires { (page.old.at ≤ 1780000) × (node < 100) }
    ensures { (page.new.at ≤ page.old.at + 6) × Puts page.old page.new (held_place step class hold node own start) }
{
    if !holds_in(step, class, hold, own, start) {
        return;
    }
    put_held(page, node);
}

// The nodes of a class that start in a step, ascending.
fn put_starting(page: &mut Page, step: u16, class: u8, times: &Timetable)
    requires { (page.old.at ≤ 1770000) × (times.now.nodes ≤ 64) }
    ensures { (page.new.at ≤ page.old.at + 384) × Puts page.old page.new (rows (λ v. start_place step class v (get_or times.now.runs v 0) (get_or times.now.start v 0) (get_or times.now.retiming v 0)) times.now.nodes) }
{
    for i in 0..times.nodes as usize {
        put_starter(
            page,
            step,
            class,
            i as u32,
            times.runs[i],
            times.start[i],
            times.retiming[i],
        );
    }
}

// The nodes of a class that still hold a unit in a step, ascending.
fn put_holding(page: &mut Page, step: u16, class: u8, hold: u8, times: &Timetable)
    requires { (page.old.at ≤ 1770000) × (times.now.nodes ≤ 64) }
    ensures { (page.new.at ≤ page.old.at + 384) × Puts page.old page.new (rows (λ v. held_place step class hold v (get_or times.now.runs v 0) (get_or times.now.start v 0)) times.now.nodes) }
{
    for i in 0..times.nodes as usize {
        put_holder(
            page,
            step,
            class,
            hold,
            i as u32,
            times.runs[i],
            times.start[i],
        );
    }
}

// How many units are free.
fn free_of(units: u8, busy: u16) -> u8
    ensures { result ≡ units - busy }
{
    if (units as u16) < busy {
        return 0;
    }
    (units as u16 - busy) as u8
}

// The places of the units that are free.
fn put_free(page: &mut Page, free: u8)
    requires { (page.old.at ≤ 1780000) × (free ≤ 8) }
    ensures { (page.new.at ≤ page.old.at + 48) × Puts page.old page.new (rows (λ i. free_word) free) }
{
    for _i in 0..free {
        page.word(b"     .");
    }
}

// The places of a class in a step.
fn put_places(page: &mut Page, step: u16, number: u8, class: Class, times: &Timetable)
    requires { (page.old.at ≤ 1760000) × (times.now.nodes ≤ 64) × (1 ≤ step) × (step ≤ times.now.length) × StartsIn times.now.length times.now.start times.now.nodes × (class.units ≤ 8) }
    ensures { (page.new.at ≤ page.old.at + 818) × ((f : Form) → NotedBy f times.now → class ≡ class_of f number → Puts page.old page.new (places_text f step number)) }
{
    let hold = hold_of(class);
    let busy = busy_in(
        times.length,
        times.nodes,
        &times.runs,
        &times.start,
        number,
        hold,
        step,
    );
    page.word(b" |");
    put_starting(page, step, number, times);
    put_holding(page, step, number, hold, times);
    put_free(page, free_of(class.units, busy));
}

// The places of the classes in a step.
fn put_columns(page: &mut Page, step: u16, times: &Timetable)
    requires { (page.old.at ≤ 1750000) × (times.now.nodes ≤ 64) × (1 ≤ step) × (step ≤ times.now.length) × StartsIn times.now.length times.now.start times.now.nodes × Narrow times.now.classes times.now.class }
    ensures { (page.new.at ≤ page.old.at + 3272) × ((f : Form) → NotedBy f times.now → times.now.class ≡ f.class → Puts page.old page.new (rows (places_text f step) times.now.classes)) }
{
    for c in 0..times.classes {
        let row = times.class[c as usize];
        put_places(page, step, c, row, times);
    }
}

// The row of a step.
fn put_row(page: &mut Page, step: u16, times: &Timetable)
    requires { (page.old.at ≤ 1740000) × (step < 1000) × (times.now.nodes ≤ 64) × (1 ≤ step) × (step ≤ times.now.length) × StartsIn times.now.length times.now.start times.now.nodes × Narrow times.now.classes times.now.class }
    ensures { (page.new.at ≤ page.old.at + 3279) × ((f : Form) → NotedBy f times.now → times.now.class ≡ f.class → times.now.classes ≡ f.header.classes → Puts page.old page.new (row_text f step)) }
{
    put_right(page, step as u32);
    put_columns(page, step, times);
    page.byte(b'\n');
}

// The rows of the body's steps.
fn put_rows(page: &mut Page, times: &Timetable)
    requires { (page.old.at ≤ 1000) × TimesTabled times.now }
    ensures { (page.new.at ≤ page.old.at + 1678848) × ((f : Form) → times.now ≡ times_of f → Puts page.old page.new (rows (λ i. row_text f (i + 1)) f.header.length)) }
{
    for i in 0..times.length {
        put_row(page, i + 1, times);
    }
}

// What a class is.
fn put_class(page: &mut Page, number: u8, class: Class)
    requires { page.old.at ≤ 1000 }
    ensures { (page.new.at ≤ page.old.at + 45) × Puts page.old page.new (class_line number class) }
{
    page.field(b"class ", number as u32);
    page.field(b": latency ", class.latency as u32);
    page.field(b", units ", class.units as u32);
    if class.pipelined == 0 {
        page.word(b", plain\n");
        return;
    }
    page.word(b", pipelined\n");
}

// What the classes are.
fn put_classes(page: &mut Page, times: &Timetable)
    requires { (page.old.at ≤ 100) × (times.now.classes ≤ 4) }
    ensures { (page.new.at ≤ page.old.at + 180) × Puts page.old page.new (rows (λ c. class_line c (get_or times.now.class c no_class)) times.now.classes) }
{
    for c in 0..times.classes {
        let row = times.class[c as usize];
        put_class(page, c, row);
    }
}

// The head of a class's column, at its last unit.
fn put_head(page: &mut Page, number: u8, units: u8)
    requires { (page.old.at ≤ 1000) × (units ≤ 8) }
    ensures { (page.new.at ≤ page.old.at + 50) × Puts page.old page.new (head_text number units) }
{
    let before = free_of(units, 1) as usize;
    page.word(b" |");
    put_blanks(page, 6 * before);
    put_right(page, number as u32);
}

// The heads of the columns.
fn put_heads(page: &mut Page, times: &Timetable)
    requires { (page.old.at ≤ 500) × Narrow times.now.classes times.now.class }
    ensures { (page.new.at ≤ page.old.at + 200) × Puts page.old page.new (rows (λ c. head_text c (get_or times.now.class c no_class).units) times.now.classes) }
{
    for c in 0..times.classes {
        let row = times.class[c as usize];
        put_head(page, c, row.units);
    }
}

// The classes, the heads, then the rows, and the table's size.
fn put_table(out: &mut [u8], times: &Timetable) -> usize
    requires { TimesTabled times.now }
    ensures { (result ≤ 1700000) × ((f : Form) → times.now ≡ times_of f → Laid out.old 0 (table_text f) out.new result) }
{
    let mut page = Page::new(out);
    put_classes(&mut page, times);
    page.word(b"  step");
    put_heads(&mut page, times);
    page.byte(b'\n');
    put_rows(&mut page, times);
    page.at
}

// The record's table into `out`, and its size; none where there is no room, and where the record is refused, with `out` as it was.
pub fn draw(record: &[u8], out: &mut [u8]) -> Option<u32>
    ensures value { unwrap_or result 0 ≡ drawn «record».now (length out.old) }
    ensures some { IfSome result (λ size. 0 < size) }
    ensures out_after { out.new ≡ drawn_buffer «record».now out.old }
{
    let Ok(form) = reader::read(record) else {
        return None;
    };
    let times = tables::times_of(&form);
    // into no room: the size alone
    let size = put_table(&mut out[..0], &times);
    if out.len() < size {
        return None;
    }
    put_table(out, &times);
    Some(size as u32)
}
