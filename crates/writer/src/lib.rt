// A held form into a record's bytes: laid out in a buffer, read back, and copied out where the reader takes them.
#![tactic(auto)]

ghost use Rattle.std.specs.Prelude.{true, ◌≡◌, List, ℕ, ◌+◌, ◌*◌, ◌≤◌, ◌<◌, length};
ghost use Rattle.std.proofs.lemmas.List.Edits.{sets};
ghost use Rattle.answer.specs.Refused.{fine};
ghost use Rattle.laid.specs.Laid.{Laid};
ghost use Rattle.laid.specs.Rows.{rows};
ghost use Rattle.form.specs.declared.Form.{Form};
ghost use Rattle.form.specs.Places.{class_of, node_of, edge_of, start_of, retiming_of, scheduled_of};
ghost use Rattle.reader.specs.Reading.{read_form};
ghost use Rattle.writer.specs.Layout.{code_of, constant_of, class_bytes, node_bytes, edge_bytes, start_bytes, count_bytes, layout};
ghost use Rattle.writer.specs.Outcome.{written_in};
ghost use Rattle.writer.specs.Writing.{written, buffer_after};

use answer::Refusal;
use form::{Form, Header, Operation};

// The operation's number in a record.
fn code_of(operation: Operation) -> u8
    ensures { result ≡ code_of operation }
{
    match operation {
        Operation::Add(_) => 0,
        Operation::Sub(_) => 1,
        Operation::Mul(_) => 2,
    }
}

fn constant_of(operation: Operation) -> u32
    ensures { result ≡ constant_of operation }
{
    match operation {
        Operation::Add(constant) => constant,
        Operation::Sub(constant) => constant,
        Operation::Mul(constant) => constant,
    }
}

// Mark, version and the counts.
fn put_header(out: &mut [u8; 1367], header: Header) -> usize
    ensures { (result ≡ 11) × Laid out.old 0 (count_bytes header) out.new result }
{
    out[0] = b'R';
    out[1] = b'S';
    out[2] = b'K';
    out[3] = 1;
    out[4] = 0;
    out[5] = header.classes;
    out[6] = header.nodes;
    out[7] = (header.edges % 256) as u8;
    out[8] = (header.edges / 256 % 256) as u8;
    out[9] = (header.length % 256) as u8;
    out[10] = (header.length / 256 % 256) as u8;
    11
}

// A table of a form: how many places it has, how wide a row is, and how row i is laid.
trait Table {
    ghost places: { ℕ };

    ghost width: { ℕ };

    ghost row_bytes: { Form → ℕ → List ℕ };

    fn put(out: &mut [u8; 1367], at: usize, form: &Form, i: usize) -> usize
        requires { (i < places) × (at + width ≤ 1367) }
        ensures { (result ≡ at + width) × Laid out.old at (row_bytes form.now i) out.new result };
}

struct ClassRows;

struct NodeRows;

struct EdgeRows;

struct StartRows;

impl Table for ClassRows {
    ghost places = { 4 };

    ghost width = { 3 };

    ghost row_bytes = { λ f i. class_bytes (class_of f i) };

    fn put(out: &mut [u8; 1367], at: usize, form: &Form, i: usize) -> usize {
        let class = form.class[i];
        out[at] = class.latency;
        out[at + 1] = class.units;
        out[at + 2] = class.pipelined;
        at + 3
    }
}

impl Table for NodeRows {
    ghost places = { 64 };

    ghost width = { 6 };

    ghost row_bytes = { λ f v. node_bytes (node_of f v) };

    fn put(out: &mut [u8; 1367], at: usize, form: &Form, i: usize) -> usize {
        let node = form.node[i];
        let operation = node.operation;
        let constant = constant_of(operation);
        out[at] = node.class;
        out[at + 1] = code_of(operation);
        out[at + 2] = (constant % 256) as u8;
        out[at + 3] = (constant / 256 % 256) as u8;
        out[at + 4] = (constant / 256 / 256 % 256) as u8;
        out[at + 5] = (constant / 256 / 256 / 256 % 256) as u8;
        at + 6
    }
}

impl Table for EdgeRows {
    ghost places = { 256 };

    ghost width = { 3 };

    ghost row_bytes = { λ f e. edge_bytes (edge_of f e) };

    fn put(out: &mut [u8; 1367], at: usize, form: &Form, i: usize) -> usize {
        out[at] = form.from[i];
        out[at + 1] = form.to[i];
        out[at + 2] = form.delays[i];
        at + 3
    }
}

// A node's start and retiming.
impl Table for StartRows {
    ghost places = { 64 };

    ghost width = { 3 };

    ghost row_bytes = { λ f v. start_bytes (start_of f v) (retiming_of f v) };

    fn put(out: &mut [u8; 1367], at: usize, form: &Form, i: usize) -> usize {
        let step = form.start[i].0;
        out[at] = (step % 256) as u8;
        out[at + 1] = (step / 256 % 256) as u8;
        out[at + 2] = form.retiming[i];
        at + 3
    }
}

// A table's rows, one after the other.
fn put_rows<T: Table>(out: &mut [u8; 1367], at: usize, form: &Form, count: usize) -> usize
    requires { (count ≤ T.places) × (at + T.width * count ≤ 1367) }
    ensures { (result ≡ at + T.width * count) × Laid out.old at (rows (T.row_bytes form.now) count) out.new result }
{
    let mut next = at;
    for i in 0..count {
        next = T::put(out, next, form, i);
    }
    next
}

// How many nodes have a start and a retiming.
fn scheduled_of(length: u16, nodes: u8) -> usize
    ensures { result ≡ scheduled_of length nodes }
{
    if length == 0 {
        return 0;
    }
    nodes as usize
}

// The whole form, and the size of its record. A count past its table's places counts as many.
fn lay(out: &mut [u8; 1367], form: &Form) -> usize
    ensures { (result ≤ 1367) × Laid out.old 0 (layout form.now) out.new result }
{
    let classes = (form.header.classes as usize).min(4);
    let nodes = (form.header.nodes as usize).min(64);
    let edges = (form.header.edges as usize).min(256);
    let scheduled = scheduled_of(form.header.length, form.header.nodes).min(64);
    let classes_at = put_header(out, form.header);
    let nodes_at = put_rows::<ClassRows>(out, classes_at, form, classes);
    let edges_at = put_rows::<NodeRows>(out, nodes_at, form, nodes);
    let starts_at = put_rows::<EdgeRows>(out, edges_at, form, edges);
    put_rows::<StartRows>(out, starts_at, form, scheduled)
}

// A form's bytes that the reader takes into the front of `out`, or Room; the record's size.
fn put(bytes: &[u8], out: &mut [u8]) -> Result<u32, Refusal>
    requires { length bytes.now ≤ 1367 }
    ensures { (f : Form) → bytes.now ≡ layout f → fine (read_form (layout f)).refusal ≡ true → (written_in result ≡ written f (length out.old)) × (out.new ≡ buffer_after f out.old) }
{
    let size = bytes.len();
    if out.len() < size {
        return Err(Refusal::Room(0));
    }
    out[..size].copy_from_slice(bytes);
    Ok(size as u32)
}

// The form's record into `out`, or what the reader would refuse of it, or Room; the record's size. A refusal leaves `out` as it was.
pub fn write(form: Form, out: &mut [u8]) -> Result<u32, Refusal>
    ensures { (written_in result ≡ written form (length out.old)) × (out.new ≡ buffer_after form out.old) }
{
    let mut buffer = [0u8; 1367];
    let size = lay(&mut buffer, &form);
    let bytes = &buffer[..size];
    reader::read(bytes)?;
    put(bytes, out)
}

// The same of a form whose bytes the reader is known to take: they are not read back.
pub fn write_taken(form: Form, out: &mut [u8]) -> Result<u32, Refusal>
    requires { fine (read_form (layout form)).refusal ≡ true }
    ensures { (written_in result ≡ written form (length out.old)) × (out.new ≡ buffer_after form out.old) }
{
    let mut buffer = [0u8; 1367];
    let size = lay(&mut buffer, &form);
    put(&buffer[..size], out)
}
