// What C and Rust link. Each function takes a record's bytes first and an answer last, and has no requires.
// Buffers stand side by side and an answer is 69 numbers: the C interface has them so.
#![tactic(auto)]

ghost use Rattle.std.specs.Prelude.{◌≡◌, length};
ghost use Rattle.answer.specs.Refused.{number_of};
ghost use Rattle.answer.specs.Outcome.{answer_list};
ghost use Rattle.answer.specs.Handed.{refused_in, handed_in};
ghost use Rattle.writer.specs.Outcome.{written_in};
ghost use Rattle.rsk_c.specs.Rewrite.{rewritten, rewritten_out, rewritten_answer};
ghost use Rattle.rsk_c.specs.Answered.{numbers_in, JudgeAnswered, FitAnswered, FirstAnswered, RotateAnswered, SearchAnswered, FloorAnswered, RunAnswered, PlainAnswered};
ghost use Rattle.rsk_c.specs.List.{listed_answer};
ghost use Rattle.listing.specs.Lines.{listed, listed_buffer};

use answer::{Details, Refusal, Refused, numbers_of};

// What is answered, as others link it: its numbers, or its refusal with the cycle that proves it.
fn told(answer: &mut [u32; 69], outcome: Result<Details, Refused>) -> u32
    ensures { (result ≡ number_of (refused_in outcome)) × (answer.new ≡ answer_list (refused_in outcome) (numbers_in outcome) (handed_in outcome)) }
{
    match outcome {
        Ok(numbers) => answer::tell(answer, numbers, None),
        Err(refused) => answer::refuse(answer, refused.refusal, refused.cycle),
    }
}

// The form that is read written again; its size.
fn rewrite(record: &[u8], out: &mut [u8]) -> Result<u32, Refusal>
    ensures { (written_in result ≡ rewritten «record».now (length out.old)) × (out.new ≡ rewritten_out «record».now out.old) }
{
    match &reader::read(record) {
        Ok(form) => writer::write_taken(*form, out),
        Err(refusal) => Err(*refusal),
    }
}

// The record read and written again; its size.
#[unsafe(no_mangle)]
#[tactic(auto, unfolding(crate::specs::Rewrite::rewritten_answer))]
pub extern "C" fn rsk_rewrite(record: &[u8], out: &mut [u8], answer: &mut [u32; 69]) -> u32
    ensures value { result ≡ number_of (rewritten «record».now (length out.old)).refusal }
    ensures out_after { out.new ≡ rewritten_out «record».now out.old }
    ensures answer_after { answer.new ≡ rewritten_answer «record».now (length out.old) }
{
    let written = rewrite(record, out).map_err(Refused::from);
    told(answer, written.map(|size| numbers_of(size, 0, 0)))
}

// The record judged; no numbers.
#[unsafe(no_mangle)]
pub extern "C" fn rsk_judge(record: &[u8], answer: &mut [u32; 69]) -> u32
    ensures { JudgeAnswered «record».now result answer.new }
{
    let judged = judge::judge(record);
    told(answer, judged.map(|_| numbers_of(0, 0, 0)))
}

// The record with its retiming fitted afresh; its size.
#[unsafe(no_mangle)]
pub extern "C" fn rsk_fit(record: &[u8], out: &mut [u8], answer: &mut [u32; 69]) -> u32
    ensures { FitAnswered «record».now out.old out.new result answer.new }
{
    let fitted = fit::fit(record, out);
    told(answer, fitted.map(|new| numbers_of(new.size, 0, 0)))
}

// The record with its first schedule; its size.
#[unsafe(no_mangle)]
pub extern "C" fn rsk_first(record: &[u8], out: &mut [u8], answer: &mut [u32; 69]) -> u32
    ensures { FirstAnswered «record».now out.old out.new result answer.new }
{
    let scheduled = rotation::first(record, out);
    told(answer, scheduled.map(|new| numbers_of(new.size, 0, 0)))
}

// The record rotated by z steps; its size.
#[unsafe(no_mangle)]
pub extern "C" fn rsk_rotate(record: &[u8], z: u16, out: &mut [u8], answer: &mut [u32; 69]) -> u32
    ensures { RotateAnswered z «record».now out.old out.new result answer.new }
{
    let rotated = rotation::rotate(record, z, out);
    told(answer, rotated.map(|new| numbers_of(new.size, 0, 0)))
}

// The record with the shortest pair of a search; its size and the rotations completed.
#[unsafe(no_mangle)]
pub extern "C" fn rsk_search(
    record: &[u8],
    count: u16,
    size: u16,
    out: &mut [u8],
    answer: &mut [u32; 69],
) -> u32
    ensures { SearchAnswered count size «record».now out.old out.new result answer.new }
{
    let found = search::search(record, count, size, out);
    told(
        answer,
        found.map(|new| numbers_of(new.size, new.rotations, 0)),
    )
}

// The floor of the record: the floor, the part that attains it, and the class for part b.
#[unsafe(no_mangle)]
pub extern "C" fn rsk_floor(record: &[u8], answer: &mut [u32; 69]) -> u32
    ensures { FloorAnswered «record».now result answer.new }
{
    let attained = match floor::floor(record) {
        Ok(attained) => attained,
        Err(refused) => return answer::refuse(answer, refused.refusal, refused.cycle),
    };
    let number = floor_part::part_number(attained.part);
    let class = floor_part::part_class(attained.part);
    let numbers = numbers_of(attained.floor, number, class);
    answer::tell(answer, numbers, floor_part::part_cycle(attained.part))
}

// The record's listing as text; its size.
#[unsafe(no_mangle)]
#[tactic(auto, unfolding(crate::specs::List::listed_answer))]
pub extern "C" fn rsk_list(record: &[u8], out: &mut [u8], answer: &mut [u32; 69]) -> u32
    ensures value { result ≡ number_of (listed «record».now (length out.old)).refusal }
    ensures out_after { out.new ≡ listed_buffer «record».now out.old }
    ensures answer_after { answer.new ≡ listed_answer «record».now (length out.old) }
{
    let listed = listing::list(record, out).map_err(Refused::from);
    told(answer, listed.map(|size| numbers_of(size, 0, 0)))
}

// The record stepped on the machine for k iterations; its run steps.
#[unsafe(no_mangle)]
pub extern "C" fn rsk_run<'a>(
    record: &'a [u8],
    k: u16,
    starts: &'a [u32],
    values: &mut [u32],
    finish: &mut [u32],
    answer: &mut [u32; 69],
) -> u32
    ensures { RunAnswered k «record».now starts.now values.old finish.old values.new finish.new result answer.new }
{
    let ran = run::run(record, k, starts, values, finish).map_err(Refused::from);
    told(answer, ran.map(|steps| numbers_of(steps, 0, 0)))
}

// The plain loop of the record for k iterations; no numbers.
#[unsafe(no_mangle)]
pub extern "C" fn rsk_plain(
    record: &[u8],
    k: u16,
    starts: &[u32],
    values: &mut [u32],
    answer: &mut [u32; 69],
) -> u32
    ensures { PlainAnswered k «record».now starts.now values.old values.new result answer.new }
{
    let looped = plain::plain(record, k, starts, values);
    told(answer, looped.map(|_| numbers_of(0, 0, 0)))
}
