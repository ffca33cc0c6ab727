// The archive that C and Rust link: each function of rsk_c under its own name, with its clauses again.
// C has no generic functions: each name stands for itself.
#![tactic(auto)]

ghost use Rattle.std.specs.Prelude.{◌≡◌, length};
ghost use Rattle.answer.specs.Refused.{number_of};
ghost use Rattle.rsk_c.specs.Rewrite.{rewritten, rewritten_out, rewritten_answer};
ghost use Rattle.rsk_c.specs.Answered.{JudgeAnswered, FitAnswered, FirstAnswered, RotateAnswered, SearchAnswered, FloorAnswered, RunAnswered, PlainAnswered};
ghost use Rattle.rsk_c.specs.List.{listed_answer};
ghost use Rattle.listing.specs.Lines.{listed, listed_buffer};

// The record read and written again; its size.
#[unsafe(no_mangle)]
pub extern "C" fn rsk_rewrite(record: &[u8], out: &mut [u8], answer: &mut [u32; 69]) -> u32
    ensures value { result ≡ number_of (rewritten «record».now (length out.old)).refusal }
    ensures out_after { out.new ≡ rewritten_out «record».now out.old }
    ensures answer_after { answer.new ≡ rewritten_answer «record».now (length out.old) }
{
    rsk_c::rsk_rewrite(record, out, answer)
}

// The record judged; no numbers.
#[unsafe(no_mangle)]
pub extern "C" fn rsk_judge(record: &[u8], answer: &mut [u32; 69]) -> u32
    ensures { JudgeAnswered «record».now result answer.new }
{
    rsk_c::rsk_judge(record, answer)
}

// The record with its retiming fitted afresh; its size.
#[unsafe(no_mangle)]
pub extern "C" fn rsk_fit(record: &[u8], out: &mut [u8], answer: &mut [u32; 69]) -> u32
    ensures { FitAnswered «record».now out.old out.new result answer.new }
{
    rsk_c::rsk_fit(record, out, answer)
}

// The record with its first schedule; its size.
#[unsafe(no_mangle)]
pub extern "C" fn rsk_first(record: &[u8], out: &mut [u8], answer: &mut [u32; 69]) -> u32
    ensures { FirstAnswered «record».now out.old out.new result answer.new }
{
    rsk_c::rsk_first(record, out, answer)
}

// The record rotated by z steps; its size.
#[unsafe(no_mangle)]
pub extern "C" fn rsk_rotate(record: &[u8], z: u16, out: &mut [u8], answer: &mut [u32; 69]) -> u32
    ensures { RotateAnswered z «record».now out.old out.new result answer.new }
{
    rsk_c::rsk_rotate(record, z, out, answer)
}

// The record with the shortest pair of a search; its size and the rotations completed.
#[unsafe(no_mangle)]
pub extern "C" fn rsk_search(
    record: &[u8],
    count: u16,
    size: u16,
    out: &mut [u8],
    answer: &mut [u32; 69],
) -> u32
    ensures { SearchAnswered count size «record».now out.old out.new result answer.new }
{
    rsk_c::rsk_search(record, count, size, out, answer)
}

// The floor of the record: the floor, the part that attains it, and the class for part b.
#[unsafe(no_mangle)]
pub extern "C" fn rsk_floor(record: &[u8], answer: &mut [u32; 69]) -> u32
    ensures { FloorAnswered «record».now result answer.new }
{
    rsk_c::rsk_floor(record, answer)
}

// The record's listing as text; its size.
#[unsafe(no_mangle)]
pub extern "C" fn rsk_list(record: &[u8], out: &mut [u8], answer: &mut [u32; 69]) -> u32
    ensures value { result ≡ number_of (listed «record».now (length out.old)).refusal }
    ensures out_after { out.new ≡ listed_buffer «record».now out.old }
    ensures answer_after { answer.new ≡ listed_answer «record».now (length out.old) }
{
    rsk_c::rsk_list(record, out, answer)
}

// The record stepped on the machine for k iterations; its run steps.
#[unsafe(no_mangle)]
pub extern "C" fn rsk_run<'a>(
    record: &'a [u8],
    k: u16,
    starts: &'a [u32],
    values: &mut [u32],
    finish: &mut [u32],
    answer: &mut [u32; 69],
) -> u32
    ensures { RunAnswered k «record».now starts.now values.old finish.old values.new finish.new result answer.new }
{
    rsk_c::rsk_run(record, k, starts, values, finish, answer)
}

// The plain loop of the record for k iterations; no numbers.
#[unsafe(no_mangle)]
pub extern "C" fn rsk_plain(
    record: &[u8],
    k: u16,
    starts: &[u32],
    values: &mut [u32],
    answer: &mut [u32; 69],
) -> u32
    ensures { PlainAnswered k «record».now starts.now values.old values.new result answer.new }
{
    rsk_c::rsk_plain(record, k, starts, values, answer)
}
