// The exports for C, in a static library: each calls the function of its name in `hornbeamlet`, which stays a library for other crates, under the same
// clauses.
// kept: twins of that crate's functions: the C interface, and a crate is a library or a static library.
#![tactic(auto)]

ghost use Rattle.std.specs.Prelude.{◌≡◌};
ghost use Rattle.rules.specs.Entered.{settings};
ghost use Rattle.rules.specs.Answers.{compared, stopped as stopped_by, replied};
ghost use Rattle.requests.specs.Index.{built_index, compared_over, stopped_over};
ghost use Rattle.answers.specs.Numbers.{answer_numbers};
ghost use Rattle.frames.specs.Frames.{frame_reply, frame_left, read_frame};

// How many records of work room are needed: W, the larger of both strands, or 4,294,967,296 plus the refusal number 1 to 6, 9 or 10.
#[unsafe(no_mangle)]
pub extern "C" fn hornbeamlet_need(
    k: u32,
    b: u32,
    a: u32,
    m: u32,
    strand: u32,
    mask: u32,
    first: &[u8],
    second: &[u8],
) -> u64
    ensures { result ≡ replied (settings k b a m strand mask) first.now second.now }
{
    hornbeamlet::hornbeamlet_need(k, b, a, m, strand, mask, first, second)
}

// The compare job.
#[unsafe(no_mangle)]
pub extern "C" fn hornbeamlet_compare(
    k: u32,
    b: u32,
    a: u32,
    m: u32,
    strand: u32,
    mask: u32,
    first: &[u8],
    second: &[u8],
    work: &mut [u32],
    list: &mut [u32],
    answer: &mut [u64; 7],
)
    ensures { let o = compared (settings k b a m strand mask) first.now second.now work.old list.old in (answer.new ≡ answer_numbers o.answer) × (work.new ≡ o.work) × (list.new ≡ o.list) }
{
    hornbeamlet::hornbeamlet_compare(k, b, a, m, strand, mask, first, second, work, list, answer);
}

// The stopped sweep.
#[unsafe(no_mangle)]
pub extern "C" fn hornbeamlet_stopped(
    k: u32,
    b: u32,
    a: u32,
    m: u32,
    strand: u32,
    mask: u32,
    first: &[u8],
    second: &[u8],
    work: &mut [u32],
    row: u32,
    answer: &mut [u64; 7],
)
    ensures { let o = stopped_by (settings k b a m strand mask) first.now second.now work.old row in (answer.new ≡ answer_numbers o.answer) × (work.new ≡ o.work) }
{
    hornbeamlet::hornbeamlet_stopped(k, b, a, m, strand, mask, first, second, work, row, answer);
}

// Builds the index of a second sequence. Done, the number of places in it stands where a job has its entries.
#[unsafe(no_mangle)]
pub extern "C" fn hornbeamlet_index(
    k: u32,
    mask: u32,
    second: &[u8],
    index: &mut [u32],
    answer: &mut [u64; 7],
)
    ensures { let o = built_index k mask second.now index.old in (answer.new ≡ answer_numbers o.answer) × (index.new ≡ o.index) }
{
    hornbeamlet::hornbeamlet_index(k, mask, second, index, answer);
}

// The compare job over an index, which is only read.
#[unsafe(no_mangle)]
pub extern "C" fn hornbeamlet_compare_indexed(
    k: u32,
    b: u32,
    a: u32,
    m: u32,
    strand: u32,
    mask: u32,
    first: &[u8],
    second: &[u8],
    index: &[u32],
    work: &mut [u32],
    list: &mut [u32],
    answer: &mut [u64; 7],
)
    ensures { let o = compared_over (settings k b a m strand mask) first.now second.now index.now work.old list.old in (answer.new ≡ answer_numbers o.answer) × (work.new ≡ o.work) × (list.new ≡ o.list) }
{
    hornbeamlet::hornbeamlet_compare_indexed(
        k, b, a, m, strand, mask, first, second, index, work, list, answer,
    );
}

// The stopped sweep over an index.
#[unsafe(no_mangle)]
pub extern "C" fn hornbeamlet_stopped_indexed(
    k: u32,
    b: u32,
    a: u32,
    m: u32,
    strand: u32,
    mask: u32,
    first: &[u8],
    second: &[u8],
    index: &[u32],
    work: &mut [u32],
    row: u32,
    answer: &mut [u64; 7],
)
    ensures { let o = stopped_over (settings k b a m strand mask) first.now second.now index.now work.old row in (answer.new ≡ answer_numbers o.answer) × (work.new ≡ o.work) }
{
    hornbeamlet::hornbeamlet_stopped_indexed(
        k, b, a, m, strand, mask, first, second, index, work, row, answer,
    );
}

// Writes a frame: the length of its line, or 4,294,967,296 plus 27.
#[unsafe(no_mangle)]
pub extern "C" fn hornbeamlet_write_frame(kind: u32, values: &[u64], line: &mut [u8]) -> u64
    ensures { (result ≡ frame_reply kind values.now line.old) × (line.new ≡ frame_left kind values.now line.old) }
{
    hornbeamlet::hornbeamlet_write_frame(kind, values, line)
}

// Reads a line that is to be a frame of this kind: 0 and its values, or what is wrong with it.
#[unsafe(no_mangle)]
pub extern "C" fn hornbeamlet_read_frame(kind: u32, line: &[u8], values: &mut [u64; 5]) -> u64
    ensures { let o = read_frame kind line.now in (result ≡ o.number) × (values.new ≡ o.values) }
{
    hornbeamlet::hornbeamlet_read_frame(kind, line, values)
}
