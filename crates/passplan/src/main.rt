// Reads schema.bin, policies.bin and records PS of standard input, and prints a line for each.
#![tactic(auto)]

ghost use Rattle.std.specs.Prelude.{◌≡◌, ◌+◌, ◌*◌, ◌<◌, ◌≤◌, length, MatchResult, IfOk};
ghost use Rattle.lines.specs.Line.{Laid};
ghost use Rattle.instances.specs.File.{most_bytes};
ghost use Rattle.calls.specs.Calls.{reconciling};
ghost use Rattle.calls.specs.Program.{line_in};
ghost use Rattle.passplan.specs.Program.{most_line, most_records, Answered, Printed, IsPrefixLen};

use instances::MOST_BYTES;
use lines::Days;
use std::fs;
use std::io::{ErrorKind, Read, Write};
use std::ops::ControlFlow;
use std::process::ExitCode;

// The line of a pass, its instance by way of a buffer of 1,283 bytes.
#[tactic(auto, using(crate::proofs::Printing::value_taken, crate::proofs::Printing::ok_fits))]
fn put_pass(
    schema: &[u8],
    policies: &[u8],
    days: Days,
    instance: &mut [u8],
    out: &mut [u8],
    to: usize,
) -> usize
    requires instance_len { length instance.old ≡ most_bytes }
    requires most_line_in_bounds { to + most_line ≤ length out.old }
    ensures { Laid most_line out.old to (line_in days.a days.b (reconciling schema.now policies.now days.a days.b instance.old)) out.new result }
{
    match reconciler::reconcile(schema, policies, days.a, days.b, instance) {
        Ok(n) => lines::put_answer_line(out, to, days, Ok(&instance[..n])),
        Err(refusal) => lines::put_answer_line(out, to, days, Err(refusal)),
    }
}

// The line of the record at a place of s, which stands in the input from a place on: where it ends, a Break if the run ends
// with it.
fn put_answer(
    schema: &[u8],
    policies: &[u8],
    s: &[u8],
    at: usize,
    from: u64,
    out: &mut [u8],
    to: usize,
) -> ControlFlow<usize, usize>
    requires at_bound { from + at + 4 < 18446744073709551616 }
    requires most_line_in_bounds { to + most_line ≤ length out.old }
    ensures { Answered schema.now policies.now from s.now at out.old to out.new result }
{
    match lines::read_pass(s, at) {
        Err(breach) => {
            let offset = from + breach.offset as u64;
            ControlFlow::Break(lines::put_bad_line(out, to, breach.fault as u8, offset))
        }
        Ok((days, _)) => {
            let mut instance = [0u8; MOST_BYTES];
            let end = put_pass(schema, policies, days, &mut instance, out, to);
            ControlFlow::Continue(end)
        }
    }
}

// The bytes of a record, and how many records are read at once.
const RECORD: usize = 6;

const RECORDS: usize = 24;

// The lines of the records of s, up to a bad one: where they end, a Break if the run ends with them.
#[tactic(auto, using(crate::proofs::Printing::printing_init, crate::proofs::Printing::printing_room, crate::proofs::Printing::printing_exit))]
fn put_lines(
    schema: &[u8],
    policies: &[u8],
    s: &[u8],
    from: u64,
    out: &mut [u8],
) -> ControlFlow<usize, usize>
    requires s_bound { from + length s.now + 4 < 18446744073709551616 }
    requires s_len { length s.now ≤ 6 * most_records }
    requires most_in_bounds { most_line * most_records ≤ length out.old }
    ensures { Printed schema.now policies.now from s.now out.old out.new result }
{
    let mut to: usize = 0;
    for at in (0..s.len()).step_by(RECORD) {
        to = put_answer(schema, policies, s, at, from, out, to)?;
    }
    ControlFlow::Continue(to)
}

// The bytes of each of the files, and of the lines, that there is room for.
const ROOM: usize = 65536;

// Reads until b is full or the input ends, or a read fails: how many bytes there are.
fn fill<R: Read>(input: &mut R, b: &mut [u8]) -> Result<usize, usize>
    ensures { MatchResult result (λ n. IsPrefixLen n b.new) (λ n. IsPrefixLen n b.new) }
{
    let mut n: usize = 0;
    while n < b.len() {
        let more = input.read(&mut b[n..]).map_err(|_| n)?;
        if more == 0 {
            break;
        }
        n += more;
    }
    Ok(n)
}

// The first bytes of a file, as many as b has room for, and how many there are: 0 where it is missing or a read fails.
fn load(rt: &HostRuntime, path: &str, b: &mut [u8]) -> usize
    ensures { IsPrefixLen result b.new }
{
    match fs::open(rt, path) {
        Err(_) => 0,
        Ok(mut file) => fill(&mut file, b).unwrap_or(0),
    }
}

// What is read until b is full, the input ends or a read fails.
fn read_full<R: Read>(input: &mut R, b: &mut [u8]) -> usize
    ensures { IsPrefixLen result b.new }
{
    match fill(input, b) {
        Ok(n) | Err(n) => n,
    }
}

// What input is there, up to 24 records, the last one waited for; 0 at its end, or where a read fails.
fn read_records<R: Read>(input: &mut R, b: &mut [u8]) -> usize
    requires { length b.old ≡ 144 }
    ensures { IsPrefixLen result b.new }
{
    let n = input.read(b).unwrap_or(0);
    let over = n % RECORD;
    if over == 0 {
        return n;
    }
    let end = n + (RECORD - over);
    let more = read_full(input, &mut b[n..end]);
    n + more
}

// Writes all of b, or up to the first write that fails, an interrupted one too, or that takes nothing.
fn write_out<W: Write>(output: &mut W, b: &[u8]) -> Result<(), ErrorKind> {
    let mut n: usize = 0;
    while n < b.len() {
        let more = output.write(&b[n..]).map_err(|e| e.kind())?;
        if more == 0 {
            return Err(ErrorKind::WriteZero);
        }
        n += more;
    }
    Ok(())
}

// Answers what input is there, and how many bytes it had: 0 where the run ends.
fn turn(
    rt: &HostRuntime,
    schema: &[u8],
    policies: &[u8],
    from: u64,
    out: &mut [u8],
) -> Result<usize, ErrorKind>
    requires from_bound { from < 9223372036854775808 }
    requires out_len { length out.old ≡ 65536 }
    ensures { IfOk result (λ n. n ≤ 144) }
{
    let mut input = [0u8; RECORD * RECORDS];
    let n = read_records(&mut rt.stdin(), &mut input);
    let (end, read) = match put_lines(schema, policies, &input[..n], from, out) {
        ControlFlow::Continue(end) => (end, n),
        ControlFlow::Break(end) => (end, 0),
    };
    write_out(&mut rt.stdout(), &out[..end])?;
    Ok(read)
}

// Offsets stay within 64 bits: no run gets as far as 2^63 bytes.
fn run(rt: &HostRuntime, schema: &[u8], policies: &[u8], out: &mut [u8]) -> Result<(), ErrorKind>
    requires { length out.old ≡ 65536 }
{
    let mut from: u64 = 0;
    while from < 9223372036854775808 {
        let n = turn(rt, schema, policies, from, out)?;
        if n == 0 {
            break;
        }
        from += n as u64;
    }
    Ok(())
}

// The status of a run that ends since nobody reads the lines any more: what a shell tells of the signal for that.
const UNREAD: u8 = 128 + 13;

// The files are read once, before the first record: they do not change during a run.
fn main(rt: HostRuntime) -> ExitCode {
    let mut s = [0u8; ROOM];
    let n = load(&rt, "schema.bin", &mut s);
    let mut p = [0u8; ROOM];
    let m = load(&rt, "policies.bin", &mut p);
    let mut out = [0u8; ROOM];
    match run(&rt, &s[..n], &p[..m], &mut out) {
        Err(ErrorKind::BrokenPipe) => ExitCode::from(UNREAD),
        _ => ExitCode::SUCCESS,
    }
}
