// A record of passplan's input read, and a line of its output laid out.
#![tactic(auto)]

ghost use Rattle.std.specs.Prelude.{◌≡◌, [], ◌∷◌, ◌+◌, ◌*◌, ◌<◌, ◌≤◌, length};
ghost use Rattle.fields.specs.Answers.{as_got};
ghost use Rattle.fields.specs.Writing.{Wrote};
ghost use Rattle.decimals.specs.Decimal.{decimal};
ghost use Rattle.lines.specs.Record.{pass_at};
ghost use Rattle.lines.specs.Line.{hex, hex_digit, words, line_of, bad_line_of, answer_text, instance_in, said, Laid};

use fields::{Breach, File, Refusal};
use reading::{read, read_mark};

// A pass's first and last day.
#[derive(Clone, Copy)]
pub struct Days {
    pub a: u16,
    pub b: u16,
}

// The record PS at a position; the rule on its days is the call's.
#[tactic(auto, unfolding(fields::specs::Reading::part, crate::specs::Record::pass_at))]
pub fn read_pass(s: &[u8], from: usize) -> Result<(Days, usize), Breach>
    ensures { as_got result ≡ pass_at s.now from }
{
    let at = read_mark(s, from, b"PS")?;
    let (a, at) = read::<u16>(s, at)?;
    let (b, next) = read::<u16>(s, at)?;
    Ok((Days { a, b }, next))
}

// A byte, and the place after it.
#[tactic(auto, using(fields::proofs::Bytes::put_one))]
fn put_byte(out: &mut [u8], at: usize, x: u8) -> usize
    requires { at < length out.old }
    ensures { Wrote out.old at (x ∷ []) out.new result }
{
    out[at] = x;
    at + 1
}

// A number in decimal.
#[tactic(auto, using(crate::proofs::Writing::decimal_short))]
fn put_decimal(out: &mut [u8], at: usize, x: u64) -> usize
    requires { at + 20 ≤ length out.old }
    ensures { Laid 20 out.old at (decimal x) out.new result }
{
    let end = at + decimals::digit_count(x);
    decimals::put_ending(out, end, x);
    end
}

// A number in decimal and the space after it.
fn put_number(out: &mut [u8], at: usize, x: u64) -> usize
    requires { at + 21 ≤ length out.old }
    ensures { Wrote out.old at (words (decimal x ∷ [])) out.new result }
{
    let end = put_decimal(out, at, x);
    put_byte(out, end, b' ')
}

impl Days {
    fn put(self, out: &mut [u8], at: usize) -> usize
        requires { at + 32 ≤ length out.old }
        ensures { Laid 12 out.old at (words (decimal self.a ∷ decimal self.b ∷ [])) out.new result }
    {
        let at = put_number(out, at, self.a as u64);
        put_number(out, at, self.b as u64)
    }
}

// What a line says of a pass before the instance: number, file and offset.
#[derive(Clone, Copy)]
struct Verdict {
    number: u8,
    file: u8,
    offset: u64,
}

impl Verdict {
    fn new(number: u8, file: u8, offset: u64) -> Verdict
        ensures { result ≡ record { number = number; file = file; offset = offset } }
    {
        Verdict {
            number,
            file,
            offset,
        }
    }

    fn put(self, out: &mut [u8], at: usize) -> usize
        requires { at + 32 ≤ length out.old }
        ensures { Laid 29 out.old at (words (decimal self.number ∷ decimal self.file ∷ decimal self.offset ∷ [])) out.new result }
    {
        let at = put_number(out, at, self.number as u64);
        let at = put_number(out, at, self.file as u64);
        put_number(out, at, self.offset)
    }
}

// The digit of half a byte.
#[tactic(auto, using(std::proofs::lemmas::Bool::cond_below, std::proofs::lemmas::Bool::cond_above), unfolding(crate::specs::Line::hex_digit))]
fn hex_digit(n: u8) -> u8
    requires { n < 16 }
    ensures { result ≡ hex_digit n }
{
    if n < 10 { b'0' + n } else { b'a' + (n - 10) }
}

// Bytes in lower-case hex.
#[tactic(auto, using(crate::proofs::Writing::hex_init, crate::proofs::Writing::hex_room, crate::proofs::Writing::hex_exit))]
fn put_hex(out: &mut [u8], from: usize, bytes: &[u8]) -> usize
    requires { from + 2 * length bytes.now ≤ length out.old }
    ensures { Wrote out.old from (hex bytes.now) out.new result }
{
    let mut at = from;
    for byte in bytes {
        at = put_byte(out, at, hex_digit(byte / 16));
        at = put_byte(out, at, hex_digit(byte % 16));
    }
    at
}

// Number, file and offset, and the instance, or - where the number says a refusal.
fn put_answer(out: &mut [u8], at: usize, verdict: Verdict, instance: &[u8]) -> usize
    requires { at + 32 + 2 * length instance.now ≤ length out.old }
    ensures { Laid (30 + 2 * length instance.now) out.old at (answer_text verdict.number verdict.file verdict.offset instance.now) out.new result }
{
    let at = verdict.put(out, at);
    if verdict.number == 0 {
        return put_hex(out, at, instance);
    }
    put_byte(out, at, b'-')
}

// The line of a pass that was read.
pub fn put_line(
    out: &mut [u8],
    at: usize,
    a: u16,
    b: u16,
    number: u8,
    file: u8,
    offset: usize,
    instance: &[u8],
) -> usize
    requires { at + 64 + 2 * length instance.now ≤ length out.old }
    ensures { Laid (64 + 2 * length instance.now) out.old at (line_of a b number file offset instance.now) out.new result }
{
    let days = Days { a, b };
    let at = days.put(out, at);
    let verdict = Verdict::new(number, file, offset as u64);
    let at = put_answer(out, at, verdict, instance);
    put_byte(out, at, b'\n')
}

// The same by what the call answered: number, file and offset are 0 on success, and a refusal has no instance.
pub fn put_answer_line(
    out: &mut [u8],
    at: usize,
    days: Days,
    answer: Result<&[u8], Refusal>,
) -> usize
    requires { at + 64 + 2 * length (instance_in answer) ≤ length out.old }
    ensures { Laid (64 + 2 * length (instance_in answer.entry)) out.old at (said (line_of days.a days.b) answer.entry) out.new result }
{
    match answer {
        Ok(instance) => put_line(out, at, days.a, days.b, 0, 0, 0, instance),
        Err(refusal) => {
            let number = refusal.fault as u8;
            let file = refusal.file as u8;
            put_line(out, at, days.a, days.b, number, file, refusal.offset, &[])
        }
    }
}

// The line of a bad PS: its number, and its offset from the start of the input.
pub fn put_bad_line(out: &mut [u8], at: usize, number: u8, offset: u64) -> usize
    requires { at + 64 ≤ length out.old }
    ensures { Laid 64 out.old at (bad_line_of number offset) out.new result }
{
    writing::put_mark(out, at, b"- ");
    writing::put_mark(out, at + 2, b"- ");
    let verdict = Verdict::new(number, File::Pass as u8, offset);
    let at = verdict.put(out, at + 4);
    writing::put_mark(out, at, b"-\n");
    at + 2
}
