// The reader of instance files: what it accepts it decodes, into the slots of a plan.
#![tactic(auto)]

ghost use Rattle.std.specs.Prelude.{◌≡◌, ◌<◌, [], length};
ghost use Rattle.fields.specs.Answers.{as_got};
ghost use Rattle.fields.specs.Runs.{outcome, run_of};
ghost use Rattle.numbers.specs.Bits.{bit};
ghost use Rattle.schema.specs.Schema.{schema_of, node_at};
ghost use Rattle.instances.specs.Instance.{right_choice};
ghost use Rattle.instances.specs.File.{value, values, entry_of, entries};
ghost use Rattle.instances.specs.Plan.{SlotsRoom};
ghost use Rattle.instance_reader.specs.Decoded.{fill_values, YieldsInstance};
ghost use Rattle.instance_reader.specs.Reader.{in_bits, entry_where, entry_outcome, entry_run, Within, fill_entries, entries_outcome, emptied};

use fields::{Breach, Fault};
use instances::Slot;
use nodes::Schema;
use reading::{read, read_mark};
use schema::{MOST_VARIABLES, Variable};

// An entry's node, and the nodes that are due after it, as bits.
#[derive(Clone, Copy)]
struct Visit {
    node: usize,
    due: u64,
}

#[tactic(auto, using(crate::proofs::Reader::right_one))]
fn right_choice(schema: &Schema, n: usize, c: u8) -> bool
    requires { n < length (schema_of schema.now.bytes.now) }
    ensures { result ≡ right_choice (node_at (schema_of schema.now.bytes.now) n) c }
{
    if instances::chooses(schema, n) {
        return schema.successors(n).contains(&c);
    }
    c == 255
}

#[tactic(auto, unfolding(fields::specs::Reading::part, fields::specs::Reading::field, instances::specs::File::value, instances::specs::File::value_width, instances::specs::File::value_of, instances::specs::Instance::in_domain, crate::specs::Decoded::bits_of))]
fn read_number(lo: i32, hi: i32, s: &[u8], at: usize) -> Result<(u32, usize), Breach>
    ensures { as_got result ≡ in_bits (Variable.Number lo hi) (value s.now (Variable.Number lo hi) at) }
{
    let (value, next) = read::<i32>(s, at)?;
    if (lo..=hi).contains(&value) {
        return Ok((value.cast_unsigned(), next));
    }
    Err(Breach::new(Fault::Value, at))
}

#[tactic(auto, unfolding(fields::specs::Reading::part, fields::specs::Reading::field, instances::specs::File::value, instances::specs::File::value_width, instances::specs::File::value_of, instances::specs::Instance::in_domain, crate::specs::Decoded::bits_of))]
fn read_listed(size: u8, s: &[u8], at: usize) -> Result<(u32, usize), Breach>
    ensures { as_got result ≡ in_bits (Variable.Listed size) (value s.now (Variable.Listed size) at) }
{
    let (value, next) = read::<u8>(s, at)?;
    if value < size {
        return Ok((u32::from(value), next));
    }
    Err(Breach::new(Fault::Value, at))
}

// The bits of a variable's value, and the position after it.
fn read_value(v: Variable, s: &[u8], at: usize) -> Result<(u32, usize), Breach>
    ensures { as_got result ≡ in_bits v (value s.now v at) }
{
    match v {
        Variable::Number { lo, hi } => read_number(lo, hi, s, at),
        Variable::Listed { size } => read_listed(size, s, at),
    }
}

// Node n's values, their bits into those of its slot.
#[tactic(auto, using(crate::proofs::Reader::values_init, instances::proofs::Slots::place_inside, crate::proofs::Reader::values_bad, crate::proofs::Reader::values_step, crate::proofs::Reader::values_exit))]
fn read_values(
    schema: &Schema,
    n: usize,
    s: &[u8],
    from: usize,
    bits: &mut [u32; MOST_VARIABLES],
) -> Result<usize, Breach>
    requires { n < length (schema_of schema.now.bytes.now) }
    ensures { outcome result bits.new ≡ run_of (fill_values (node_at (schema_of schema.now.bytes.now) n).variables 0) (values s.now (node_at (schema_of schema.now.bytes.now) n).variables from) bits.old }
{
    let mut at = from;
    for k in 0..schema.variable_count(n) {
        let v = schema.variable(n, k);
        let (u, next) = read_value(v, s, at)?;
        bits[k] = u;
        at = next;
    }
    Ok(at)
}

// Node n's choice and values.
#[tactic(auto, using(instances::proofs::Slots::slot_inside, crate::proofs::Reader::rest_cut, crate::proofs::Reader::rest_value))]
fn read_entry_of(
    schema: &Schema,
    n: usize,
    due: u64,
    s: &[u8],
    from: usize,
    slots: &mut [Slot],
) -> Result<(Visit, usize), Breach>
    requires node_in { n < length (schema_of schema.now.bytes.now) }
    requires slots_room { SlotsRoom schema.now.bytes.now slots.old }
    ensures { entry_outcome result slots.new ≡ entry_run (schema_of schema.now.bytes.now) due (entry_of s.now (schema_of schema.now.bytes.now) n from) slots.old }
{
    let (choice, at) = read::<u8>(s, from)?;
    if !right_choice(schema, n, choice) {
        return Err(Breach::new(Fault::Choice, from));
    }
    let mut bits = [0; MOST_VARIABLES];
    let next = read_values(schema, n, s, at, &mut bits)?;
    slots[n] = Slot { choice, bits };
    let due = instances::reach(schema, n, usize::from(choice), numbers::turned_bit(due, n));
    Ok((Visit { node: n, due }, next))
}

// An entry, of the lowest of the nodes that are due.
#[tactic(auto, using(crate::proofs::Reader::entry_mark, crate::proofs::Reader::entry_cut, crate::proofs::Reader::entry_none, crate::proofs::Reader::entry_other, crate::proofs::Reader::entry_this, crate::proofs::Reader::lowest_node))]
fn read_entry(
    schema: &Schema,
    due: u64,
    s: &[u8],
    from: usize,
    slots: &mut [Slot],
) -> Result<(Visit, usize), Breach>
    requires within { Within due (length (schema_of schema.now.bytes.now)) }
    requires slots_room { SlotsRoom schema.now.bytes.now slots.old }
    ensures { entry_outcome result slots.new ≡ entry_run (schema_of schema.now.bytes.now) due (entry_where s.now (schema_of schema.now.bytes.now) (bit due) from) slots.old }
{
    let at = read_mark(s, from, b"IN")?;
    let (node, next) = read::<u8>(s, at)?;
    let n = usize::from(node);
    if due == 0 || n != numbers::lowest(due) {
        return Err(Breach::new(Fault::Entry, at));
    }
    read_entry_of(schema, n, due, s, next, slots)
}

// m entries, each node once: the nodes that are due are the bits of a number, and so are, in the answer, those that have an entry.
#[tactic(auto, using(crate::proofs::Reader::going_init, crate::proofs::Reader::going_within, crate::proofs::Reader::going_room, crate::proofs::Reader::going_same, crate::proofs::Reader::going_after, crate::proofs::Reader::going_exit, crate::proofs::Reader::going_due, crate::proofs::Reader::going_bad, crate::proofs::Reader::going_step))]
fn read_entries(
    schema: &Schema,
    s: &[u8],
    m: u8,
    from: usize,
    slots: &mut [Slot],
) -> Result<(u64, usize), Breach>
    requires { SlotsRoom schema.now.bytes.now slots.old }
    ensures { entries_outcome result slots.new ≡ run_of (fill_entries (schema_of schema.now.bytes.now)) (entries s.now (schema_of schema.now.bytes.now) m [] from) (emptied slots.old) }
{
    let mut due: u64 = 1;
    let mut nodes: u64 = 0;
    let mut at = from;
    for _turn in 0..m {
        let (visit, next) = read_entry(schema, due, s, at, slots)?;
        nodes = numbers::with(nodes, visit.node);
        due = visit.due;
        at = next;
    }
    if due == 0 {
        return Ok((nodes, at));
    }
    Err(Breach::new(Fault::Entry, 2))
}

// The whole file, against an accepted schema: the nodes that have an entry, as bits, with their choices and the bits of their
// values in the slots, which are lent, whatever stands there.
pub fn read_instance(schema: &Schema, s: &[u8], slots: &mut [Slot]) -> Result<u64, Breach>
    requires { SlotsRoom schema.now.bytes.now slots.old }
    ensures { YieldsInstance (schema_of schema.now.bytes.now) s.now slots.old slots.new result }
{
    let at = read_mark(s, 0, b"IH")?;
    let (m, next) = read::<u8>(s, at)?;
    let (nodes, end) = read_entries(schema, s, m, next, slots)?;
    if end < s.len() {
        return Err(Breach::new(Fault::Remainder, end));
    }
    Ok(nodes)
}
