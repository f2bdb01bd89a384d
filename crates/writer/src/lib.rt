// The writer of instance files.
#![tactic(auto)]

ghost use Rattle.std.specs.Prelude.{◌≡◌, ◌+◌, ◌≤◌, ◌<◌, length};
ghost use Rattle.fields.specs.Writing.{Wrote};
ghost use Rattle.schema.specs.Schema.{schema_of, node_at};
ghost use Rattle.instances.specs.File.{value_width, values_width, value_of, encode_value, encode_values, encode_entry, encode};
ghost use Rattle.instances.specs.Plan.{planned, nodes_of, values_from, plan_of, SlotsRoom};

use instances::{ENTRY_WIDTH, HEAD_WIDTH, LISTED_WIDTH, NUMBER_WIDTH, Slot};
use nodes::Schema;
use schema::{MOST_VARIABLES, Variable};

fn put_value(v: Variable, u: u32, out: &mut [u8], at: usize) -> usize
    requires { at + value_width v ≤ length out.old }
    ensures { Wrote out.old at (encode_value v (value_of v u)) out.new result }
{
    match v {
        Variable::Number { .. } => {
            writing::put(out, at, u);
            at + NUMBER_WIDTH
        }
        Variable::Listed { .. } => {
            writing::put(out, at, (u % 256) as u8);
            at + LISTED_WIDTH
        }
    }
}

// Node n's values, which have these bits.
#[tactic(auto, using(instances::proofs::Slots::place_inside, crate::proofs::Writer::values_init, crate::proofs::Writer::values_room, crate::proofs::Writer::values_exit))]
fn put_values(
    schema: &Schema,
    n: usize,
    bits: &[u32; MOST_VARIABLES],
    out: &mut [u8],
    from: usize,
) -> usize
    requires node_in { n < length (schema_of schema.now.bytes.now) }
    requires n_in_bounds { from + values_width (node_at (schema_of schema.now.bytes.now) n).variables ≤ length out.old }
    ensures { Wrote out.old from (encode_values (node_at (schema_of schema.now.bytes.now) n).variables (values_from (node_at (schema_of schema.now.bytes.now) n).variables bits.now 0)) out.new result }
{
    let mut at = from;
    for k in 0..schema.variable_count(n) {
        let v = schema.variable(n, k);
        at = put_value(v, bits[k], out, at);
    }
    at
}

// Node n's entry, as the slots hold it.
#[tactic(auto, using(instances::proofs::Slots::slot_inside))]
fn put_entry(schema: &Schema, n: usize, slots: &[Slot], out: &mut [u8], from: usize) -> usize
    requires node_in { n < length (schema_of schema.now.bytes.now) }
    requires slots_room { SlotsRoom schema.now.bytes.now slots.now }
    requires n_in_bounds { from + 4 + values_width (node_at (schema_of schema.now.bytes.now) n).variables ≤ length out.old }
    ensures { Wrote out.old from (encode_entry (schema_of schema.now.bytes.now) (plan_of (schema_of schema.now.bytes.now) slots.now n)) out.new result }
{
    let slot = &slots[n];
    writing::put_mark(out, from, b"IN");
    writing::put(out, from + 2, n as u8);
    writing::put(out, from + 3, slot.choice);
    put_values(schema, n, &slot.bits, out, from + ENTRY_WIDTH)
}

// The file of the plan that the slots hold, whose nodes are these, at the start of a buffer that has room for it: the
// entries from byte 3 on, the lowest node's first, then the head before them.
pub fn write_planned(schema: &Schema, nodes: u64, slots: &[Slot], out: &mut [u8]) -> usize
    requires slots_room { SlotsRoom schema.now.bytes.now slots.now }
    requires nodes_value { nodes ≡ nodes_of (planned (schema_of schema.now.bytes.now) (plan_of (schema_of schema.now.bytes.now) slots.now)) }
    requires file_in_bounds { length (encode (schema_of schema.now.bytes.now) (planned (schema_of schema.now.bytes.now) (plan_of (schema_of schema.now.bytes.now) slots.now))) ≤ length out.old }
    ensures { Wrote out.old 0 (encode (schema_of schema.now.bytes.now) (planned (schema_of schema.now.bytes.now) (plan_of (schema_of schema.now.bytes.now) slots.now))) out.new result }
{
    let mut at = HEAD_WIDTH;
    let mut count: u8 = 0;
    for n in numbers::members(nodes) {
        at = put_entry(schema, n, slots, out, at);
        count += 1;
    }
    writing::put_mark(out, 0, b"IH");
    writing::put(out, 2, count);
    at
}
