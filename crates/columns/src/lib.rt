// The console sheet of an instance, laid out: fixed columns, a line for each entry.
#![tactic(auto)]

ghost use Rattle.std.specs.Prelude.{◌≡◌, ◌∷◌, ◌++◌, ◌+◌, ◌*◌, ◌-◌, ◌≤◌, ◌<◌, length};
ghost use Rattle.fields.specs.Writing.{Wrote};
ghost use Rattle.decimals.specs.Decimal.{decimal};
ghost use Rattle.numbers.specs.Bits.{cardinality};
ghost use Rattle.schema.specs.Schema.{schema_of, node_at};
ghost use Rattle.instances.specs.File.{value_of};
ghost use Rattle.instances.specs.Plan.{nodes_of, values_from, plan_of, held, SlotsRoom};
ghost use Rattle.columns.specs.Sheet.{spaces, right_aligned, signed_decimal, choice_column, value_columns, sheet_line, sheet, line_bytes};

use instances::Slot;
use nodes::Schema;
use schema::{MOST_VARIABLES, Variable};

// The columns of a node, and of a choice and a value with the space before each.
const NODE_WIDTH: usize = 2;

const CHOICE_WIDTH: usize = 4;

const VALUE_WIDTH: usize = 12;

const VALUES_WIDTH: usize = MOST_VARIABLES * VALUE_WIDTH;

// The bytes of a line: node, choice, values and the line feed.
pub const LINE_BYTES: usize = NODE_WIDTH + CHOICE_WIDTH + VALUES_WIDTH + 1;

// A number right-aligned in so many columns.
fn put_right(out: &mut [u8], at: usize, width: usize, x: u64)
    requires x_len_bound { length (decimal x) ≤ width }
    requires width_in_bounds { at + width ≤ length out.old }
    ensures { Wrote out.old at (right_aligned width (decimal x)) out.new (at + width) }
{
    out[at..at + width].fill(b' ');
    decimals::put_ending(out, at + width, x);
}

// The same of a number below zero, which is this far below it.
fn put_negative(out: &mut [u8], at: usize, width: usize, x: u64)
    requires x_len_bound { length (decimal x) < width }
    requires width_in_bounds { at + width ≤ length out.old }
    ensures { Wrote out.old at (right_aligned width (45 ∷ decimal x)) out.new (at + width) }
{
    out[at..at + width].fill(b' ');
    let first = decimals::put_ending(out, at + width, x);
    out[first - 1] = b'-';
}

// A choice, a space before it: --- where there is none.
fn put_choice(out: &mut [u8], at: usize, c: u8)
    requires { at + 4 ≤ length out.old }
    ensures { Wrote out.old at (spaces 1 ++ choice_column c) out.new (at + 4) }
{
    if c == 255 {
        out[at..at + CHOICE_WIDTH].copy_from_slice(b" ---");
    } else {
        put_right(out, at, CHOICE_WIDTH, c as u64);
    }
}

// A value, whose bits these are, a space before it.
fn put_value(v: Variable, u: u32, out: &mut [u8], at: usize)
    requires { at + 12 ≤ length out.old }
    ensures { Wrote out.old at (spaces 1 ++ right_aligned 11 (signed_decimal (value_of v u))) out.new (at + 12) }
{
    match v {
        Variable::Number { .. } => {
            if u < 0x8000_0000 {
                put_right(out, at, VALUE_WIDTH, u as u64);
            } else {
                put_negative(out, at, VALUE_WIDTH, 0x1_0000_0000 - u as u64);
            }
        }
        Variable::Listed { .. } => put_right(out, at, VALUE_WIDTH, u as u64),
    }
}

// Node n's values, which have these bits, a space before each, and spaces for those that it does not have.
#[tactic(auto, using(instances::proofs::Slots::place_inside))]
fn put_values(schema: &Schema, n: usize, bits: &[u32; MOST_VARIABLES], out: &mut [u8], from: usize)
    requires node_in { n < length (schema_of schema.now.bytes.now) }
    requires from_in_bounds { from + 48 ≤ length out.old }
    ensures { Wrote out.old from (value_columns 4 (values_from (node_at (schema_of schema.now.bytes.now) n).variables bits.now 0)) out.new (from + 48) }
{
    let mut at = from;
    for k in 0..schema.variable_count(n) {
        let v = schema.variable(n, k);
        put_value(v, bits[k], out, at);
        at += VALUE_WIDTH;
    }
    out[at..from + VALUES_WIDTH].fill(b' ');
}

// The line of node n's entry, as the slots hold it.
#[tactic(auto, using(instances::proofs::Slots::slot_inside))]
fn put_line(schema: &Schema, n: usize, slots: &[Slot], out: &mut [u8], at: usize)
    requires node_in { n < length (schema_of schema.now.bytes.now) }
    requires slots_room { SlotsRoom schema.now.bytes.now slots.now }
    requires line_bytes_in_bounds { at + line_bytes ≤ length out.old }
    ensures { Wrote out.old at (sheet_line (plan_of (schema_of schema.now.bytes.now) slots.now n)) out.new (at + line_bytes) }
{
    let slot = &slots[n];
    put_right(out, at, NODE_WIDTH, n as u64);
    put_choice(out, at + NODE_WIDTH, slot.choice);
    put_values(schema, n, &slot.bits, out, at + NODE_WIDTH + CHOICE_WIDTH);
    out[at + NODE_WIDTH + CHOICE_WIDTH + VALUES_WIDTH] = b'\n';
}

// The sheet of the instance that the slots hold, whose nodes are these, at the start of a buffer that has room for it: the
// lowest node's line first.
pub fn put_sheet(schema: &Schema, nodes: u64, slots: &[Slot], out: &mut [u8]) -> usize
    requires slots_room { SlotsRoom schema.now.bytes.now slots.now }
    requires nodes_value { nodes ≡ nodes_of (held schema.now.bytes.now slots.now) }
    requires nodes_in_bounds { line_bytes * cardinality nodes ≤ length out.old }
    ensures { Wrote out.old 0 (sheet (held schema.now.bytes.now slots.now)) out.new result }
{
    let mut at: usize = 0;
    for n in numbers::members(nodes) {
        put_line(schema, n, slots, out, at);
        at += LINE_BYTES;
    }
    at
}
