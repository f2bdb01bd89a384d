// The checker: the first choice or value field of an instance that a policy in force forbids.
#![tactic(auto)]

ghost use Rattle.std.specs.Prelude.{◌≡◌, ◌+◌, ◌<◌, ◌≤◌, length};
ghost use Rattle.fields.specs.Answers.{answer_of};
ghost use Rattle.schema.specs.Schema.{schema_of, node_at};
ghost use Rattle.schema.specs.Table.{RoomIn};
ghost use Rattle.policies.specs.Rows.{noted};
ghost use Rattle.instances.specs.File.{values_width, most_bytes};
ghost use Rattle.instances.specs.Plan.{planned, nodes_of, values_from, plan_of, SlotsRoom};
ghost use Rattle.model.specs.Satisfaction.{choice_meets};
ghost use Rattle.model.specs.Comparing.{forbidden_value, forbidden_entry, forbidden};
ghost use Rattle.calls.specs.Calls.{checking_in_force, checking};
ghost use Rattle.checker.specs.Checks.{forbidden_in, choosing};

use fields::{Breach, Fault, File, Refusal};
use instances::{EMPTY, ENTRY_WIDTH, HEAD_WIDTH, Slot};
use nodes::{FEW_NODES, Schema};
use policies::{NO_POLICIES, Policies};
use schema::{MOST_NODES, MOST_VARIABLES, NO_LAYOUT};

// Whether every policy that the rows note allows choice x of node n.
fn choice_allowed(policies: &Policies, n: usize, x: u8) -> bool
    requires node_in { n < length (schema_of policies.now.schema.bytes.now) }
    ensures { result ≡ choice_meets (schema_of policies.now.schema.bytes.now) (noted (schema_of policies.now.schema.bytes.now) policies.now.bytes.now policies.now.rows.now) (choosing n x) }
{
    if instances::chooses(&policies.schema, n) {
        let k = order::column_of(&policies.schema, n, usize::from(x));
        return ranks::is_allowed(policies, n, k);
    }
    true
}

// The first of node n's values, which have these bits and stand from an offset of the file on, that a noted policy does not
// admit.
#[tactic(auto, using(instances::proofs::Slots::place_inside, crate::proofs::Values::judging_init, crate::proofs::Values::judging_below, crate::proofs::Values::judging_place, crate::proofs::Values::judging_no, crate::proofs::Values::judging_exit))]
fn first_value(
    policies: &Policies,
    n: usize,
    bits: &[u32; MOST_VARIABLES],
    from: usize,
) -> Option<usize>
    requires node_in { n < length (schema_of policies.now.schema.bytes.now) }
    requires n_bound { from + values_width (node_at (schema_of policies.now.schema.bytes.now) n).variables ≤ most_bytes }
    ensures { result ≡ forbidden_in (forbidden_value (noted (schema_of policies.now.schema.bytes.now) policies.now.bytes.now policies.now.rows.now) n 0 (node_at (schema_of policies.now.schema.bytes.now) n).variables (values_from (node_at (schema_of policies.now.schema.bytes.now) n).variables bits.now 0) from) }
{
    let schema = &policies.schema;
    let mut skip = schema.rank_count(n);
    let mut at = from;
    for k in 0..schema.variable_count(n) {
        if !conditions::is_admitted(policies, n, k, skip, bits[k]) {
            return Some(at);
        }
        let v = schema.variable(n, k);
        at += lookup::value_width(v);
        skip += policies::span(v);
    }
    None
}

// The first forbidden field of node n's entry, which stands at an offset of the file.
#[tactic(auto, using(instances::proofs::Slots::slot_inside, crate::proofs::Entries::entry_on))]
fn first_in_entry(policies: &Policies, n: usize, slots: &[Slot], at: usize) -> Option<usize>
    requires node_in { n < length (schema_of policies.now.schema.bytes.now) }
    requires slots_room { SlotsRoom policies.now.schema.bytes.now slots.now }
    requires n_bound { at + 4 + values_width (node_at (schema_of policies.now.schema.bytes.now) n).variables ≤ most_bytes }
    ensures { result ≡ forbidden_in (forbidden_entry (schema_of policies.now.schema.bytes.now) (noted (schema_of policies.now.schema.bytes.now) policies.now.bytes.now policies.now.rows.now) (plan_of (schema_of policies.now.schema.bytes.now) slots.now n) at) }
{
    let slot = &slots[n];
    if choice_allowed(policies, n, slot.choice) {
        return first_value(policies, n, &slot.bits, at + ENTRY_WIDTH);
    }
    Some(at + 3)
}

// The first forbidden field of the instance that the slots hold, whose nodes are these: the lowest node's entry stands
// first.
#[tactic(auto, using(crate::proofs::Entries::entries_head_fits, crate::proofs::Entries::entries_fits))]
fn first_forbidden(policies: &Policies, nodes: u64, slots: &[Slot]) -> Option<usize>
    requires slots_room { SlotsRoom policies.now.schema.bytes.now slots.now }
    requires nodes_value { nodes ≡ nodes_of (planned (schema_of policies.now.schema.bytes.now) (plan_of (schema_of policies.now.schema.bytes.now) slots.now)) }
    ensures { result ≡ forbidden_in (forbidden (schema_of policies.now.schema.bytes.now) (noted (schema_of policies.now.schema.bytes.now) policies.now.bytes.now policies.now.rows.now) (planned (schema_of policies.now.schema.bytes.now) (plan_of (schema_of policies.now.schema.bytes.now) slots.now))) }
{
    let mut at = HEAD_WIDTH;
    for n in numbers::members(nodes) {
        if let Some(offset) = first_in_entry(policies, n, slots, at) {
            return Some(offset);
        }
        at = at + ENTRY_WIDTH + lookup::values_width(&policies.schema, n);
    }
    None
}

// The instance, once schema, policies and pass are accepted, with slots lent for it.
fn in_force(policies: &Policies, s: &[u8], slots: &mut [Slot]) -> Result<(), Refusal>
    requires { SlotsRoom policies.now.schema.bytes.now slots.old }
    ensures { answer_of (λ _. 0) result ≡ checking_in_force (schema_of policies.now.schema.bytes.now) (noted (schema_of policies.now.schema.bytes.now) policies.now.bytes.now policies.now.rows.now) s.now }
{
    let read = instance_reader::read_instance(&policies.schema, s, slots);
    let nodes = read.map_err(|breach| breach.of(File::Instance))?;
    match first_forbidden(policies, nodes, slots) {
        None => Ok(()),
        Some(offset) => Err(Breach::new(Fault::Forbidden, offset).of(File::Instance)),
    }
}

// Schema, policies and pass, then the instance, with tables and slots for so many nodes.
#[tactic(auto, using(schema::proofs::Fill::room_in, inputs::proofs::Above::rows_in, instances::proofs::Slots::slots_in, calls::proofs::Inputs::schema_bad), unfolding(calls::specs::Calls::checking))]
fn with_room<const N: usize>(
    schema: &[u8],
    p: &[u8],
    a: u16,
    b: u16,
    s: &[u8],
) -> Result<(), Refusal>
    requires { RoomIn schema.now N }
    ensures { answer_of (λ _. 0) result ≡ checking schema.now p.now a b s.now }
{
    let mut layouts = [NO_LAYOUT; N];
    schema::read_schema(schema, &mut layouts).map_err(|breach| breach.of(File::Schema))?;
    let schema = Schema {
        bytes: schema,
        layouts: &layouts,
    };
    let mut rows = [NO_POLICIES; N];
    inputs::read_in_force(&schema, p, a, b, &mut rows)?;
    let policies = Policies {
        schema,
        bytes: p,
        rows: &rows,
    };
    let mut slots = [EMPTY; N];
    in_force(&policies, s, &mut slots)
}

// The answer for schema, policies, a pass from day a to day b and an instance; few nodes have short tables, which are sooner
// cleared.
#[tactic(auto, using(schema::proofs::Fill::room_few, schema::proofs::Fill::room_most))]
pub fn check(schema: &[u8], policies: &[u8], a: u16, b: u16, instance: &[u8]) -> Result<(), Refusal>
    ensures { answer_of (λ _. 0) result ≡ checking schema.now policies.now a b instance.now }
{
    if schema::count_in(schema) <= FEW_NODES {
        return with_room::<FEW_NODES>(schema, policies, a, b, instance);
    }
    with_room::<MOST_NODES>(schema, policies, a, b, instance)
}
