// The reconciler: schema, policies and pass are read, an instance is planned for the policies in force, and its file written.
#![tactic(auto)]

ghost use Rattle.std.specs.Prelude.{◌≡◌, ◌≤◌, ltb};
ghost use Rattle.fields.specs.Answers.{answer_of};
ghost use Rattle.fields.specs.Outcomes.{Did};
ghost use Rattle.schema.specs.Schema.{schema_of};
ghost use Rattle.schema.specs.Table.{RoomIn};
ghost use Rattle.policies.specs.Rows.{noted};
ghost use Rattle.instances.specs.Plan.{SlotsRoom, Unchosen};
ghost use Rattle.model.specs.Reconciling.{reconciled};
ghost use Rattle.planning.specs.Plan.{Plans, file_length, EligibleRoom};
ghost use Rattle.calls.specs.Calls.{given, reconciling};
ghost use Rattle.reconciler.specs.Plan.{held_by};

use fields::{Fault, File, Refusal};
use instances::{EMPTY, MOST_BYTES, Slot};
use nodes::{FEW_NODES, FEWEST_NODES, Schema};
use policies::{NO_POLICIES, Policies};
use schema::{MOST_NODES, NO_LAYOUT};

// Whether so much room is less than the file of these nodes has bytes; room for the longest file is not.
fn is_short(schema: &Schema, nodes: u64, room: usize) -> bool
    ensures { result ≡ ltb room (file_length (schema_of schema.now.bytes.now) nodes) }
{
    if room < MOST_BYTES {
        return room < planning::file_length(schema, nodes);
    }
    false
}

// The last rows: 13 where there is no instance, 14 where the buffer is shorter than its file, else the file.
fn write_plan(
    schema: &Schema,
    plan: Option<u64>,
    slots: &[Slot],
    out: &mut [u8],
) -> Result<usize, Refusal>
    requires slots_room { SlotsRoom schema.now.bytes.now slots.now }
    requires plans { Plans (schema_of schema.now.bytes.now) (held_by (schema_of schema.now.bytes.now) plan slots.now) slots.now plan }
    ensures { Did (given (schema_of schema.now.bytes.now) out.old (held_by (schema_of schema.now.bytes.now) plan slots.now)) (answer_of (λ n. n) result) out.new }
{
    match plan {
        None => Err(Refusal::new(Fault::NoInstance)),
        Some(nodes) => {
            if is_short(schema, nodes, out.len()) {
                return Err(Refusal::new(Fault::Buffer));
            }
            Ok(writer::write_planned(schema, nodes, slots, out))
        }
    }
}

// The instance for the policies in force, which the rows note: planned, then written. They come by value, so that what they
// are of need not be read again after each write into the slots.
fn in_force(
    policies: Policies,
    eligible: &mut [u64],
    slots: &mut [Slot],
    out: &mut [u8],
) -> Result<usize, Refusal>
    requires eligible_room { EligibleRoom policies.schema.bytes.now eligible.old }
    requires unchosen { Unchosen policies.schema.bytes.now slots.old }
    ensures { Did (given (schema_of policies.entry.schema.bytes.now) out.old (reconciled (schema_of policies.entry.schema.bytes.now) (noted (schema_of policies.entry.schema.bytes.now) policies.entry.bytes.now policies.entry.rows.now))) (answer_of (λ n. n) result) out.new }
{
    let plan = planning::plan_for(&policies, eligible, slots);
    write_plan(&policies.schema, plan, slots, out)
}

// Schema, policies and pass, then the instance, with tables for so many nodes. Each size is called once, so that the compiler
// makes it part of its caller.
#[tactic(auto, using(schema::proofs::Fill::room_in, inputs::proofs::Above::rows_in, crate::proofs::Reading::eligible_in, instances::proofs::Slots::slots_in, instances::proofs::Clearing::cleared_unchosen, calls::proofs::Inputs::schema_bad_did), unfolding(calls::specs::Calls::reconciling))]
fn with_room<'a, const N: usize>(
    schema: &'a [u8],
    p: &'a [u8],
    a: u16,
    b: u16,
    out: &mut [u8],
) -> Result<usize, Refusal>
    requires { RoomIn schema.now N }
    ensures { Did (reconciling schema.now p.now a b out.old) (answer_of (λ n. n) result) out.new }
{
    let mut layouts = [NO_LAYOUT; N];
    schema::read_schema(schema, &mut layouts).map_err(|breach| breach.of(File::Schema))?;
    let schema = Schema {
        bytes: schema,
        layouts: &layouts,
    };
    let mut rows = [NO_POLICIES; N];
    inputs::read_in_force(&schema, p, a, b, &mut rows)?;
    let policies = Policies {
        schema,
        bytes: p,
        rows: &rows,
    };
    let mut eligible = [0u64; N];
    let mut slots = [EMPTY; N];
    instances::clear_choices(&schema, &mut slots);
    in_force(policies, &mut eligible, &mut slots, out)
}

// The instance for schema, policies and pass into the buffer, or a refusal; few nodes have short tables, which are sooner
// cleared.
#[tactic(auto, using(schema::proofs::Fill::room_few, schema::proofs::Fill::room_most))]
pub fn reconcile(
    schema: &[u8],
    policies: &[u8],
    a: u16,
    b: u16,
    out: &mut [u8],
) -> Result<usize, Refusal>
    ensures { Did (reconciling schema.now policies.now a b out.old) (answer_of (λ n. n) result) out.new }
{
    let count = schema::count_in(schema);
    if count <= FEWEST_NODES {
        return with_room::<FEWEST_NODES>(schema, policies, a, b, out);
    }
    if count <= FEW_NODES {
        return with_room::<FEW_NODES>(schema, policies, a, b, out);
    }
    with_room::<MOST_NODES>(schema, policies, a, b, out)
}
