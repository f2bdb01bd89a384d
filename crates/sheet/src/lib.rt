// The call that lays an instance out on the console sheet.
#![tactic(auto)]

ghost use Rattle.std.specs.Prelude.{◌≡◌};
ghost use Rattle.fields.specs.Answers.{answer_of, judged};
ghost use Rattle.fields.specs.Outcomes.{Did, leaving, placed};
ghost use Rattle.schema.specs.Schema.{schema_of};
ghost use Rattle.schema.specs.Table.{RoomIn};
ghost use Rattle.instances.specs.File.{instance, ReadsBack};
ghost use Rattle.instances.specs.Plan.{nodes_of, held, SlotsRoom};
ghost use Rattle.columns.specs.Sheet.{sheet};
ghost use Rattle.calls.specs.Calls.{sheeting};

use columns::LINE_BYTES;
use fields::{Fault, File, Refusal};
use instances::{EMPTY, Slot};
use nodes::{FEW_NODES, Schema};
use schema::{MOST_NODES, NO_LAYOUT};

// The sheet of the instance that the slots hold, whose nodes are these, or 14 where the buffer is shorter.
#[tactic(auto, using(crate::proofs::Delivery::lines_fit, crate::proofs::Delivery::sheet_room, crate::proofs::Delivery::sheet_short, crate::proofs::Delivery::sheet_wrote))]
fn deliver(schema: &Schema, nodes: u64, slots: &[Slot], out: &mut [u8]) -> Result<usize, Refusal>
    requires slots_room { SlotsRoom schema.now.bytes.now slots.now }
    requires nodes_value { nodes ≡ nodes_of (held schema.now.bytes.now slots.now) }
    requires reads_back { ReadsBack (schema_of schema.now.bytes.now) (held schema.now.bytes.now slots.now) }
    ensures { Did (placed (sheet (held schema.now.bytes.now slots.now)) out.old) (answer_of (λ n. n) result) out.new }
{
    if out.len() < LINE_BYTES * numbers::cardinality(nodes) {
        return Err(Refusal::new(Fault::Buffer));
    }
    Ok(columns::put_sheet(schema, nodes, slots, out))
}

// The instance, once the schema is accepted, with slots lent for it.
fn with_schema(
    schema: &Schema,
    file: &[u8],
    slots: &mut [Slot],
    out: &mut [u8],
) -> Result<usize, Refusal>
    requires { SlotsRoom schema.now.bytes.now slots.old }
    ensures { Did (judged (leaving out.old) 4 (instance (schema_of schema.now.bytes.now) file.now) (λ i. placed (sheet i) out.old)) (answer_of (λ n. n) result) out.new }
{
    let read = instance_reader::read_instance(schema, file, slots);
    let nodes = read.map_err(|breach| breach.of(File::Instance))?;
    deliver(schema, nodes, slots, out)
}

// Schema, then the instance, with a table and slots for so many nodes.
#[tactic(auto, using(schema::proofs::Fill::room_in, instances::proofs::Slots::slots_in, calls::proofs::Inputs::schema_bad_did), unfolding(calls::specs::Calls::sheeting, calls::specs::Calls::delivering))]
fn with_room<const N: usize>(schema: &[u8], file: &[u8], out: &mut [u8]) -> Result<usize, Refusal>
    requires { RoomIn schema.now N }
    ensures { Did (sheeting schema.now file.now out.old) (answer_of (λ n. n) result) out.new }
{
    let mut layouts = [NO_LAYOUT; N];
    schema::read_schema(schema, &mut layouts).map_err(|breach| breach.of(File::Schema))?;
    let schema = Schema {
        bytes: schema,
        layouts: &layouts,
    };
    let mut slots = [EMPTY; N];
    with_schema(&schema, file, &mut slots, out)
}

// The sheet of an instance, written into a buffer: schema, instance, then 14; few nodes have a short table, which is sooner
// cleared.
#[tactic(auto, using(schema::proofs::Fill::room_few, schema::proofs::Fill::room_most))]
pub fn sheet(schema: &[u8], instance: &[u8], out: &mut [u8]) -> Result<usize, Refusal>
    ensures { Did (sheeting schema.now instance.now out.old) (answer_of (λ n. n) result) out.new }
{
    if schema::count_in(schema) <= FEW_NODES {
        return with_room::<FEW_NODES>(schema, instance, out);
    }
    with_room::<MOST_NODES>(schema, instance, out)
}
