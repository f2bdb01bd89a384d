// The call that copies an instance.
#![tactic(auto)]

ghost use Rattle.fields.specs.Answers.{answer_of, judged};
ghost use Rattle.fields.specs.Outcomes.{Did, leaving, placed};
ghost use Rattle.schema.specs.Schema.{schema_of};
ghost use Rattle.schema.specs.Table.{RoomIn};
ghost use Rattle.instances.specs.File.{instance, encode};
ghost use Rattle.instances.specs.Plan.{SlotsRoom};
ghost use Rattle.calls.specs.Calls.{copying};

use fields::{Fault, File, Refusal};
use instances::{EMPTY, Slot};
use nodes::{FEW_NODES, Schema};
use schema::{MOST_NODES, NO_LAYOUT};

// A file into a buffer, or 14 where that is shorter.
#[tactic(auto, using(fields::proofs::Placed::placed_short_did, crate::proofs::Copying::deliver_fits))]
fn deliver(file: &[u8], out: &mut [u8]) -> Result<usize, Refusal>
    ensures { Did (placed file.now out.old) (answer_of (λ n. n) result) out.new }
{
    if out.len() < file.len() {
        return Err(Refusal::new(Fault::Buffer));
    }
    out[..file.len()].copy_from_slice(file);
    Ok(file.len())
}

// The instance, once the schema is accepted; the slots that the reader fills are lent and not asked again.
fn with_schema(
    schema: &Schema,
    s: &[u8],
    slots: &mut [Slot],
    out: &mut [u8],
) -> Result<usize, Refusal>
    requires { SlotsRoom schema.now.bytes.now slots.old }
    ensures { Did (judged (leaving out.old) 4 (instance (schema_of schema.now.bytes.now) s.now) (λ i. placed (encode (schema_of schema.now.bytes.now) i) out.old)) (answer_of (λ n. n) result) out.new }
{
    instance_reader::read_instance(schema, s, slots).map_err(|breach| breach.of(File::Instance))?;
    deliver(s, out)
}

// Schema, then the instance, with a table and slots for so many nodes.
#[tactic(auto, using(fields::proofs::Mapped::mapped_ok, schema::proofs::Fill::room_in, instances::proofs::Slots::slots_in, calls::proofs::Inputs::schema_accepted, calls::proofs::Inputs::schema_tabled, calls::proofs::Inputs::schema_bad_did, calls::proofs::Inputs::schema_ok_did), unfolding(calls::specs::Calls::copying, calls::specs::Calls::delivering))]
fn with_room<const N: usize>(schema: &[u8], s: &[u8], out: &mut [u8]) -> Result<usize, Refusal>
    requires { RoomIn schema.now N }
    ensures { Did (copying schema.now s.now out.old) (answer_of (λ n. n) result) out.new }
{
    let mut layouts = [NO_LAYOUT; N];
    schema::read_schema(schema, &mut layouts).map_err(|breach| breach.of(File::Schema))?;
    let schema = Schema {
        bytes: schema,
        layouts: &layouts,
    };
    let mut slots = [EMPTY; N];
    with_schema(&schema, s, &mut slots, out)
}

// The instance that was read, written into a buffer: schema, instance, then 14; few nodes have a short table, which is sooner
// cleared.
#[tactic(auto, using(schema::proofs::Fill::room_few, schema::proofs::Fill::room_most))]
pub fn copy(schema: &[u8], instance: &[u8], out: &mut [u8]) -> Result<usize, Refusal>
    ensures { Did (copying schema.now instance.now out.old) (answer_of (λ n. n) result) out.new }
{
    if schema::count_in(schema) <= FEW_NODES {
        return with_room::<FEW_NODES>(schema, instance, out);
    }
    with_room::<MOST_NODES>(schema, instance, out)
}
