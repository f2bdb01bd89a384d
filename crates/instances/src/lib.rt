// Whether a node chooses, and which nodes it reaches.
#![tactic(auto)]

ghost use Rattle.std.specs.Prelude.{◌≡◌, ◌<◌, length};
ghost use Rattle.numbers.specs.Bits.{with_all};
ghost use Rattle.schema.specs.Schema.{schema_of, node_at};
ghost use Rattle.instances.specs.Instance.{chooses, reaches};
ghost use Rattle.instances.specs.Plan.{SlotsRoom, without_choices};

use nodes::Schema;
use schema::{MOST_NODES, MOST_VARIABLES};

// The bytes of a value: a number's, a listed variable's.
pub const NUMBER_WIDTH: usize = 4;

pub const LISTED_WIDTH: usize = 1;

// The bytes of an entry before its values: mark, node and choice; those of the file before its entries: mark and count.
pub const ENTRY_WIDTH: usize = 4;

pub const HEAD_WIDTH: usize = 3;

// The longest file: each node has an entry, with as many numbers as there may be.
pub const MOST_BYTES: usize = HEAD_WIDTH
    + MOST_NODES * (ENTRY_WIDTH + MOST_VARIABLES * NUMBER_WIDTH);

// What is taken of a node: its choice, and the bits of its values.
#[derive(Clone, Copy)]
pub struct Slot {
    pub bits: [u32; MOST_VARIABLES],
    pub choice: u8,
}

// A slot before anything is put into it: all its bytes are 0, so that a table of them is cleared at once.
pub const EMPTY: Slot = Slot {
    bits: [0; MOST_VARIABLES],
    choice: 0,
};

// Takes the choice out of the slot of each node: none is taken yet.
#[tactic(auto, using(crate::proofs::Clearing::clearing_init, crate::proofs::Clearing::clearing_room, crate::proofs::Clearing::clearing_step, crate::proofs::Clearing::clearing_exit))]
pub fn clear_choices(schema: &Schema, slots: &mut [Slot])
    requires { SlotsRoom schema.now.bytes.now slots.old }
    ensures { slots.new ≡ without_choices (length (schema_of schema.now.bytes.now)) slots.old }
{
    for n in 0..schema.node_count() {
        slots[n].choice = 255;
    }
}

// Whether a node is of kind 1 and has successors.
pub fn chooses(schema: &Schema, n: usize) -> bool
    requires { n < length (schema_of schema.now.bytes.now) }
    ensures { result ≡ chooses (node_at (schema_of schema.now.bytes.now) n) }
{
    0 < schema.rank_count(n)
}

#[tactic(auto, using(crate::proofs::Node::with_more, crate::proofs::Node::with_done))]
fn with_successors(schema: &Schema, n: usize, m: u64) -> u64
    requires { n < length (schema_of schema.now.bytes.now) }
    ensures { result ≡ with_all m (node_at (schema_of schema.now.bytes.now) n).successors }
{
    let mut set = m;
    for x in schema.successors(n) {
        set = numbers::with(set, usize::from(*x));
    }
    set
}

// The set with the nodes that node n reaches by choice c.
pub fn reach(schema: &Schema, n: usize, c: usize, m: u64) -> u64
    requires { n < length (schema_of schema.now.bytes.now) }
    ensures { result ≡ with_all m (reaches (node_at (schema_of schema.now.bytes.now) n) c) }
{
    if chooses(schema, n) {
        return numbers::with(m, c);
    }
    with_successors(schema, n, m)
}
