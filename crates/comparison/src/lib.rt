// The comparison of two instances: nodes from the highest to 0, each once.
#![tactic(auto)]

ghost use Rattle.std.specs.Prelude.{◌≡◌, ◌<◌, length};
ghost use Rattle.fields.specs.Answers.{answer_of};
ghost use Rattle.schema.specs.Schema.{most_nodes, schema_of};
ghost use Rattle.schema.specs.Table.{RoomIn};
ghost use Rattle.policies.specs.Rows.{noted};
ghost use Rattle.instances.specs.Plan.{SlotsRoom, Unchosen};
ghost use Rattle.model.specs.Order.{better, good_choice, good_at};
ghost use Rattle.model.specs.Comparing.{verdict};
ghost use Rattle.order.specs.Order.{in_set};
ghost use Rattle.calls.specs.Calls.{comparing_in_force, comparing};
ghost use Rattle.comparison.specs.Comparison.{verdict_number, YieldsAsGood, YieldsVerdict};

use fields::{File, Refusal};
use instances::{EMPTY, Slot};
use nodes::{FEW_NODES, Schema};
use policies::{NO_POLICIES, Policies};
use schema::{MOST_NODES, NO_LAYOUT};
use std::cmp::Ordering;

// How two instances compare; `as usize` gives 01's value.
#[derive(Clone, Copy, PartialEq, Eq, Debug)]
pub enum Verdict {
    Alike = 0,
    FirstBetter = 1,
    SecondBetter = 2,
    Neither = 3,
}

// Whether x is better than y at node n.
#[tactic(auto, using(crate::proofs::Better::ranks_less, crate::proofs::Better::ranks_greater))]
fn is_better(policies: &Policies, n: usize, x: u8, y: u8) -> bool
    requires node_in { n < length (schema_of policies.now.schema.bytes.now) }
    ensures { result ≡ better (schema_of policies.now.schema.bytes.now) (noted (schema_of policies.now.schema.bytes.now) policies.now.bytes.now policies.now.rows.now) n x y }
{
    let c = order::column_of(&policies.schema, n, usize::from(x));
    let d = order::column_of(&policies.schema, n, usize::from(y));
    match ranks::compare_ranks(policies, n, c, d) {
        Ordering::Less => true,
        Ordering::Greater => false,
        Ordering::Equal => x < y,
    }
}

// Whether node s is flagged; a number above all nodes is not.
#[tactic(auto, using(crate::proofs::Good::none_beyond))]
fn is_flagged(flags: &[u8; MOST_NODES], s: usize) -> bool
    requires { length flags.now ≡ most_nodes }
    ensures { result ≡ in_set flags.now s }
{
    if s < MOST_NODES {
        return flags[s] == 1;
    }
    false
}

// Whether choice x is at least as good as y at node n, which chooses.
#[tactic(auto, using(crate::proofs::Good::choice_same))]
fn is_good_choice(policies: &Policies, n: usize, x: u8, y: u8, flags: &[u8; MOST_NODES]) -> bool
    requires node_in { n < length (schema_of policies.now.schema.bytes.now) }
    requires flags_len { length flags.now ≡ most_nodes }
    ensures { result ≡ good_choice (better (schema_of policies.now.schema.bytes.now) (noted (schema_of policies.now.schema.bytes.now) policies.now.bytes.now policies.now.rows.now)) (in_set flags.now) n x y }
{
    if x == y {
        return is_flagged(flags, usize::from(x));
    }
    is_better(policies, n, x, y)
}

// Whether an instance with choice x of node n is there at least as good as one with choice y, by the flags of the nodes above.
#[tactic(auto, using(crate::proofs::Good::node_chooses, crate::proofs::Good::node_rests))]
fn is_good(policies: &Policies, n: usize, x: u8, y: u8, flags: &[u8; MOST_NODES]) -> bool
    requires node_in { n < length (schema_of policies.now.schema.bytes.now) }
    requires flags_len { length flags.now ≡ most_nodes }
    ensures { result ≡ good_at (schema_of policies.now.schema.bytes.now) (better (schema_of policies.now.schema.bytes.now) (noted (schema_of policies.now.schema.bytes.now) policies.now.bytes.now policies.now.rows.now)) (in_set flags.now) n x y }
{
    if instances::chooses(&policies.schema, n) {
        return is_good_choice(policies, n, x, y, flags);
    }
    order::all_in(&policies.schema, n, flags)
}

// Whether the first instance is at least as good as the second, by their choices.
#[tactic(auto, using(crate::proofs::Flagging::flagging_node, crate::proofs::Flagging::flagging_small, crate::proofs::Flagging::flagging_long, instances::proofs::Slots::slot_inside))]
fn as_good(policies: &Policies, first: &[Slot], second: &[Slot]) -> bool
    requires first_room { SlotsRoom policies.now.schema.bytes.now first.now }
    requires second_room { SlotsRoom policies.now.schema.bytes.now second.now }
    ensures { YieldsAsGood (schema_of policies.now.schema.bytes.now) (noted (schema_of policies.now.schema.bytes.now) policies.now.bytes.now policies.now.rows.now) first.now second.now result }
{
    let mut flags = [0u8; MOST_NODES];
    for n in (0..policies.schema.node_count()).rev() {
        flags[n] = u8::from(is_good(policies, n, first[n].choice, second[n].choice, &flags));
    }
    flags[0] == 1
}

fn verdict_of(first: bool, second: bool) -> Verdict
    ensures { verdict_number result ≡ verdict first second }
{
    match (first, second) {
        (true, true) => Verdict::Alike,
        (true, false) => Verdict::FirstBetter,
        (false, true) => Verdict::SecondBetter,
        (false, false) => Verdict::Neither,
    }
}

// The verdict on two instances, by their choices.
#[tactic(auto, using(crate::proofs::Call::verdict_by))]
fn compare_choices(policies: &Policies, first: &[Slot], second: &[Slot]) -> Verdict
    requires first_room { SlotsRoom policies.now.schema.bytes.now first.now }
    requires second_room { SlotsRoom policies.now.schema.bytes.now second.now }
    ensures { YieldsVerdict (schema_of policies.now.schema.bytes.now) (noted (schema_of policies.now.schema.bytes.now) policies.now.bytes.now policies.now.rows.now) first.now second.now (verdict_number result) }
{
    let onward = as_good(policies, first, second);
    let back = as_good(policies, second, first);
    verdict_of(onward, back)
}

// The instances, files 4 and 5, once schema, policies and pass are accepted, with slots lent for them. The values do not enter
// the order.
fn in_force(
    policies: &Policies,
    s: &[u8],
    t: &[u8],
    first: &mut [Slot],
    second: &mut [Slot],
) -> Result<Verdict, Refusal>
    requires first_unchosen { Unchosen policies.now.schema.bytes.now first.old }
    requires second_unchosen { Unchosen policies.now.schema.bytes.now second.old }
    ensures { answer_of verdict_number result ≡ comparing_in_force (schema_of policies.now.schema.bytes.now) (noted (schema_of policies.now.schema.bytes.now) policies.now.bytes.now policies.now.rows.now) s.now t.now }
{
    let schema = &policies.schema;
    instance_reader::read_instance(schema, s, first).map_err(|breach| breach.of(File::Instance))?;
    instance_reader::read_instance(schema, t, second).map_err(|breach| breach.of(
        File::SecondInstance,
    ))?;
    Ok(compare_choices(policies, first, second))
}

// Schema, policies and pass, then the instances, with tables and slots for so many nodes.
#[tactic(auto, using(schema::proofs::Fill::room_in, inputs::proofs::Above::rows_in, instances::proofs::Slots::slots_in, instances::proofs::Clearing::cleared_unchosen, calls::proofs::Inputs::schema_bad), unfolding(calls::specs::Calls::comparing))]
fn with_room<const N: usize>(
    schema: &[u8],
    p: &[u8],
    a: u16,
    b: u16,
    s: &[u8],
    t: &[u8],
) -> Result<Verdict, Refusal>
    requires { RoomIn schema.now N }
    ensures { answer_of verdict_number result ≡ comparing schema.now p.now a b s.now t.now }
{
    let mut layouts = [NO_LAYOUT; N];
    schema::read_schema(schema, &mut layouts).map_err(|breach| breach.of(File::Schema))?;
    let schema = Schema {
        bytes: schema,
        layouts: &layouts,
    };
    let mut rows = [NO_POLICIES; N];
    inputs::read_in_force(&schema, p, a, b, &mut rows)?;
    let policies = Policies {
        schema,
        bytes: p,
        rows: &rows,
    };
    let mut first = [EMPTY; N];
    instances::clear_choices(&policies.schema, &mut first);
    let mut second = [EMPTY; N];
    instances::clear_choices(&policies.schema, &mut second);
    in_force(&policies, s, t, &mut first, &mut second)
}

// The comparison: schema, policies, pass, first and second instance, then the verdict; few nodes have short tables, which are
// sooner cleared.
#[tactic(auto, using(schema::proofs::Fill::room_few, schema::proofs::Fill::room_most))]
pub fn compare(
    schema: &[u8],
    policies: &[u8],
    a: u16,
    b: u16,
    first: &[u8],
    second: &[u8],
) -> Result<Verdict, Refusal>
    ensures { answer_of verdict_number result ≡ comparing schema.now policies.now a b first.now second.now }
{
    if schema::count_in(schema) <= FEW_NODES {
        return with_room::<FEW_NODES>(schema, policies, a, b, first, second);
    }
    with_room::<MOST_NODES>(schema, policies, a, b, first, second)
}
