// The plan of an instance for the policies that rows note: which nodes are feasible, from the highest to 0, with their least
// values, then which of them are reached and what these choose, and how long the instance's file is.
#![tactic(auto)]

ghost use Rattle.std.specs.Prelude.{◌≡◌, true, ◌<◌, ◌≤◌, length};
ghost use Rattle.std.specs.List.{All};
ghost use Rattle.schema.specs.Schema.{schema_of, node_at};
ghost use Rattle.schema.specs.Table.{AtMost};
ghost use Rattle.policies.specs.Rows.{noted};
ghost use Rattle.instances.specs.Instance.{chooses};
ghost use Rattle.instances.specs.File.{most_bytes};
ghost use Rattle.instances.specs.Plan.{Unchosen};
ghost use Rattle.model.specs.Reconciling.{reconciled};
ghost use Rattle.planning.specs.Plan.{EligibleRoom, Plans, entries_length, file_length};
ghost use Rattle.planning.specs.Sweep.{SuccessorsIn, Choice, Chosen, NoneBanned, Allowed, NodePlanned, Swept, Eligible, Reached};

use instances::{ENTRY_WIDTH, HEAD_WIDTH, Slot};
use nodes::Schema;
use policies::{MOST_POLICIES, Policies};
use schema::{MOST_SUCCESSORS, MOST_VARIABLES};

// Which of these successors of a node are in a set of nodes, by column.
#[tactic(auto, using(crate::proofs::Tables::marking_init))]
fn fill_set(successors: &[u8], nodes: u64, set: &mut [u8; MOST_SUCCESSORS])
    requires few { length successors.now ≤ 8 }
    requires below { All (λ x. x < 64) successors.now }
    requires set_len { length set.old ≡ 8 }
    ensures { SuccessorsIn successors.now nodes set.new }
{
    for (k, x) in successors.iter().enumerate() {
        set[k] = u8::from(numbers::has(nodes, usize::from(*x)));
    }
}

// The successor of node n that comes first in a set of them, by the ranks of the noted policies.
fn choose_by_ranks(policies: &Policies, n: usize, eligible: u64) -> usize
    requires node_in { n < length (schema_of policies.now.schema.bytes.now) }
    requires n_value { chooses (node_at (schema_of policies.now.schema.bytes.now) n) ≡ true }
    requires choice { Choice (schema_of policies.now.schema.bytes.now) n eligible }
    ensures { Chosen (schema_of policies.now.schema.bytes.now) (noted (schema_of policies.now.schema.bytes.now) policies.now.bytes.now policies.now.rows.now) n eligible result }
{
    let successors = policies.schema.successors(n);
    let mut ranks = [[0u8; MOST_SUCCESSORS]; MOST_POLICIES];
    let count = ranks::gather(policies, n, &mut ranks);
    let mut set = [0u8; MOST_SUCCESSORS];
    fill_set(successors, eligible, &mut set);
    let k = order::pick(&ranks[..count], successors.len(), &set);
    usize::from(successors[k])
}

// The successor of node n that comes first in a set of them: the ranks are looked at only where a noted policy names the
// node and the set leaves a choice.
fn choose(policies: &Policies, n: usize, eligible: u64) -> usize
    requires node_in { n < length (schema_of policies.now.schema.bytes.now) }
    requires n_value { chooses (node_at (schema_of policies.now.schema.bytes.now) n) ≡ true }
    requires choice { Choice (schema_of policies.now.schema.bytes.now) n eligible }
    ensures { Chosen (schema_of policies.now.schema.bytes.now) (noted (schema_of policies.now.schema.bytes.now) policies.now.bytes.now policies.now.rows.now) n eligible result }
{
    let first = numbers::lowest(eligible);
    if policies.offsets(n).is_empty() {
        return first;
    }
    let alone = numbers::without(eligible, first) == 0;
    if alone {
        return first;
    }
    choose_by_ranks(policies, n, eligible)
}

// Whether no column is banned, by the greatest of the eight.
fn none_banned(bans: &[u8; MOST_SUCCESSORS]) -> bool
    ensures { NoneBanned bans.now result }
{
    bans.iter().fold(0u8, |x, ban| x.max(*ban)) < 255
}

// A set of nodes without those successors of node n, which chooses, that a noted policy forbids.
#[tactic(auto, using(crate::proofs::Bans::dropping_init, crate::proofs::Node::successors_few))]
fn keep_allowed(policies: &Policies, n: usize, nodes: u64) -> u64
    requires node_in { n < length (schema_of policies.now.schema.bytes.now) }
    requires n_value { chooses (node_at (schema_of policies.now.schema.bytes.now) n) ≡ true }
    ensures { Allowed (schema_of policies.now.schema.bytes.now) (noted (schema_of policies.now.schema.bytes.now) policies.now.bytes.now policies.now.rows.now) n nodes result }
{
    if policies.offsets(n).is_empty() {
        return nodes;
    }
    let mut bans = [0u8; MOST_SUCCESSORS];
    ranks::bans(policies, n, &mut bans);
    let mut kept = nodes;
    if none_banned(&bans) {
        return kept;
    }
    for (k, x) in policies.schema.successors(n).iter().enumerate() {
        if bans[k] == 255 {
            kept = numbers::without(kept, usize::from(*x));
        }
    }
    kept
}

// Whether node n is feasible, where it is known which nodes above it are; then these are the bits of its values, and its
// eligible successors, if it chooses, go into the table.
#[tactic(auto, using(crate::proofs::Node::node_chooses))]
fn plan_node(
    policies: &Policies,
    n: usize,
    feasible: u64,
    eligible: &mut [u64],
    bits: &mut [u32; MOST_VARIABLES],
) -> bool
    requires node_in { n < length (schema_of policies.now.schema.bytes.now) }
    requires eligible_room { EligibleRoom policies.now.schema.bytes.now eligible.old }
    ensures { NodePlanned (schema_of policies.now.schema.bytes.now) (noted (schema_of policies.now.schema.bytes.now) policies.now.bytes.now policies.now.rows.now) n feasible eligible.old eligible.new bits.new result }
{
    if conditions::least_values(policies, n, bits) {
        let set = policies.schema.successor_set(n);
        if instances::chooses(&policies.schema, n) {
            let kept = keep_allowed(policies, n, set & feasible);
            eligible[n] = kept;
            return kept != 0;
        }
        return set & feasible == set;
    }
    false
}

// The sweep from the highest node to 0: which nodes are feasible, the values of each and its eligible successors.
#[tactic(auto, using(crate::proofs::Sweep::sweep_below, crate::proofs::Sweep::sweep_small))]
fn sweep_nodes(policies: &Policies, eligible: &mut [u64], slots: &mut [Slot]) -> u64
    requires eligible_room { EligibleRoom policies.now.schema.bytes.now eligible.old }
    requires unchosen { Unchosen policies.now.schema.bytes.now slots.old }
    ensures { Swept policies.now.schema.bytes.now (noted (schema_of policies.now.schema.bytes.now) policies.now.bytes.now policies.now.rows.now) 0 result eligible.new slots.new }
{
    let mut feasible: u64 = 0;
    for n in (0..policies.schema.node_count()).rev() {
        if plan_node(policies, n, feasible, eligible, &mut slots[n].bits) {
            feasible = numbers::insert(feasible, n);
        }
    }
    feasible
}

// The nodes that are reached from node 0, the lowest first, and what each chooses.
fn choose_nodes(policies: &Policies, eligible: &[u64], slots: &mut [Slot]) -> u64
    requires eligible { Eligible policies.now.schema.bytes.now (noted (schema_of policies.now.schema.bytes.now) policies.now.bytes.now policies.now.rows.now) eligible.now }
    requires unchosen { Unchosen policies.now.schema.bytes.now slots.old }
    ensures { Reached (schema_of policies.now.schema.bytes.now) (noted (schema_of policies.now.schema.bytes.now) policies.now.bytes.now policies.now.rows.now) slots.old slots.new result }
{
    let mut reached: u64 = 0;
    let mut left: u64 = 1;
    while 0 < left {
        let n = numbers::lowest(left);
        reached = numbers::insert(reached, n);
        left = numbers::flip(left, n);
        if instances::chooses(&policies.schema, n) {
            let x = choose(policies, n, eligible[n]);
            slots[n].choice = x as u8;
            left = numbers::insert(left, x);
        } else {
            left = left | policies.schema.successor_set(n);
        }
    }
    reached
}

// What the noted policies come to: the instance that the model gives for them, by the nodes that have an entry, as bits, or
// that there is none. The slots, which are lent, hold it; so is the table of eligible successors.
pub fn plan_for(policies: &Policies, eligible: &mut [u64], slots: &mut [Slot]) -> Option<u64>
    requires eligible_room { EligibleRoom policies.now.schema.bytes.now eligible.old }
    requires unchosen { Unchosen policies.now.schema.bytes.now slots.old }
    ensures { Plans (schema_of policies.now.schema.bytes.now) (reconciled (schema_of policies.now.schema.bytes.now) (noted (schema_of policies.now.schema.bytes.now) policies.now.bytes.now policies.now.rows.now)) slots.new result }
{
    let feasible = sweep_nodes(policies, eligible, slots);
    if numbers::has(feasible, 0) {
        return Some(choose_nodes(policies, eligible, slots));
    }
    None
}

// The bytes of the entries of these nodes.
#[tactic(auto, using(crate::proofs::Measuring::summing_init, crate::proofs::Measuring::summing_small, crate::proofs::Measuring::summing_fits, crate::proofs::Measuring::summing_skip))]
fn entries_length(schema: &Schema, nodes: u64) -> usize
    ensures { AtMost 1280 (entries_length (schema_of schema.now.bytes.now) nodes (length (schema_of schema.now.bytes.now))) result }
{
    let mut sum: usize = 0;
    for n in 0..schema.node_count() {
        if numbers::has(nodes, n) {
            sum += ENTRY_WIDTH + lookup::values_width(schema, n);
        }
    }
    sum
}

// How long a file with an entry for each of these nodes is.
pub fn file_length(schema: &Schema, nodes: u64) -> usize
    ensures { AtMost most_bytes (file_length (schema_of schema.now.bytes.now) nodes) result }
{
    HEAD_WIDTH + entries_length(schema, nodes)
}
