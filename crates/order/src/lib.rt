// A node's successors by column: a successor's column, whether all are in a set, and the pick among those of a set by
// their ranks.
#![tactic(auto)]

ghost use Rattle.std.specs.Prelude.{◌≡◌, ◌<◌, ◌≤◌, length};
ghost use Rattle.schema.specs.Schema.{schema_of, node_at};
ghost use Rattle.schema.specs.Table.{AtMost};
ghost use Rattle.model.specs.Satisfaction.{column_of, every};
ghost use Rattle.model.specs.Ranks.{better_in};
ghost use Rattle.order.specs.Order.{in_set, over, Keyed, TwoLeast, First, Picked};

use nodes::Schema;
use schema::{MOST_NODES, MOST_SUCCESSORS};
use std::cmp::Ordering;

// The column of x among node n's successors, their number where it is none of them.
pub fn column_of(schema: &Schema, n: usize, x: usize) -> usize
    requires { n < length (schema_of schema.now.bytes.now) }
    ensures { AtMost 8 (column_of x (node_at (schema_of schema.now.bytes.now) n).successors) result }
{
    let successors = schema.successors(n);
    successors
        .iter()
        .position(|s| usize::from(*s) == x)
        .unwrap_or(successors.len())
}

// Whether all of node n's successors are in a set of nodes.
pub fn all_in(schema: &Schema, n: usize, nodes: &[u8; MOST_NODES]) -> bool
    requires { n < length (schema_of schema.now.bytes.now) }
    ensures { result ≡ every (in_set nodes.now) (node_at (schema_of schema.now.bytes.now) n).successors }
{
    schema
        .successors(n)
        .iter()
        .all(|x| nodes[usize::from(*x)] == 1)
}

// Whether column p is better than column q.
#[tactic(auto, using(crate::proofs::Rows::better_less, crate::proofs::Rows::better_more, crate::proofs::Rows::better_alike))]
fn is_better(ranks: &[[u8; MOST_SUCCESSORS]], p: usize, q: usize) -> bool
    requires p_bound { p < 8 }
    requires q_bound { q < 8 }
    ensures { result ≡ better_in ranks.now p q }
{
    for row in ranks {
        match row[p].cmp(&row[q]) {
            Ordering::Less => {
                return true;
            }
            Ordering::Greater => {
                return false;
            }
            Ordering::Equal => {}
        }
    }
    p < q
}

// Column k in place of x, which is 8 for none, where k is better.
#[tactic(auto, using(crate::proofs::Rows::over_new, crate::proofs::Rows::over_worse, crate::proofs::Rows::over_none))]
fn better_of(ranks: &[[u8; MOST_SUCCESSORS]], k: usize, x: usize) -> usize
    requires k_bound { k < 8 }
    requires x_bound { x ≤ 8 }
    ensures { result ≡ over ranks.now k x }
{
    if x < MOST_SUCCESSORS && !is_better(ranks, k, x) {
        x
    } else {
        k
    }
}

// The column that comes first in a set, 8 if there is none.
#[tactic(auto, using(crate::proofs::Best::first_none))]
fn first_in(ranks: &[[u8; MOST_SUCCESSORS]], columns: usize, set: &[u8; MOST_SUCCESSORS]) -> usize
    requires { columns ≤ 8 }
    ensures { First ranks.now set.now columns result }
{
    let mut x = MOST_SUCCESSORS;
    for k in 0..columns {
        if set[k] == 1 {
            x = better_of(ranks, k, x);
        }
    }
    x
}

// Column k's key, which orders by rank and then by number; 2048, more than any key, where it is not in the set.
fn key_of(in_set: u8, rank: u8, k: usize) -> usize
    requires { k < 8 }
    ensures { Keyed in_set rank k result }
{
    if in_set == 1 {
        8 * (rank as usize) + k
    } else {
        2048
    }
}

// The least of the columns' keys, and the second least.
#[derive(Clone, Copy)]
struct Least {
    least: usize,
    second: usize,
}

// The least and the second least of the columns' keys by a row. No branch depends on the ranks or on the set.
fn two_least(row: &[u8; MOST_SUCCESSORS], columns: usize, set: &[u8; MOST_SUCCESSORS]) -> Least
    requires { columns ≤ 8 }
    ensures { TwoLeast row.now set.now columns result.least result.second }
{
    let mut least: usize = 2048;
    let mut second: usize = 2048;
    for k in 0..columns {
        let key = key_of(set[k], row[k], k);
        second = second.min(least.max(key));
        least = least.min(key);
    }
    Least { least, second }
}

// The column that comes first in a set, 8 if there is none, whatever the ranks: as a rule the first row decides.
#[tactic(auto, using(crate::proofs::Best::picked_first))]
pub fn pick(ranks: &[[u8; MOST_SUCCESSORS]], columns: usize, set: &[u8; MOST_SUCCESSORS]) -> usize
    requires { columns ≤ 8 }
    ensures { Picked ranks.now set.now columns result }
{
    if let Some(row) = ranks.first() {
        let keys = two_least(row, columns, set);
        if keys.least / 8 < keys.second / 8 {
            return keys.least % 8;
        }
    }
    first_in(ranks, columns, set)
}
