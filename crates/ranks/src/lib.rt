// What the policies that rows note say of a node's successors: which of them are forbidden, how the ranks of two compare, and
// rows of ranks that order them.
#![tactic(auto)]

ghost use Rattle.std.specs.Prelude.{◌≡◌, ◌+◌, ◌<◌, ◌≤◌, length};
ghost use Rattle.schema.specs.Schema.{schema_of, node_at};
ghost use Rattle.schema.specs.Layout.{rank_count};
ghost use Rattle.policies.specs.Rows.{noted, rules_for, BytesAt};
ghost use Rattle.ranks.specs.Ranks.{allowed_column, Bans, better_column, order_by, rank_order, RanksGathered, allowed_at, rank_byte, rank_at, BansEight, RowFilled, better_at, AllAlike, Skipped, GreaterRanks};

use fields::BigEndian;
use policies::{MOST_POLICIES, Policies};
use schema::MOST_SUCCESSORS;
use std::cmp::Ordering;

// Whether no PN whose ranks begin at the offsets has 255 in column k.
fn none_forbids(p: &[u8], offsets: &[u16], k: usize) -> bool
    requires { BytesAt p.now offsets.now (k + 1) }
    ensures { result ≡ allowed_at p.now offsets.now k }
{
    offsets.iter().all(|at| p[usize::from(*at) + k] != 255)
}

// Whether no policy that the rows note gives successor k of node n rank 255; a column that is none of the node's has rank 0.
pub fn is_allowed(policies: &Policies, n: usize, k: usize) -> bool
    requires { n < length (schema_of policies.now.schema.bytes.now) }
    ensures { result ≡ allowed_column (noted (schema_of policies.now.schema.bytes.now) policies.now.bytes.now policies.now.rows.now) n k }
{
    if policies.schema.rank_count(n) <= k {
        return true;
    }
    none_forbids(policies.bytes, policies.offsets(n), k)
}

// The greater of each two of eight ranks.
fn greatest(a: &[u8; MOST_SUCCESSORS], b: &[u8; MOST_SUCCESSORS]) -> [u8; MOST_SUCCESSORS]
    ensures { GreaterRanks a.now b.now result }
{
    [
        a[0].max(b[0]),
        a[1].max(b[1]),
        a[2].max(b[2]),
        a[3].max(b[3]),
        a[4].max(b[4]),
        a[5].max(b[5]),
        a[6].max(b[6]),
        a[7].max(b[7]),
    ]
}

// The greatest rank of each of eight columns, in the PN whose ranks begin at the offsets; whether eight bytes stand from each on.
#[tactic(auto, using(crate::proofs::Banning::greatest_none, crate::proofs::Banning::greatest_done, crate::proofs::Banning::eight_no))]
fn ban_eight(p: &[u8], offsets: &[u16], bans: &mut [u8; MOST_SUCCESSORS]) -> bool
    requires bytes_at { BytesAt p.now offsets.now 0 }
    requires bans_len { length bans.old ≡ 8 }
    ensures { BansEight (allowed_at p.now offsets.now) bans.new result }
{
    *bans = [0u8; MOST_SUCCESSORS];
    for at in offsets {
        match p[usize::from(*at)..].first_chunk() {
            Some(ranks) => {
                *bans = greatest(bans, ranks);
            }
            None => {
                return false;
            }
        }
    }
    true
}

// 255 in those of so many columns in which a PN whose ranks begin at the offsets has it.
#[tactic(auto, using(crate::proofs::Banning::banning_none, crate::proofs::Banning::column_room))]
fn ban_each(p: &[u8], offsets: &[u16], columns: usize, bans: &mut [u8; MOST_SUCCESSORS])
    requires bytes_at { BytesAt p.now offsets.now columns }
    requires columns_bound { columns ≤ 8 }
    requires bans_len { length bans.old ≡ 8 }
    ensures { Bans (allowed_at p.now offsets.now) columns bans.new }
{
    for k in 0..columns {
        bans[k] = if none_forbids(p, offsets, k) { 0 } else { 255 };
    }
}

// 255 in the column of each successor of node n to which a policy that the rows note gives rank 255; eight columns at once,
// where so many bytes stand from the ranks on.
#[tactic(auto, using(crate::proofs::Banning::eight_long, crate::proofs::Row::row_bytes, crate::proofs::Row::columns_bytes))]
pub fn bans(policies: &Policies, n: usize, bans: &mut [u8; MOST_SUCCESSORS])
    requires n_in_bounds { n < length (schema_of policies.now.schema.bytes.now) }
    requires bans_len { length bans.old ≡ 8 }
    ensures { Bans (allowed_column (noted (schema_of policies.now.schema.bytes.now) policies.now.bytes.now policies.now.rows.now) n) (rank_count (node_at (schema_of policies.now.schema.bytes.now) n)) bans.new }
{
    let p = policies.bytes;
    let offsets = policies.offsets(n);
    if !ban_eight(p, offsets, bans) {
        let columns = policies.schema.rank_count(n);
        ban_each(p, offsets, columns, bans);
    }
}

// The rank in column c, of so many, of the PN with whose ranks the slice begins: 0 for one that is none of them.
#[tactic(auto, using(crate::proofs::Comparing::rank_here, crate::proofs::Comparing::rank_beyond))]
fn rank_in(ranks: &[u8], columns: usize, c: usize) -> u8
    requires { columns ≤ length ranks.now }
    ensures { result ≡ rank_byte ranks.now columns c }
{
    if c < columns { ranks[c] } else { 0 }
}

// How the ranks in columns c and d, of so many, compare in the PN whose ranks begin at the offsets.
#[tactic(auto, using(crate::proofs::Comparing::compare_done))]
fn compare_columns(p: &[u8], offsets: &[u16], columns: usize, c: usize, d: usize) -> Ordering
    requires { BytesAt p.now offsets.now columns }
    ensures { result ≡ order_by (rank_at p.now columns) offsets.now c d }
{
    for at in offsets {
        let ranks = &p[usize::from(*at)..];
        let order = rank_in(ranks, columns, c).cmp(&rank_in(ranks, columns, d));
        if order != Ordering::Equal {
            return order;
        }
    }
    Ordering::Equal
}

// How the ranks that the noted policies give to columns c and d of node n compare: the first policy whose ranks differ
// decides. A column that is none of the node's has rank 0.
#[tactic(auto, using(crate::proofs::Row::columns_bytes, crate::proofs::Row::columns_compared))]
pub fn compare_ranks(policies: &Policies, n: usize, c: usize, d: usize) -> Ordering
    requires { n < length (schema_of policies.now.schema.bytes.now) }
    ensures { result ≡ rank_order (rules_for n (noted (schema_of policies.now.schema.bytes.now) policies.now.bytes.now policies.now.rows.now)) c d }
{
    let columns = policies.schema.rank_count(n);
    compare_columns(policies.bytes, policies.offsets(n), columns, c, d)
}

// A row: so many bytes from an offset on; eight at once, where there are so many.
fn gather_row(p: &[u8], at: usize, columns: usize, row: &mut [u8; MOST_SUCCESSORS])
    requires columns_in_bounds { at + columns ≤ length p.now }
    requires columns_bound { columns ≤ 8 }
    ensures { RowFilled p.now at columns row.old row.new }
{
    let ranks = &p[at..];
    match ranks.first_chunk() {
        Some(eight) => {
            *row = *eight;
        }
        None => row[..columns].copy_from_slice(&ranks[..columns]),
    }
}

// Whether the eight bytes from an offset on are known to be all alike: both halves are the same number, and it stays so if it is
// turned by a byte.
#[tactic(auto, using(crate::proofs::Gathering::alike_no))]
fn is_alike(p: &[u8], at: usize) -> bool
    requires { at ≤ length p.now }
    ensures { AllAlike p.now at result }
{
    if p.len() - at < MOST_SUCCESSORS {
        return false;
    }
    let half = u32::get(p, at);
    u32::get(p, at + 4) == half && half == half.rotate_right(8)
}

// The offsets from the first PN on that may rank columns differently: equal ranks decide nothing.
fn skip_alike<'a>(p: &[u8], offsets: &'a [u16]) -> &'a [u16]
    requires { BytesAt p.now offsets.now 0 }
    ensures { Skipped p.now offsets.now result.now }
{
    match offsets.iter().position(|at| !is_alike(p, usize::from(*at))) {
        Some(j) => &offsets[j..],
        None => &[],
    }
}

// A row of so many ranks for each offset.
#[tactic(auto, using(crate::proofs::Gathering::rows_none, crate::proofs::Gathering::rows_more))]
fn gather_rows(
    p: &[u8],
    offsets: &[u16],
    columns: usize,
    ranks: &mut [[u8; MOST_SUCCESSORS]; MOST_POLICIES],
)
    requires bytes_at { BytesAt p.now offsets.now columns }
    requires columns_bound { columns ≤ 8 }
    ensures { RanksGathered (better_at p.now offsets.now) columns ranks.new (length offsets.now) }
{
    for (r, at) in offsets.iter().enumerate() {
        gather_row(p, usize::from(*at), columns, &mut ranks[r]);
    }
}

// Rows that order the successors of node n as the policies that the rows note do; how many there are. The first ones where all
// ranks are alike are left out.
#[tactic(auto, using(crate::proofs::Row::row_bytes))]
pub fn gather(
    policies: &Policies,
    n: usize,
    ranks: &mut [[u8; MOST_SUCCESSORS]; MOST_POLICIES],
) -> usize
    requires { n < length (schema_of policies.now.schema.bytes.now) }
    ensures { RanksGathered (better_column (noted (schema_of policies.now.schema.bytes.now) policies.now.bytes.now policies.now.rows.now) n) (rank_count (node_at (schema_of policies.now.schema.bytes.now) n)) ranks.new result }
{
    let p = policies.bytes;
    let offsets = skip_alike(p, policies.offsets(n));
    let columns = policies.schema.rank_count(n);
    gather_rows(p, offsets, columns, ranks);
    offsets.len()
}
