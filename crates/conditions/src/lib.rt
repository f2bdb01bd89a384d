// What the policies that rows note say of a node's variables: the least values that the conditions of the schema and of their
// PN leave, and which values these PN admit.
#![tactic(auto)]

ghost use Rattle.std.specs.List.{All, list_all};
ghost use Rattle.std.specs.Prelude.{ℕ, ◌≡◌, true, ◌+◌, ◌<◌, ◌≤◌, length};
ghost use Rattle.fields.specs.Reading.{be, signed};
ghost use Rattle.numbers.specs.Bits.{ones};
ghost use Rattle.schema.specs.Schema.{schema_of, node_at, variable_at};
ghost use Rattle.schema.specs.Layout.{range_width, mask_width, span, offset_of};
ghost use Rattle.policies.specs.Policies.{range, mask};
ghost use Rattle.policies.specs.Rows.{noted, BytesAt};
ghost use Rattle.instances.specs.File.{value_of};
ghost use Rattle.model.specs.Satisfaction.{admits, admitted};
ghost use Rattle.model.specs.Reconciling.{own, both, combined, least, is_some, least_each};
ghost use Rattle.conditions.specs.Least.{LeastIn, range_in, ranges_in, condition_of};
ghost use Rattle.conditions.specs.Rules.{range_at, mask_at, condition_in, value_in, narrowed_by, size_of, four_numbers};

use fields::BigEndian;
use nodes::{Bounds, Schema};
use policies::{Policies, RANGE_WIDTH};
use schema::{MOST_VARIABLES, Variable};

// How far the second, third and fourth of a node's ranges stand from the first.
const SECOND: usize = RANGE_WIDTH;

const THIRD: usize = 2 * RANGE_WIDTH;

const FOURTH: usize = 3 * RANGE_WIDTH;

// The combined conditions of one node: a range for a number, a mask for a listed variable, a place for each of four.
#[derive(Clone, Copy)]
pub struct Conditions {
    pub lo: [i32; MOST_VARIABLES],
    pub hi: [i32; MOST_VARIABLES],
    pub mask: [u32; MOST_VARIABLES],
}

// The range x, narrowed by the condition that stands so far from the first rank of a PN, with which the slice begins.
fn narrow_at(ranks: &[u8], skip: usize, x: Bounds) -> Bounds
    requires { skip + range_width ≤ length ranks.now }
    ensures { range result.lo result.hi ≡ both (range x.lo x.hi) (range (signed (be 4 ranks.now skip)) (signed (be 4 ranks.now (skip + 4)))) }
{
    Bounds {
        lo: x.lo.max(i32::get(ranks, skip)),
        hi: x.hi.min(i32::get(ranks, skip + 4)),
    }
}

// The range that is left of a number's, narrowed by those that stand so far from the offsets.
#[tactic(auto, using(crate::proofs::Narrowing::range_exit, policies::proofs::Offsets::stretch_inside, policies::proofs::Offsets::stretch_room))]
fn narrow_range(p: &[u8], offsets: &[u16], skip: usize, start: Bounds) -> Bounds
    requires { BytesAt p.now offsets.now (skip + range_width) }
    ensures { range result.lo result.hi ≡ narrowed_by (range_at p.now skip) offsets.now (range start.lo start.hi) }
{
    let mut x = start;
    for at in offsets {
        x = narrow_at(&p[usize::from(*at)..], skip, x);
    }
    x
}

// The mask that is left of a listed variable's so many values, narrowed by those that stand so far from the offsets.
#[tactic(auto, using(crate::proofs::Narrowing::mask_exit, policies::proofs::Offsets::stretch_inside, policies::proofs::Offsets::stretch_room))]
fn narrow_mask(p: &[u8], offsets: &[u16], skip: usize, size: u8) -> u32
    requires bytes_at { BytesAt p.now offsets.now (skip + mask_width) }
    requires size_bound { size ≤ 32 }
    ensures { mask result ≡ narrowed_by (mask_at p.now skip) offsets.now (mask (ones size)) }
{
    let mut mask = numbers::all_values(size);
    for at in offsets {
        mask = mask & u32::get(&p[usize::from(*at)..], skip);
    }
    mask
}

// Whether node n has four variables, all numbers: its layout has how many are listed.
#[tactic(auto, using(nodes::proofs::Nodes::node_inside, crate::proofs::Numbers::four_other, crate::proofs::Numbers::four_masks))]
fn has_four_numbers(schema: &Schema, n: usize) -> bool
    requires { n < length (schema_of schema.now.bytes.now) }
    ensures { result ≡ four_numbers (node_at (schema_of schema.now.bytes.now) n).variables }
{
    schema.variable_count(n) == MOST_VARIABLES && schema.layouts[n].masks == 0
}

impl Conditions {
    // None of any variable.
    fn new() -> Conditions {
        Conditions {
            lo: [0; MOST_VARIABLES],
            hi: [0; MOST_VARIABLES],
            mask: [0; MOST_VARIABLES],
        }
    }

    // Those of variable k: its own, narrowed by what stands so far from the offsets.
    #[tactic(auto, using(crate::proofs::Least::combined_mask), unfolding(schema::specs::Layout::span, crate::specs::Rules::size_of))]
    fn combine(&mut self, k: usize, v: Variable, p: &[u8], offsets: &[u16], skip: usize)
        requires k_bound { k < 4 }
        requires bytes_at { BytesAt p.now offsets.now (skip + span v) }
        requires size_bound { size_of v ≤ 32 }
        ensures { condition_of self.new k v ≡ narrowed_by (condition_in p.now skip v) offsets.now (own v) }
    {
        match v {
            Variable::Number { lo, hi } => {
                let x = narrow_range(p, offsets, skip, Bounds { lo, hi });
                self.lo[k] = x.lo;
                self.hi[k] = x.hi;
            }
            Variable::Listed { size } => {
                self.mask[k] = narrow_mask(p, offsets, skip, size);
            }
        }
    }

    // Whether variable k, a number, has a value left.
    fn has_number(&self, k: usize) -> bool
        requires { k < 4 }
        ensures { result ≡ is_some (least (range_in self.now k)) }
    {
        self.lo[k] <= self.hi[k]
    }

    // The bits of the least value that they leave of variable k.
    #[tactic(auto, using(crate::proofs::Least::mask_none, crate::proofs::Least::mask_some))]
    fn least(&self, k: usize, v: Variable) -> Option<u32>
        requires { k < 4 }
        ensures { value_in v result ≡ least (condition_of self.now k v) }
    {
        match v {
            Variable::Number { .. } => {
                if !self.has_number(k) {
                    return None;
                }
                Some(self.lo[k].cast_unsigned())
            }
            Variable::Listed { .. } => {
                if self.mask[k] == 0 {
                    return None;
                }
                Some(numbers::least_value(self.mask[k]))
            }
        }
    }

    // Whether each of four numbers has a value left.
    #[tactic(auto, using(crate::proofs::FourLeast::numbers_left))]
    fn have_numbers(&self) -> bool
        ensures { result ≡ is_some (least_each (ranges_in self.now)) }
    {
        self.has_number(0) & self.has_number(1) & self.has_number(2) & self.has_number(3)
    }
}

// The combined conditions of node n, which has four numbers: each PN narrows all four in turn.
#[tactic(auto, using(crate::proofs::Numbers::four_number, crate::proofs::Numbers::four_inside, crate::proofs::Numbers::next_fits))]
fn combine_numbers(policies: &Policies, n: usize) -> Conditions
    requires n_in_bounds { n < length (schema_of policies.now.schema.bytes.now) }
    requires n_value { four_numbers (node_at (schema_of policies.now.schema.bytes.now) n).variables ≡ true }
    ensures { ranges_in result ≡ combined (schema_of policies.now.schema.bytes.now) (noted (schema_of policies.now.schema.bytes.now) policies.now.bytes.now policies.now.rows.now) n }
{
    let schema = &policies.schema;
    let skip = schema.rank_count(n);
    let mut w = schema.bounds(n, 0);
    let mut x = schema.bounds(n, 1);
    let mut y = schema.bounds(n, 2);
    let mut z = schema.bounds(n, 3);
    for at in policies.offsets(n) {
        let ranks = &policies.bytes[usize::from(*at)..];
        w = narrow_at(ranks, skip, w);
        x = narrow_at(ranks, skip + SECOND, x);
        y = narrow_at(ranks, skip + THIRD, y);
        z = narrow_at(ranks, skip + FOURTH, z);
    }
    Conditions {
        lo: [w.lo, x.lo, y.lo, z.lo],
        hi: [w.hi, x.hi, y.hi, z.hi],
        mask: [0; MOST_VARIABLES],
    }
}

// The bits of the least values of node n, which has four numbers; whether each has one left.
#[tactic(auto, using(crate::proofs::FourLeast::stored_init))]
fn least_numbers(policies: &Policies, n: usize, bits: &mut [u32; MOST_VARIABLES]) -> bool
    requires n_in_bounds { n < length (schema_of policies.now.schema.bytes.now) }
    requires n_value { four_numbers (node_at (schema_of policies.now.schema.bytes.now) n).variables ≡ true }
    ensures { LeastIn (schema_of policies.now.schema.bytes.now) n (combined (schema_of policies.now.schema.bytes.now) (noted (schema_of policies.now.schema.bytes.now) policies.now.bytes.now policies.now.rows.now) n) bits.new result }
{
    let conditions = combine_numbers(policies, n);
    for k in 0..MOST_VARIABLES {
        bits[k] = conditions.lo[k].cast_unsigned();
    }
    conditions.have_numbers()
}

// The bits of node n's least values, found one after the other; whether each variable has one left.
#[tactic(auto, using(instances::proofs::Slots::place_inside))]
fn least_each(policies: &Policies, n: usize, bits: &mut [u32; MOST_VARIABLES]) -> bool
    requires { n < length (schema_of policies.now.schema.bytes.now) }
    ensures { LeastIn (schema_of policies.now.schema.bytes.now) n (combined (schema_of policies.now.schema.bytes.now) (noted (schema_of policies.now.schema.bytes.now) policies.now.bytes.now policies.now.rows.now) n) bits.new result }
{
    let schema = &policies.schema;
    let offsets = policies.offsets(n);
    let mut conditions = Conditions::new();
    let mut skip = schema.rank_count(n);
    for k in 0..schema.variable_count(n) {
        let v = schema.variable(n, k);
        conditions.combine(k, v, policies.bytes, offsets, skip);
        match conditions.least(k, v) {
            None => {
                return false;
            }
            Some(u) => {
                bits[k] = u;
            }
        }
        skip += policies::span(v);
    }
    true
}

// The bits of node n's least values, under all conditions; whether each variable has one left.
#[tactic(auto, using(crate::proofs::Numbers::four_told))]
pub fn least_values(policies: &Policies, n: usize, bits: &mut [u32; MOST_VARIABLES]) -> bool
    requires { n < length (schema_of policies.now.schema.bytes.now) }
    ensures { LeastIn (schema_of policies.now.schema.bytes.now) n (combined (schema_of policies.now.schema.bytes.now) (noted (schema_of policies.now.schema.bytes.now) policies.now.bytes.now policies.now.rows.now) n) bits.new result }
{
    if policies.schema.variable_count(n) == 0 {
        return true;
    }
    if has_four_numbers(&policies.schema, n) {
        return least_numbers(policies, n, bits);
    }
    least_each(policies, n, bits)
}

// Whether the condition of variable v that stands so far from the first rank of the PN whose ranks begin at an offset admits the
// value with these bits.
#[tactic(auto, unfolding(schema::specs::Layout::span))]
fn condition_admits(p: &[u8], at: usize, skip: usize, v: Variable, bits: u32) -> bool
    requires { at + (skip + span v) ≤ length p.now }
    ensures { result ≡ admits v (condition_in p.now skip v at) (value_of v bits) }
{
    let ranks = &p[at..];
    match v {
        Variable::Number { .. } => {
            let x = bits.cast_signed();
            i32::get(ranks, skip) <= x && x <= i32::get(ranks, skip + 4)
        }
        Variable::Listed { .. } => {
            let mask = u64::from(u32::get(ranks, skip));
            bits < 32 && numbers::has(mask, bits as usize)
        }
    }
}

// Whether those that stand so far from the offsets all do.
fn conditions_admit(p: &[u8], offsets: &[u16], skip: usize, v: Variable, bits: u32) -> bool
    requires { All (λ o. o + (skip + span v) ≤ length p.now) offsets.now }
    ensures { result ≡ list_all (λ (o : ℕ). admits v (condition_in p.now skip v o) (value_of v bits)) offsets.now }
{
    offsets
        .iter()
        .all(|at| condition_admits(p, usize::from(*at), skip, v, bits))
}

// Whether every policy that the rows note admits the value with these bits of node n's variable k, whose condition stands so
// far from the first rank.
#[tactic(auto, using(crate::proofs::Row::row_bytes))]
pub fn is_admitted(policies: &Policies, n: usize, k: usize, skip: usize, bits: u32) -> bool
    requires node_in { n < length (schema_of policies.now.schema.bytes.now) }
    requires k_in_bounds { k < length (node_at (schema_of policies.now.schema.bytes.now) n).variables }
    requires skip_value { skip ≡ offset_of (node_at (schema_of policies.now.schema.bytes.now) n) k }
    ensures { result ≡ admitted (noted (schema_of policies.now.schema.bytes.now) policies.now.bytes.now policies.now.rows.now) n k (variable_at (schema_of policies.now.schema.bytes.now) n k) (value_of (variable_at (schema_of policies.now.schema.bytes.now) n k) bits) }
{
    let v = policies.schema.variable(n, k);
    conditions_admit(policies.bytes, policies.offsets(n), skip, v, bits)
}
