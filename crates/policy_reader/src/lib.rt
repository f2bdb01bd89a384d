// The reader of policies files.
#![tactic(auto)]

ghost use Rattle.std.specs.Prelude.{◌≡◌, ◌&&◌, ◌+◌, ◌^◌, ◌<◌, ◌≤◌, length, drop, eqb, leb};
ghost use Rattle.fields.specs.Reading.{be};
ghost use Rattle.fields.specs.Answers.{as_got};
ghost use Rattle.fields.specs.Runs.{outcome, run_of};
ghost use Rattle.schema.specs.Schema.{schema_of};
ghost use Rattle.policies.specs.Policies.{rule, head, policy};
ghost use Rattle.policies.specs.Rows.{RowsRoom};
ghost use Rattle.policy_reader.specs.Body.{excess_of, masks_fit, Looking, is_whole, is_good, is_next, Shape, Shapes};
ghost use Rattle.policy_reader.specs.Runs.{head_read, rule_read, note_if, note_in_force, left_of, Room, Open, Taken, RowEnd, Ready, Turned};
ghost use Rattle.policy_reader.specs.Answers.{YieldsPolicies};

use fields::{BigEndian, Breach, Fault};
use nodes::Laid;
use policies::{MOST_POLICIES, Row};
use reading::{read, read_mark};
use schema::Layout;

// A policy's head: its days, and how many PN follow.
#[derive(Clone, Copy)]
struct Head {
    first: u16,
    last: u16,
    count: u8,
}

// How far the PN of a policy were read: the lowest node that may follow, and the position.
#[derive(Clone, Copy)]
struct Progress {
    low: usize,
    at: usize,
}

// The head of the policy that the slice begins with, and the position after it.
#[tactic(auto, using(crate::proofs::File::head_bad, crate::proofs::File::head_ok), unfolding(fields::specs::Reading::part, fields::specs::Reading::field, policies::specs::Policies::head))]
fn read_head(b: &[u8]) -> Result<(Head, usize), Breach>
    ensures { as_got result ≡ head_read (head b.now) }
{
    let at = read_mark(b, 0, b"PH")?;
    let (first, at) = read::<u16>(b, at)?;
    let (last, next) = read::<u16>(b, at)?;
    if last < first {
        return Err(Breach::new(Fault::Days, at));
    }
    let (count, next) = read::<u8>(b, next)?;
    Ok((Head { first, last, count }, next))
}

// The bits of a mask that no value of its variable has, as a number: that of a node's variable k, in a PN whose ranks begin at
// a position; 0 where the variable is a number.
#[tactic(auto, using(crate::proofs::Body::mask_spare, crate::proofs::Body::mask_there, crate::proofs::Body::mask_fits))]
fn excess(layout: &Layout, k: usize, b: &[u8], from: usize) -> u32
    requires looking { Looking layout.now b.now from }
    requires k_bound { k < 4 }
    ensures { result ≡ excess_of layout.now b.now from k }
{
    let skip = layout.skips[k] as usize;
    let spare = layout.spares[k];
    numbers::highest(u32::get(b, from + skip), u16::from(spare))
}

// Whether the masks of a node fit their variables, in a PN whose ranks begin at a position: all four at once, without a branch.
fn masks_good(layout: &Layout, b: &[u8], from: usize) -> bool
    requires { Looking layout.now b.now from }
    ensures { result ≡ masks_fit layout.now b.now from }
{
    let w = excess(layout, 0, b, from) as u64;
    let x = excess(layout, 1, b, from) as u64;
    let y = excess(layout, 2, b, from) as u64;
    let z = excess(layout, 3, b, from) as u64;
    (w + x) + (y + z) == 0
}

// Whether the letters of a mark stand at a position, compared at once.
fn is_marked(b: &[u8], at: usize, m: &[u8; 2]) -> bool
    requires { at + 2 ≤ length b.now }
    ensures { result ≡ eqb (be 2 b.now at) (be 2 m.now 0) }
{
    u16::get(b, at) == u16::get(m, 0)
}

// Whether a PN of so many bytes stands at a position, by its length and its mark.
fn is_whole(b: &[u8], width: usize, at: usize) -> bool
    requires le_width { 3 ≤ width }
    requires at_in_bounds { at ≤ length b.now }
    ensures { result ≡ is_whole b.now width at }
{
    if b.len() - at < width {
        return false;
    }
    is_marked(b, at, b"PN")
}

// Whether a PN of a node stands at a position, by one test of the length, then of the mark and the masks.
#[tactic(auto, using(crate::proofs::Body::good_not, crate::proofs::Body::good_bare, crate::proofs::Body::good_masks, crate::proofs::Body::good_looking))]
fn is_good(layout: &Layout, b: &[u8], at: usize) -> bool
    requires shape { Shape layout.now }
    requires at_in_bounds { at ≤ length b.now }
    ensures { result ≡ is_good layout.now b.now at }
{
    if is_whole(b, layout.rule_width as usize, at) {
        if layout.masks == 0 {
            return true;
        }
        return masks_good(layout, b, at + 3);
    }
    false
}

// The same, where the node that the PN names is not known to be n, whose layout is given.
#[tactic(auto, using(crate::proofs::Body::node_there, crate::proofs::Body::good_looking, crate::proofs::Body::next_other, crate::proofs::Body::next_not))]
fn is_next(layout: &Layout, n: usize, b: &[u8], at: usize) -> bool
    requires shape { Shape layout.now }
    requires at_in_bounds { at ≤ length b.now }
    ensures { result ≡ is_next layout.now b.now n at }
{
    if is_whole(b, layout.rule_width as usize, at) {
        if usize::from(b[at + 2]) == n {
            if layout.masks == 0 {
                return true;
            }
            return masks_good(layout, b, at + 3);
        }
        return false;
    }
    false
}

// A PN of node n whose ranks begin at an offset of the file, noted in the node's row, if its policy is kept.
#[tactic(auto, using(crate::proofs::Rules::if_not))]
fn note_if(keep: bool, n: usize, offset: usize, rows: &mut [Row])
    requires { Room rows.old n }
    ensures { rows.new ≡ note_if keep n offset rows.old }
{
    if keep {
        rows[n].note(offset);
    }
}

// The PN of the nodes from 0 on that stand in a row: a loop of its own, in which the node is known before the PN is read, so
// that one PN need not wait for the one before it. It walks over what is left of the policy, which the next PN begins.
#[tactic(auto, using(crate::proofs::Rules::row_all, crate::proofs::Rules::row_room, crate::proofs::Rules::row_shape, crate::proofs::Rules::row_layout, crate::proofs::Rules::row_part, crate::proofs::Rules::row_end))]
fn take_row(
    layouts: &[Layout],
    count: usize,
    b: &[u8],
    head: usize,
    from: usize,
    keep: bool,
    rows: &mut [Row],
) -> Progress
    requires shapes { Shapes layouts.now count }
    requires b_bound { head + length b.now < 2 ^ 64 }
    requires from_in_bounds { from ≤ length b.now }
    requires fact { Open count 0 rows.old }
    ensures { Taken layouts.now b.now keep head from rows.old count result.low result.at rows.new }
{
    let mut rest = &b[from..];
    let mut at = from;
    for low in 0..count {
        let layout = &layouts[low];
        if !is_next(layout, low, rest, 0) {
            return Progress { low, at };
        }
        let width = usize::from(layout.rule_width);
        note_if(keep, low, head + at + 3, rows);
        rest = &rest[width..];
        at += width;
    }
    Progress { low: count, at }
}

// A PN, of a node not below the lowest that may follow, field by field: its node, and the position after it.
#[tactic(auto, using(crate::proofs::Rules::rule_bad, crate::proofs::Rules::rule_low, crate::proofs::Rules::rule_high, crate::proofs::Rules::rule_refused, crate::proofs::Rules::rule_named), unfolding(fields::specs::Reading::part, fields::specs::Reading::field, policies::specs::Policies::rule))]
fn read_rule(
    schema: &Laid,
    count: usize,
    b: &[u8],
    from: Progress,
) -> Result<(usize, usize), Breach>
    requires { count ≡ length (schema_of schema.now.bytes.now) }
    ensures { as_got result ≡ rule_read (rule (schema_of schema.now.bytes.now) b.now from.low from.at) }
{
    let at = read_mark(b, from.at, b"PN")?;
    let (node, body) = read::<u8>(b, at)?;
    let node = usize::from(node);
    if node < from.low || count <= node {
        return Err(Breach::new(Fault::Node, at));
    }
    let accepted = schema.accepted();
    let next = rule_reader::read_fields(&accepted, node, b, body)?;
    Ok((node, next))
}

// The same, at once where it is plainly good.
#[tactic(auto, using(crate::proofs::Rules::take_inside, crate::proofs::Rules::good_end))]
fn take_rule(
    schema: &Laid,
    count: usize,
    b: &[u8],
    from: Progress,
) -> Result<(usize, usize), Breach>
    requires counted { count ≡ length (schema_of schema.now.bytes.now) }
    requires at_in_bounds { from.at ≤ length b.now }
    ensures { as_got result ≡ rule_read (rule (schema_of schema.now.bytes.now) b.now from.low from.at) }
{
    let at = from.at;
    if 3 <= b.len() - at {
        let node = usize::from(b[at + 2]);
        if from.low <= node && node < count && is_good(&schema.layouts[node], b, at) {
            let next = at + (schema.layouts[node].rule_width as usize);
            return Ok((node, next));
        }
    }
    read_rule(schema, count, b, from)
}

// The n PN of a policy from a position on, of nodes not below the lowest, noted if it is kept.
#[tactic(auto, using(crate::proofs::Rules::rest_init))]
fn take_rest(
    schema: &Laid,
    count: usize,
    b: &[u8],
    head: usize,
    n: usize,
    from: Progress,
    keep: bool,
    rows: &mut [Row],
) -> Result<usize, Breach>
    requires counted { count ≡ length (schema_of schema.now.bytes.now) }
    requires b_bound { head + length b.now < 2 ^ 64 }
    requires at_in_bounds { from.at ≤ length b.now }
    requires fact { Open count from.low rows.old }
    ensures { outcome result rows.new ≡ left_of (schema_of schema.now.bytes.now) b.now keep head n from.low from.at rows.old }
{
    let mut row = from;
    for _turn in 0..n {
        let (node, next) = take_rule(schema, count, b, row)?;
        note_if(keep, node, head + row.at + 3, rows);
        row = Progress {
            low: node + 1,
            at: next,
        };
    }
    Ok(row.at)
}

// The node up to which n PN may stand in a row: where there is one for each node, all do.
fn row_end(n: usize, count: usize) -> usize
    ensures { RowEnd n count result }
{
    if n == count { count } else { 0 }
}

// The n PN of a policy, noted if it is kept. As a rule there is one for each node: then they stand in a row.
#[tactic(auto, using(crate::proofs::Rules::open_end, crate::proofs::Rules::row_open))]
fn read_rules(
    schema: &Laid,
    b: &[u8],
    head: usize,
    n: usize,
    from: usize,
    keep: bool,
    rows: &mut [Row],
) -> Result<usize, Breach>
    requires b_bound { head + length b.now < 2 ^ 64 }
    requires from_in_bounds { from ≤ length b.now }
    requires fact { Open (length (schema_of schema.now.bytes.now)) 0 rows.old }
    ensures { outcome result rows.new ≡ left_of (schema_of schema.now.bytes.now) b.now keep head n 0 from rows.old }
{
    let count = schema.count;
    let row = take_row(schema.layouts, row_end(n, count), b, head, from, keep, rows);
    take_rest(schema, count, b, head, n - row.low, row, keep, rows)
}

// Whether a policy of these days is in force in the pass from a to b.
fn is_in_force(first: u16, last: u16, a: u16, b: u16) -> bool
    ensures { result ≡ (leb first b && leb a last) }
{
    first <= b && a <= last
}

// The policy whose head stands at an offset of the file, read on its own stretch, and noted if it is in force.
#[tactic(auto, using(crate::proofs::File::policy_bad, crate::proofs::File::policy_rules, crate::proofs::File::rules_inside, crate::proofs::File::stretch_fits))]
fn read_policy(
    schema: &Laid,
    p: &[u8],
    head: usize,
    a: u16,
    b: u16,
    rows: &mut [Row],
) -> Result<usize, Breach>
    requires head_in_bounds { head ≤ length p.now }
    requires fact { Open (length (schema_of schema.now.bytes.now)) 0 rows.old }
    ensures { outcome result rows.new ≡ run_of (note_in_force a b head) (policy (schema_of schema.now.bytes.now) (drop head p.now)) rows.old }
{
    let own = &p[head..];
    let (h, next) = read_head(own)?;
    let keep = is_in_force(h.first, h.last, a, b);
    let n = usize::from(h.count);
    read_rules(schema, own, head, n, next, keep, rows)
}

// The turn at an offset of the file, after j policies: the offset after one more, or none where the file ends.
fn turn_at(
    schema: &Laid,
    p: &[u8],
    at: usize,
    j: usize,
    a: u16,
    b: u16,
    rows: &mut [Row],
) -> Result<Option<usize>, Breach>
    requires { Ready schema.now.bytes.now j rows.old }
    ensures { Turned (schema_of schema.now.bytes.now) p.now a b j at rows.old result rows.new }
{
    if p.len() <= at {
        return Ok(None);
    }
    if j == MOST_POLICIES {
        return Err(Breach::new(Fault::PolicyCount, at));
    }
    match read_policy(schema, p, at, a, b, rows) {
        Ok(width) => Ok(Some(at + width)),
        Err(e) => Err(Breach::new(e.fault, at + e.offset)),
    }
}

// A walker over the policies file: its bytes and a position in them.
#[derive(Clone, Copy)]
struct Walker<'a> {
    bytes: &'a [u8],
    at: usize,
}

// The whole file, in turn with the pass from a to b: checked, and where it is accepted the rows note the policies in force.
// A walker goes from head to head; what a turn does stands in a function of a slice and numbers.
#[tactic(auto, using(crate::proofs::File::turn_ready))]
pub fn read_policies(
    schema: &Laid,
    p: &[u8],
    a: u16,
    b: u16,
    rows: &mut [Row],
) -> Result<usize, Breach>
    requires { RowsRoom schema.now.bytes.now rows.old }
    ensures { YieldsPolicies schema.now.bytes.now p.now a b result rows.new }
{
    let mut w = Walker { bytes: p, at: 0 };
    let mut j = 0;
    while let Some(next) = turn_at(schema, w.bytes, w.at, j, a, b, rows)? {
        w.at = next;
        j += 1;
    }
    Ok(w.at)
}
