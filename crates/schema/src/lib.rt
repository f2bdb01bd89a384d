// The reader of schema files: as it reads, it lays out what the crates above ask of each node.
#![tactic(auto, unfolding(fields::specs::Reading::part, fields::specs::Reading::field, crate::specs::Schema::listed, crate::specs::Schema::number, crate::specs::Schema::variable))]

ghost use Rattle.std.specs.Prelude.{◌≡◌, cond, ◌+◌, ◌<◌, ◌≤◌, eqb};
ghost use Rattle.fields.specs.Answers.{as_got};
ghost use Rattle.fields.specs.Runs.{outcome, run_of};
ghost use Rattle.schema.specs.Schema.{most_nodes, number, listed, variable, variables, variables_of, successors, links, node, nodes, body, schema};
ghost use Rattle.schema.specs.Layout.{span};
ghost use Rattle.schema.specs.Table.{fill_nodes, put_variable, put_variables, put_node, made, linked, count_in, AtMost, Room, RoomFor, YieldsSchema};

use fields::{Breach, Fault};
use reading::{read, read_mark};

// A schema has at most so many nodes, a node at most so many successors and variables.
const NODES: u8 = 64;

const SUCCESSORS: u8 = 8;

const VARIABLES: u8 = 4;

// The same, for the tables of what is made of a schema.
pub const MOST_NODES: usize = NODES as usize;

pub const MOST_SUCCESSORS: usize = SUCCESSORS as usize;

pub const MOST_VARIABLES: usize = VARIABLES as usize;

// Where the parts of a node stand, in its record and in a PN of it, and its successors as a set: what the crates above ask of it.
#[derive(Clone, Copy)]
pub struct Layout {
    // Where its record begins, and each of its variables.
    pub start: u16,
    pub variables: [u16; MOST_VARIABLES],
    // The bytes of its PN, and how many masks that has.
    pub rule_width: u16,
    pub masks: u8,
    // How many ranks it has in a PN, and how many variables.
    pub ranks: u8,
    pub variable_count: u8,
    // For a listed variable: how far its mask stands from the first rank, and how many of its bits no value has; 0 for a number.
    pub skips: [u8; MOST_VARIABLES],
    pub spares: [u8; MOST_VARIABLES],
    pub successors: u64,
}

// The layout of no node.
pub const NO_LAYOUT: Layout = Layout {
    start: 0,
    variables: [0; MOST_VARIABLES],
    rule_width: 0,
    masks: 0,
    ranks: 0,
    variable_count: 0,
    skips: [0; MOST_VARIABLES],
    spares: [0; MOST_VARIABLES],
    successors: 0,
};

// The bytes of a condition.
const RANGE_WIDTH: u8 = 8;

const MASK_WIDTH: u8 = 4;

// A variable of a node.
#[derive(Clone, Copy)]
pub enum Variable {
    Number { lo: i32, hi: i32 },
    Listed { size: u8 },
}

// A node's successors, as a set and how many.
#[derive(Clone, Copy)]
struct Successors {
    set: u64,
    count: u8,
}

fn read_listed(s: &[u8], at: usize) -> Result<(Variable, usize), Breach>
    ensures { as_got result ≡ listed s.now at }
{
    let (size, next) = read::<u8>(s, at)?;
    if size == 0 || 32 < size {
        return Err(Breach::new(Fault::Variable, at));
    }
    Ok((Variable::Listed { size }, next))
}

fn read_number(s: &[u8], from: usize) -> Result<(Variable, usize), Breach>
    ensures { as_got result ≡ number s.now from }
{
    let (lo, at) = read::<i32>(s, from)?;
    let (hi, next) = read::<i32>(s, at)?;
    if lo <= hi {
        return Ok((Variable::Number { lo, hi }, next));
    }
    Err(Breach::new(Fault::Variable, at))
}

fn read_variable(s: &[u8], at: usize) -> Result<(Variable, usize), Breach>
    ensures { as_got result ≡ variable s.now at }
{
    let (kind, next) = read::<u8>(s, at)?;
    match kind {
        0 => read_number(s, next),
        1 => read_listed(s, next),
        _ => Err(Breach::new(Fault::Variable, at)),
    }
}

// Variable j of a layout, which begins at an offset and whose condition stands so far from the first rank; the skip after it.
#[tactic(auto, unfolding(fields::specs::Shorts::short, crate::specs::Layout::span, crate::specs::Layout::spare_of, crate::specs::Table::mask_count))]
fn put_variable(j: usize, at: usize, skip: u8, v: Variable, layout: &mut Layout) -> u8
    requires place { j < 4 }
    requires light { skip ≤ 40 }
    requires few { layout.old.masks ≤ 4 }
    ensures written { layout.new ≡ put_variable j at skip v layout.old }
    ensures after { result ≡ skip + span v }
{
    layout.variables[j] = (at % 65536) as u16;
    match v {
        Variable::Number { .. } => {
            layout.skips[j] = 0;
            layout.spares[j] = 0;
            skip + RANGE_WIDTH
        }
        Variable::Listed { size } => {
            layout.skips[j] = skip;
            layout.spares[j] = 32u8.saturating_sub(size);
            layout.masks += 1;
            skip + MASK_WIDTH
        }
    }
}

// So many variables: their part of a layout, in a PN with so many ranks. It is written into a layout that is lent; after a refusal that holds anything.
#[tactic(auto, using(crate::proofs::Laying::variables_init, crate::proofs::Laying::variables_light, crate::proofs::Laying::variables_few, crate::proofs::Laying::variables_refused))]
fn read_variables(
    s: &[u8],
    count: u8,
    ranks: u8,
    from: usize,
    layout: &mut Layout,
) -> Result<usize, Breach>
    requires few { count ≤ 4 }
    requires ranks_bound { ranks ≤ 8 }
    ensures { outcome result layout.new ≡ run_of (put_variables ranks from) (variables s.now count from) layout.old }
{
    layout.variables = [0; MOST_VARIABLES];
    layout.masks = 0;
    layout.skips = [0; MOST_VARIABLES];
    layout.spares = [0; MOST_VARIABLES];
    layout.ranks = ranks;
    layout.variable_count = count;
    let mut at = from;
    let mut skip = ranks;
    for j in 0..usize::from(count) {
        let (v, next) = read_variable(s, at)?;
        skip = put_variable(j, at, skip, v, layout);
        at = next;
    }
    layout.rule_width = u16::from(3 + skip);
    Ok(at)
}

#[tactic(auto, using(crate::proofs::Laying::variables_of_ok), unfolding(fields::specs::Reading::part, fields::specs::Reading::field, crate::specs::Schema::variables_of))]
fn read_variables_of(s: &[u8], ranks: u8, at: usize, layout: &mut Layout) -> Result<usize, Breach>
    requires ranks_bound { ranks ≤ 8 }
    ensures { outcome result layout.new ≡ run_of (put_variables ranks (at + 1)) (variables_of s.now at) layout.old }
{
    let (count, next) = read::<u8>(s, at)?;
    if VARIABLES < count {
        return Err(Breach::new(Fault::Variable, at));
    }
    read_variables(s, count, ranks, next, layout)
}

#[tactic(auto, using(crate::proofs::Reader::successors_init, crate::proofs::Reader::successors_cut, crate::proofs::Reader::successors_low, crate::proofs::Reader::successors_high, crate::proofs::Reader::successors_exit), unfolding(fields::specs::Reading::part, fields::specs::Reading::field))]
fn read_successors(
    s: &[u8],
    count: u8,
    own: u8,
    c: u8,
    from: usize,
) -> Result<(Successors, usize), Breach>
    requires { count ≤ most_nodes }
    ensures { as_got result ≡ made linked (successors s.now count own c from) }
{
    let mut above = own;
    let mut set = 0;
    let mut at = from;
    for _turn in 0..c {
        let (x, next) = read::<u8>(s, at)?;
        if x <= above || count <= x {
            return Err(Breach::new(Fault::Successor, at));
        }
        set = numbers::insert(set, x as usize);
        above = x;
        at = next;
    }
    Ok((Successors { set, count: c }, at))
}

#[tactic(auto, unfolding(fields::specs::Reading::part, fields::specs::Reading::field, crate::specs::Schema::links))]
fn read_links(
    s: &[u8],
    count: u8,
    own: u8,
    kind: u8,
    at: usize,
) -> Result<(Successors, usize), Breach>
    requires { count ≤ most_nodes }
    ensures { as_got result ≡ made linked (links s.now count own kind at) }
{
    let (c, next) = read::<u8>(s, at)?;
    if SUCCESSORS < c || c == 0 && kind != 1 {
        return Err(Breach::new(Fault::Links, at));
    }
    read_successors(s, count, own, c, next)
}

// How many ranks a PN of a node has.
#[tactic(auto, using(crate::proofs::Reader::ranks_one, crate::proofs::Reader::ranks_none))]
fn rank_count(kind: u8, count: u8) -> u8
    requires { count ≤ 8 }
    ensures { AtMost 8 (cond (eqb kind 1) count 0) result }
{
    if kind == 1 { count } else { 0 }
}

#[tactic(auto, using(crate::proofs::Laying::links_few), unfolding(fields::specs::Reading::part, fields::specs::Reading::field, crate::specs::Schema::node))]
fn read_node(
    s: &[u8],
    count: u8,
    own: u8,
    from: usize,
    layout: &mut Layout,
) -> Result<usize, Breach>
    requires { count ≤ most_nodes }
    ensures { outcome result layout.new ≡ run_of (put_node from) (node s.now count own from) layout.old }
{
    let at = read_mark(s, from, b"SN")?;
    let (kind, next) = read::<u8>(s, at)?;
    if 1 < kind {
        return Err(Breach::new(Fault::Links, at));
    }
    let (successors, at) = read_links(s, count, own, kind, next)?;
    layout.start = (from % 65536) as u16;
    layout.successors = successors.set;
    read_variables_of(s, rank_count(kind, successors.count), at, layout)
}

#[tactic(auto, using(crate::proofs::Fill::nodes_init, crate::proofs::Fill::nodes_room, crate::proofs::Fill::nodes_refused, crate::proofs::Fill::nodes_step, crate::proofs::Fill::nodes_exit))]
fn read_nodes(s: &[u8], count: u8, from: usize, layouts: &mut [Layout]) -> Result<usize, Breach>
    requires { RoomFor count layouts.old }
    ensures { outcome result layouts.new ≡ run_of (fill_nodes 0 from) (nodes s.now count count 0 from) layouts.old }
{
    let mut at = from;
    for own in 0..count {
        at = read_node(s, count, own, at, &mut layouts[own as usize])?;
    }
    Ok(at)
}

#[tactic(auto, using(crate::proofs::Fill::body_bad, crate::proofs::Fill::body_rest, crate::proofs::Fill::body_ok))]
fn read_body(s: &[u8], count: u8, from: usize, layouts: &mut [Layout]) -> Result<usize, Breach>
    requires { RoomFor count layouts.old }
    ensures { outcome result layouts.new ≡ run_of (fill_nodes 0 from) (body s.now count from) layouts.old }
{
    let at = read_nodes(s, count, from, layouts)?;
    if at < s.len() {
        return Err(Breach::new(Fault::Remainder, at));
    }
    Ok(at)
}

// The count that a file tells, for the choice of its tables.
pub fn count_in(s: &[u8]) -> usize
    ensures { result ≡ count_in s.now }
{
    s.get(2).copied().map_or(0, usize::from)
}

// The whole file, into layouts that are lent; if it is refused they hold anything.
#[tactic(auto, using(crate::proofs::Fill::schema_bad, crate::proofs::Fill::schema_room, crate::proofs::Fill::schema_ok), unfolding(fields::specs::Reading::part, fields::specs::Reading::field, crate::specs::Schema::schema))]
pub fn read_schema(s: &[u8], layouts: &mut [Layout]) -> Result<usize, Breach>
    requires { Room s.now layouts.old }
    ensures { YieldsSchema s.now result layouts.new }
{
    let at = read_mark(s, 0, b"SH")?;
    let (count, next) = read::<u8>(s, at)?;
    if count == 0 || NODES < count {
        return Err(Breach::new(Fault::NodeCount, at));
    }
    read_body(s, count, next, layouts)
}
