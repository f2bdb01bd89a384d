// The pass, the numbers of a policies file, and the policies that rows note.
#![tactic(auto)]

ghost use Rattle.std.specs.Prelude.{◌≡◌, ◌<◌, ◌≤◌, length};
ghost use Rattle.fields.specs.Answers.{as_check, end_of};
ghost use Rattle.schema.specs.Schema.{schema_of};
ghost use Rattle.schema.specs.Layout.{span};
ghost use Rattle.policies.specs.Pass.{pass};
ghost use Rattle.policies.specs.Rows.{Noted, RulesAt, note, offsets_of, offsets_in};

use fields::{Breach, Fault};
use nodes::Schema;
use schema::Variable;

// A file has at most so many policies.
pub const MOST_POLICIES: usize = 16;

// The bytes of a condition: a range's, a mask's.
pub const RANGE_WIDTH: usize = 8;

pub const MASK_WIDTH: usize = 4;

// The policies that name a node: how many, and where the ranks of each PN begin.
#[derive(Clone, Copy)]
pub struct Row {
    pub count: u16,
    pub offsets: [u16; MOST_POLICIES],
}

// The row of a node that no policy names.
pub const NO_POLICIES: Row = Row {
    count: 0,
    offsets: [0; MOST_POLICIES],
};

impl Row {
    // One more PN, whose ranks begin at an offset.
    pub fn note(&mut self, offset: usize)
        requires { self.old.count < MOST_POLICIES }
        ensures { self.new ≡ note offset self.old }
    {
        self.offsets[usize::from(self.count)] = (offset % 65536) as u16;
        self.count += 1;
    }

    // Where the ranks of each PN begin.
    pub fn offsets(&self) -> &[u16]
        requires { self.now.count ≤ MOST_POLICIES }
        ensures { result.now ≡ offsets_of self.now }
    {
        &self.offsets[..usize::from(self.count)]
    }
}

// Whether a pass may have these days.
#[tactic(auto, using(crate::proofs::Pass::pass_early, crate::proofs::Pass::pass_late))]
pub fn check_pass(a: u16, b: u16) -> Result<(), Breach>
    ensures { as_check result ≡ end_of (pass a b) }
{
    if b < a || 1 < b - a {
        return Err(Breach::new(Fault::Pass, 0));
    }
    Ok(())
}

// How many bytes the condition of a variable has.
#[tactic(auto, unfolding(schema::specs::Layout::span))]
pub fn span(v: Variable) -> usize
    ensures { result ≡ span v }
{
    match v {
        Variable::Number { .. } => RANGE_WIDTH,
        Variable::Listed { .. } => MASK_WIDTH,
    }
}

// The policies that rows note, under an accepted schema: the bytes of their file, and for each node where the ranks of its PN
// begin.
#[derive(Clone, Copy)]
pub struct Policies<'a> {
    pub schema: Schema<'a>,
    pub bytes: &'a [u8],
    pub rows: &'a [Row],
    pub ghost noted: { Noted schema.bytes.now bytes.now rows.now },
}

impl<'a> Policies<'a> {
    // Where the ranks of each PN of node n begin.
    pub fn offsets(&self, n: usize) -> &'a [u16]
        requires { n < length (schema_of self.now.schema.bytes.now) }
        ensures is { result.now ≡ offsets_in self.now.rows.now n }
        ensures rules_at { RulesAt (schema_of self.now.schema.bytes.now) self.now.bytes.now n result.now }
    {
        self.rows[n].offsets()
    }
}
