// A schema with the layouts of its nodes, what it tells of them, and how many layouts a table has.
#![tactic(auto, using(crate::proofs::Nodes::of_nodes))]

ghost use Rattle.std.specs.Prelude.{ℕ, ◌≡◌, true, ◌<◌, ◌≤◌, length, get_or};
ghost use Rattle.std.specs.List.{All};
ghost use mir.Val.{Fits};
ghost use mir.Syntax.{w8};
ghost use Rattle.schema.specs.Schema.{most_nodes, schema_of, node_at, variable_at, is_number};
ghost use Rattle.schema.specs.declared.Variable.TheVariants.{Number};
ghost use Rattle.schema.specs.Layout.{rank_count};
ghost use Rattle.schema.specs.Table.{successor_set, Accepted, Tabled, AtMost};

use fields::BigEndian;
use schema::{Layout, Variable};

// Few nodes have shorter tables, which are sooner cleared.
pub const FEW_NODES: usize = 16;

// And so have the fewest.
pub const FEWEST_NODES: usize = 4;

// The least and the greatest value of a number.
#[derive(Clone, Copy)]
pub struct Bounds {
    pub lo: i32,
    pub hi: i32,
}

// The number of nodes of an accepted schema's file.
pub fn count_of(s: &[u8]) -> usize
    requires { Accepted s.now }
    ensures { AtMost most_nodes (length (schema_of s.now)) result }
{
    usize::from(s[2])
}

// The nodes of a schema's file, as its reader laid them out, and how many there are: none where the file is refused.
#[derive(Clone, Copy)]
pub struct Laid<'a> {
    pub bytes: &'a [u8],
    pub layouts: &'a [Layout],
    pub count: usize,
    pub ghost tabled: { Tabled bytes.now layouts.now },
    pub ghost counted: { count ≡ length (schema_of bytes.now) },
    pub ghost bytes_fit: { (k : ℕ) → Fits w8 (get_or bytes.now k 0) },
}

impl<'a> Laid<'a> {
    // The schema, which is accepted where there is a node.
    pub fn accepted(&self) -> Schema<'a>
        requires { 0 < self.now.count }
        ensures same_bytes { result.bytes.now ≡ self.now.bytes.now }
        ensures same_layouts { result.layouts.now ≡ self.now.layouts.now }
    {
        let bytes = self.bytes;
        let layouts = self.layouts;
        Schema { bytes, layouts }
    }
}

// An accepted schema: the bytes of its file, and the layouts that its reader filled.
#[derive(Clone, Copy)]
pub struct Schema<'a> {
    pub bytes: &'a [u8],
    pub layouts: &'a [Layout],
    pub ghost accepted: { Accepted bytes.now },
    pub ghost tabled: { Tabled bytes.now layouts.now },
    pub ghost bytes_fit: { (k : ℕ) → Fits w8 (get_or bytes.now k 0) },
}

impl<'a> Schema<'a> {
    // The same for whom a refused schema would do too.
    pub fn laid(&self) -> Laid<'a>
        ensures same_bytes { result.bytes.now ≡ self.now.bytes.now }
        ensures same_layouts { result.layouts.now ≡ self.now.layouts.now }
    {
        Laid {
            bytes: self.bytes,
            layouts: self.layouts,
            count: self.node_count(),
        }
    }

    // The number of nodes.
    pub fn node_count(&self) -> usize
        ensures { AtMost most_nodes (length (schema_of self.now.bytes.now)) result }
    {
        count_of(self.bytes)
    }

    // Node n's successors, as its record has them: at most eight nodes, each above n.
    pub fn successors(&self, n: usize) -> &'a [u8]
        requires { n < length (schema_of self.now.bytes.now) }
        ensures is { result.now ≡ (node_at (schema_of self.now.bytes.now) n).successors }
        ensures few { length result.now ≤ 8 }
        ensures above { All (λ x. n < x) result.now }
        ensures below { All (λ x. x < length (schema_of self.now.bytes.now)) result.now }
    {
        let at = usize::from(self.layouts[n].start);
        let first = at + 4;
        let count = usize::from(self.bytes[at + 3]);
        &self.bytes[first..first + count]
    }

    // The same as a set.
    pub fn successor_set(&self, n: usize) -> u64
        requires { n < length (schema_of self.now.bytes.now) }
        ensures { result ≡ successor_set (node_at (schema_of self.now.bytes.now) n) }
    {
        self.layouts[n].successors
    }

    // The number of node n's variables.
    pub fn variable_count(&self, n: usize) -> usize
        requires { n < length (schema_of self.now.bytes.now) }
        ensures { AtMost 4 (length (node_at (schema_of self.now.bytes.now) n).variables) result }
    {
        usize::from(self.layouts[n].variable_count)
    }

    // The number of ranks that node n has in a PN.
    pub fn rank_count(&self, n: usize) -> usize
        requires { n < length (schema_of self.now.bytes.now) }
        ensures { AtMost 8 (rank_count (node_at (schema_of self.now.bytes.now) n)) result }
    {
        usize::from(self.layouts[n].ranks)
    }

    // Node n's variable k.
    pub fn variable(&self, n: usize, k: usize) -> Variable
        requires n_in_bounds { n < length (schema_of self.now.bytes.now) }
        requires k_in_bounds { k < length (node_at (schema_of self.now.bytes.now) n).variables }
        ensures { result ≡ variable_at (schema_of self.now.bytes.now) n k }
    {
        let at = usize::from(self.layouts[n].variables[k]);
        if self.bytes[at] == 0 {
            return Variable::Number {
                lo: i32::get(self.bytes, at + 1),
                hi: i32::get(self.bytes, at + 5),
            };
        }
        Variable::Listed {
            size: self.bytes[at + 1],
        }
    }

    // The bounds of node n's variable k, a number.
    pub fn bounds(&self, n: usize, k: usize) -> Bounds
        requires n_in_bounds { n < length (schema_of self.now.bytes.now) }
        requires k_in_bounds { k < length (node_at (schema_of self.now.bytes.now) n).variables }
        requires k_value { is_number (variable_at (schema_of self.now.bytes.now) n k) ≡ true }
        ensures { Number result.lo result.hi ≡ variable_at (schema_of self.now.bytes.now) n k }
    {
        let at = usize::from(self.layouts[n].variables[k]);
        let lo = i32::get(self.bytes, at + 1);
        let hi = i32::get(self.bytes, at + 5);
        Bounds { lo, hi }
    }
}
