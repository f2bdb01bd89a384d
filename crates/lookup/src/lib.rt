// How many bytes the values of an instance file have.
#![tactic(auto)]

ghost use Rattle.std.specs.Prelude.{◌≡◌, ◌<◌, length};
ghost use Rattle.schema.specs.Schema.{schema_of, node_at};
ghost use Rattle.schema.specs.Table.{AtMost};
ghost use Rattle.instances.specs.File.{value_width, values_width};

use instances::{LISTED_WIDTH, NUMBER_WIDTH};
use nodes::Schema;
use schema::Variable;

// How many bytes a value has in an instance file.
#[tactic(auto, unfolding(instances::specs::File::value_width))]
pub fn value_width(v: Variable) -> usize
    ensures { result ≡ value_width v }
{
    match v {
        Variable::Number { .. } => NUMBER_WIDTH,
        Variable::Listed { .. } => LISTED_WIDTH,
    }
}

// How many bytes node n's values have in an instance file.
pub fn values_width(schema: &Schema, n: usize) -> usize
    requires { n < length (schema_of schema.now.bytes.now) }
    ensures { AtMost 16 (values_width (node_at (schema_of schema.now.bytes.now) n).variables) result }
{
    let mut width = 0;
    for k in 0..schema.variable_count(n) {
        width += value_width(schema.variable(n, k));
    }
    width
}
