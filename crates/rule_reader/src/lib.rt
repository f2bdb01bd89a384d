// The reader of what a PN says of its node: the ranks and conditions, field by field.
#![tactic(auto, unfolding(fields::specs::Reading::part, fields::specs::Reading::field))]

ghost use Rattle.std.specs.Prelude.{◌≡◌, ◌<◌, length};
ghost use Rattle.fields.specs.Answers.{as_end, end_of};
ghost use Rattle.schema.specs.Schema.{schema_of, node_at};
ghost use Rattle.policies.specs.Policies.{ranks, condition, conditions, rule_of};

use fields::{Breach, Fault};
use nodes::Schema;
use reading::read;
use schema::Variable;

// k ranks.
#[tactic(auto, using(crate::proofs::Reader::ranks_init, crate::proofs::Reader::ranks_bad, crate::proofs::Reader::ranks_more, crate::proofs::Reader::ranks_done))]
fn read_ranks(b: &[u8], k: usize, from: usize) -> Result<usize, Breach>
    ensures { as_end result ≡ end_of (ranks b.now k from) }
{
    let mut at = from;
    for _turn in 0..k {
        at = read::<u8>(b, at)?.1;
    }
    Ok(at)
}

// The condition of a variable.
#[tactic(auto, unfolding(fields::specs::Reading::part, fields::specs::Reading::field, policies::specs::Policies::condition))]
fn read_condition(b: &[u8], v: Variable, at: usize) -> Result<usize, Breach>
    ensures { as_end result ≡ end_of (condition b.now v at) }
{
    let (value, next) = read::<u32>(b, at)?;
    match v {
        Variable::Number { .. } => Ok(read::<u32>(b, next)?.1),
        Variable::Listed { size } => {
            if numbers::within(value, size) {
                return Ok(next);
            }
            Err(Breach::new(Fault::Mask, at))
        }
    }
}

// The conditions of node n's variables.
#[tactic(auto, using(crate::proofs::Reader::conditions_bad, crate::proofs::Reader::conditions_more, crate::proofs::Reader::conditions_done))]
fn read_conditions(schema: &Schema, n: usize, b: &[u8], from: usize) -> Result<usize, Breach>
    requires { n < length (schema_of schema.now.bytes.now) }
    ensures { as_end result ≡ end_of (conditions b.now (node_at (schema_of schema.now.bytes.now) n).variables from) }
{
    let mut at = from;
    for k in 0..schema.variable_count(n) {
        at = read_condition(b, schema.variable(n, k), at)?;
    }
    Ok(at)
}

// The ranks and conditions of node n, field by field.
#[tactic(auto, using(crate::proofs::Reader::fields_cut, crate::proofs::Reader::fields_rest))]
pub fn read_fields(schema: &Schema, n: usize, b: &[u8], from: usize) -> Result<usize, Breach>
    requires { n < length (schema_of schema.now.bytes.now) }
    ensures { as_end result ≡ end_of (rule_of b.now (node_at (schema_of schema.now.bytes.now) n) n from) }
{
    let at = read_ranks(b, schema.rank_count(n), from)?;
    read_conditions(schema, n, b, at)
}
