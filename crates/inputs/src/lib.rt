// What the calls read after the schema: the policies, then the pass.
#![tactic(auto)]

ghost use Rattle.policies.specs.Rows.{RowsRoom};
ghost use Rattle.inputs.specs.Inputs.{YieldsInForce};

use fields::{File, Refusal};
use nodes::Schema;
use policies::Row;

// Policies and pass, under an accepted schema: the rows note the policies in force.
#[tactic(auto, using(crate::proofs::Reading::policies_bad, crate::proofs::Reading::pass_bad, crate::proofs::Reading::pass_ok))]
pub fn read_in_force(
    schema: &Schema,
    p: &[u8],
    a: u16,
    b: u16,
    rows: &mut [Row],
) -> Result<(), Refusal>
    requires { RowsRoom schema.now.bytes.now rows.old }
    ensures { YieldsInForce schema.now.bytes.now p.now a b rows.new result }
{
    let laid = schema.laid();
    let read = policy_reader::read_policies(&laid, p, a, b, rows);
    read.map_err(|breach| breach.of(File::Policies))?;
    policies::check_pass(a, b).map_err(|breach| breach.of(File::Pass))
}
