// The calls for C and Rust: a slice passes as a pointer and a length. The contract of each says what the answer and the
// buffer are, and then what the demands, or 02/1, say of them; the last function tells the version.
#![tactic(auto)]

ghost use Rattle.std.specs.Prelude.{◌≡◌, ℕ};
ghost use Rattle.fields.specs.Answers.{answer_of};
ghost use Rattle.calls.specs.Calls.{reconciling, checking, comparing, copying, sheeting};
ghost use Rattle.calls.proofs.ByCall.{Reconciles, Checks, Compares, Copies, Sheets};
ghost use Rattle.exports.specs.Call.{Called, outcome_of};
ghost use Rattle.exports.specs.Exported.{exported, answer_in};
ghost use Rattle.comparison.specs.Comparison.{verdict_number};
ghost use Rattle.exports.specs.Version.{version};

use comparison::Verdict;
use fields::Refusal;

// NEULENTA_VERSION_MAJOR, _MINOR and _PATCH of include/neulenta.h.
const MAJOR: u32 = 1;

const MINOR: u32 = 0;

const PATCH: u32 = 0;

// neulenta_answer of include/neulenta.h.
#[repr(C)]
#[derive(Clone, Copy)]
pub struct Exported {
    pub number: u32,
    pub file: u32,
    pub offset: u64,
    pub value: u64,
}

// What a call adds to its answer, as the number that C has.
pub trait Value {
    ghost value: { Self → ℕ };

    fn value(self) -> u64
        ensures { result ≡ value self };
}

impl Value for usize {
    ghost value = { λ n. n };

    fn value(self) -> u64 {
        self as u64
    }
}

impl Value for () {
    ghost value = { λ _. 0 };

    fn value(self) -> u64 {
        match self {
            () => 0,
        }
    }
}

impl Value for Verdict {
    ghost value = { verdict_number };

    fn value(self) -> u64 {
        u64::from(self as u8)
    }
}

// What a call answers, as C has it.
impl<V: Value> From<Result<V, Refusal>> for Exported {
    ghost from_gives = { λ r e. e ≡ exported (answer_of V.value r) };

    fn from(answer: Result<V, Refusal>) -> Exported {
        match answer {
            Ok(v) => Exported {
                number: 0,
                file: 0,
                offset: 0,
                value: v.value(),
            },
            Err(refusal) => Exported {
                number: refusal.fault as u32,
                file: refusal.file as u32,
                offset: refusal.offset as u64,
                value: 0,
            },
        }
    }
}

#[unsafe(no_mangle)]
pub extern "C" fn neulenta_copy(schema: &[u8], instance: &[u8], out: &mut [u8]) -> Exported
    ensures called { Called (copying schema.now instance.now out.old) result out.new }
    ensures copies { Copies schema.now instance.now out.old (outcome_of result out.new) }
{
    copying::copy(schema, instance, out).into()
}

#[unsafe(no_mangle)]
pub extern "C" fn neulenta_sheet(schema: &[u8], instance: &[u8], out: &mut [u8]) -> Exported
    ensures called { Called (sheeting schema.now instance.now out.old) result out.new }
    ensures sheets { Sheets schema.now instance.now out.old (outcome_of result out.new) }
{
    sheet::sheet(schema, instance, out).into()
}

#[unsafe(no_mangle)]
pub extern "C" fn neulenta_reconcile(
    schema: &[u8],
    policies: &[u8],
    a: u16,
    b: u16,
    out: &mut [u8],
) -> Exported
    ensures called { Called (reconciling schema.now policies.now a b out.old) result out.new }
    ensures reconciles { Reconciles schema.now policies.now a b out.old (outcome_of result out.new) }
{
    reconciler::reconcile(schema, policies, a, b, out).into()
}

#[unsafe(no_mangle)]
pub extern "C" fn neulenta_check(
    schema: &[u8],
    policies: &[u8],
    a: u16,
    b: u16,
    instance: &[u8],
) -> Exported
    ensures value { result ≡ exported (checking schema.now policies.now a b instance.now) }
    ensures checks { Checks schema.now policies.now a b instance.now (answer_in result) }
{
    checker::check(schema, policies, a, b, instance).into()
}

#[unsafe(no_mangle)]
pub extern "C" fn neulenta_compare(
    schema: &[u8],
    policies: &[u8],
    a: u16,
    b: u16,
    first: &[u8],
    second: &[u8],
) -> Exported
    ensures value { result ≡ exported (comparing schema.now policies.now a b first.now second.now) }
    ensures compares { Compares schema.now policies.now a b first.now second.now (answer_in result) }
{
    comparison::compare(schema, policies, a, b, first, second).into()
}

// What the linked library is, for who compares it with the header: NEULENTA_VERSION there.
#[unsafe(no_mangle)]
pub extern "C" fn neulenta_version() -> u32
    ensures { result ≡ version }
{
    MAJOR * 65536 + MINOR * 256 + PATCH
}
