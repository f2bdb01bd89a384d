// Fields of the three files, put in turn by their writers.
#![tactic(auto)]

ghost use Rattle.std.specs.Prelude.{◌≡◌, ◌+◌, ◌≤◌, length};
ghost use Rattle.fields.specs.Writing.{spell, letters, put};

use fields::BigEndian;

// A field.
pub fn put<T: BigEndian>(b: &mut [u8], at: usize, x: T)
    requires { at + T.WIDTH ≤ length b.old }
    ensures { b.new ≡ put b.old at (spell T.WIDTH (T.code x)) }
{
    x.put(b, at);
}

// A mark of two letters.
#[tactic(auto, using(fields::proofs::Bytes::put_two))]
pub fn put_mark(b: &mut [u8], at: usize, m: &[u8; 2])
    requires { at + 2 ≤ length b.old }
    ensures { b.new ≡ put b.old at (letters m.now) }
{
    b[at] = m[0];
    b[at + 1] = m[1];
}
