// Fields of the three files, taken in turn by their readers.
#![tactic(auto, unfolding(fields::specs::Reading::mark, fields::specs::Reading::field, fields::specs::Reading::part))]

ghost use Rattle.std.specs.Prelude.{◌≡◌};
ghost use Rattle.fields.specs.Reading.{whole, mark};
ghost use Rattle.fields.specs.Answers.{as_field, as_end, end_of};

use fields::{BigEndian, Breach, Fault};

// A field and the position after it.
pub fn read<T: BigEndian>(s: &[u8], at: usize) -> Result<(T, usize), Breach>
    ensures { as_field T.code result ≡ whole T.WIDTH s.now at }
{
    if s.len() < T::WIDTH || s.len() - T::WIDTH < at {
        return Err(Breach::new(Fault::Cut, at));
    }
    Ok((T::get(s, at), at + T::WIDTH))
}

// A mark of two letters, and the position after it.
pub fn read_mark(s: &[u8], at: usize, m: &[u8; 2]) -> Result<usize, Breach>
    ensures { as_end result ≡ end_of (mark m.now s.now at) }
{
    let (letters, next) = read::<u16>(s, at)?;
    if letters == u16::get(m, 0) {
        Ok(next)
    } else {
        Err(Breach::new(Fault::Mark, at))
    }
}
