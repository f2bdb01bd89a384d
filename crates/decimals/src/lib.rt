// A number's text, laid out.
#![tactic(auto)]

ghost use Rattle.std.specs.Prelude.{◌≡◌, ◌≤◌, length};
ghost use Rattle.fields.specs.Writing.{Wrote};
ghost use Rattle.decimals.specs.Decimal.{decimal};

// How many decimal digits a number has.
pub fn digit_count(x: u64) -> usize
    ensures { result ≡ length (decimal x) }
{
    x.max(1).ilog10() as usize + 1
}

// A number in decimal that ends before an offset, its last digit first; gives the offset of its first digit.
pub fn put_ending(out: &mut [u8], end: usize, x: u64) -> usize
    requires x_len_bound { length (decimal x) ≤ end }
    requires end_in_bounds { end ≤ length out.old }
    ensures { Wrote out.old result (decimal x) out.new end }
{
    let mut rest = x;
    let mut at = end - 1;
    while 10 <= rest {
        out[at] = 48 + (rest % 10) as u8;
        rest /= 10;
        at -= 1;
    }
    out[at] = 48 + rest as u8;
    at
}
