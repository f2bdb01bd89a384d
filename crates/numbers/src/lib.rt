// Masks of values and sets of nodes.
#![tactic(auto)]

ghost use Rattle.std.specs.Prelude.{◌≡◌, ◌*◌, ◌/◌, ◌^◌, ◌<◌, ◌≤◌, ltb};
ghost use Rattle.numbers.specs.Bits.{bit, ones, with, turned, without, cardinality};
ghost use Rattle.numbers.specs.Lowest.{Lowest};
ghost use Rattle.numbers.specs.Members.{members, members_left};
ghost use Rattle.std.specs.Iterator.{YieldsFirst, item_count};

// Whether node n is in the set.
pub fn has(m: u64, n: usize) -> bool
    requires { n < 64 }
    ensures { result ≡ bit m n }
{
    (m >> n) % 2 == 1
}

// The set with node n added, which is below 64.
pub fn insert(m: u64, n: usize) -> u64
    requires { n < 64 }
    ensures { result ≡ with m n }
{
    m | (1 << n)
}

// The same, for any number: from 64 on nothing is added.
pub fn with(m: u64, n: usize) -> u64
    ensures { result ≡ with m n }
{
    if n < 64 { insert(m, n) } else { m }
}

// The set with node n turned, which is below 64: taken out if it was in.
pub fn flip(m: u64, n: usize) -> u64
    requires { n < 64 }
    ensures { result ≡ turned m n }
{
    m ^ (1 << n)
}

// The same, for any number: from 64 on nothing is turned.
pub fn turned_bit(m: u64, n: usize) -> u64
    ensures { result ≡ turned m n }
{
    if n < 64 { flip(m, n) } else { m }
}

// The set with node n taken out.
pub fn without(m: u64, n: usize) -> u64
    ensures { result ≡ without m n }
{
    turned_bit(with(m, n), n)
}

// How many nodes a set has.
pub fn cardinality(m: u64) -> usize
    ensures { result ≡ cardinality m }
{
    u64::count_ones(m) as usize
}

// The lowest node of a set.
pub fn lowest(m: u64) -> usize
    requires { 0 < m }
    ensures { Lowest 64 m result }
{
    u64::trailing_zeros(m) as usize
}

// The members of a set that are left to go over, the lowest first.
#[derive(Drop)]
pub struct MembersLeft {
    left: u64,
}

// The members of a set, to be gone over by a `for`.
pub fn members(m: u64) -> MembersLeft
    ensures { members_left result ≡ members m }
{
    MembersLeft { left: m }
}

impl Iterator for MembersLeft {
    type Item = usize;

    ghost next_gives = { YieldsFirst members_left };

    ghost remaining = { item_count members_left };

    fn next(&mut self) -> Option<usize> {
        if self.left == 0 {
            return None;
        }
        let n = lowest(self.left);
        self.left = flip(self.left, n);
        Some(n)
    }
}

// The least value that a mask admits.
pub fn least_value(m: u32) -> u32
    requires { 0 < m }
    ensures { Lowest 32 m result }
{
    u32::trailing_zeros(m)
}

// The mask of all values below size.
pub fn all_values(size: u8) -> u32
    requires { size ≤ 32 }
    ensures { result ≡ ones size }
{
    if size < 32 {
        (1 << size) - 1
    } else {
        0xffff_ffff
    }
}

// No bit of the mask at or above size.
pub fn within(mask: u32, size: u8) -> bool
    ensures { result ≡ ltb mask (2 ^ size) }
{
    if 32 <= size {
        return true;
    }
    mask >> size == 0
}

// The bits of the mask among its highest, so many of them, as a number: what of it passes 32 bits, moved up by them.
pub fn highest(mask: u32, count: u16) -> u32
    requires { count ≤ 32 }
    ensures { result ≡ mask * 2 ^ count / 2 ^ 32 }
{
    (((mask as u64) << count) >> 32) as u32
}
