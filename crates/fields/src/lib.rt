// What readers and calls answer, and the numbers that bytes spell.
#![tactic(auto)]

ghost use Rattle.std.specs.Prelude.{◌≡◌, ℕ, ◌+◌, ◌≤◌, ◌<◌, ◌^◌, length, refl};
ghost use Rattle.fields.specs.Reading.{be, signed};
ghost use Rattle.fields.specs.declared.File.TheVariants.{NoFile};
ghost use Rattle.fields.specs.Writing.{spell, unsigned, put};

// Why a file, a pass or a buffer is refused: 01's numbers, each by its name.
#[derive(Clone, Copy, PartialEq, Eq, Debug)]
pub enum Fault {
    Mark = 1,
    Cut = 2,
    NodeCount = 3,
    Links = 4,
    Successor = 5,
    Variable = 6,
    Remainder = 7,
    PolicyCount = 8,
    Days = 9,
    Node = 10,
    Mask = 11,
    Pass = 12,
    NoInstance = 13,
    Buffer = 14,
    Entry = 15,
    Choice = 16,
    Value = 17,
    Forbidden = 18,
}

// The file in which a fault arose, NoFile where it is of none.
#[derive(Clone, Copy, PartialEq, Eq, Debug)]
pub enum File {
    NoFile = 0,
    Schema = 1,
    Policies = 2,
    Pass = 3,
    Instance = 4,
    SecondInstance = 5,
}

// A reader's refusal: the fault and the offset of its field.
#[derive(Clone, Copy, PartialEq, Eq, Debug)]
pub struct Breach {
    pub fault: Fault,
    pub offset: usize,
}

// A call's refusal, with the file.
#[derive(Clone, Copy, PartialEq, Eq, Debug)]
pub struct Refusal {
    pub fault: Fault,
    pub file: File,
    pub offset: usize,
}

impl Breach {
    pub fn new(fault: Fault, offset: usize) -> Breach
        ensures { result ≡ record { fault = fault; offset = offset } }
    {
        Breach { fault, offset }
    }

    // The refusal of a call that read this file.
    pub fn of(self, file: File) -> Refusal
        ensures { result ≡ record { fault = self.fault; file = file; offset = self.offset } }
    {
        Refusal {
            fault: self.fault,
            file,
            offset: self.offset,
        }
    }
}

impl Refusal {
    // The refusal of a call for a fault of no file.
    pub fn new(fault: Fault) -> Refusal
        ensures { result ≡ record { fault = fault; file = NoFile; offset = 0 } }
    {
        Refusal {
            fault,
            file: File::NoFile,
            offset: 0,
        }
    }
}

// A number of so many bytes, high byte first; code is what the bytes spell.
pub trait BigEndian: Copy {
    ghost WIDTH: { ℕ };

    ghost code: { Self → ℕ };

    const WIDTH: usize;

    // The number at an offset.
    fn get(s: &[u8], at: usize) -> Self
        requires { at + WIDTH ≤ length s.now }
        ensures { code result ≡ be WIDTH s.now at };

    // The number put at an offset.
    fn put(self, b: &mut [u8], at: usize)
        requires { at + WIDTH ≤ length b.old }
        ensures { b.new ≡ put b.old at (spell WIDTH (code self)) };
}

#[tactic(auto, using(crate::proofs::Back::be1, crate::proofs::Bytes::put1))]
impl BigEndian for u8 {
    ghost WIDTH = { 1 };

    ghost code = { λ x. x };

    const WIDTH: usize = 1;

    fn get(s: &[u8], at: usize) -> u8 {
        s[at]
    }

    fn put(self, b: &mut [u8], at: usize) {
        b[at] = self;
    }
}

#[tactic(auto, using(crate::proofs::Bytes::be2, crate::proofs::Bytes::put_part2))]
impl BigEndian for u16 {
    ghost WIDTH = { 2 };

    ghost code = { λ x. x };

    const WIDTH: usize = 2;

    fn get(s: &[u8], at: usize) -> u16 {
        u16::from_be_bytes([s[at], s[at + 1]])
    }

    fn put(self, b: &mut [u8], at: usize) {
        b[at..at + 2].copy_from_slice(&self.to_be_bytes());
    }
}

#[tactic(auto, using(crate::proofs::Bytes::be4, crate::proofs::Bytes::put_part4))]
impl BigEndian for u32 {
    ghost WIDTH = { 4 };

    ghost code = { λ x. x };

    const WIDTH: usize = 4;

    fn get(s: &[u8], at: usize) -> u32 {
        u32::from_be_bytes([s[at], s[at + 1], s[at + 2], s[at + 3]])
    }

    fn put(self, b: &mut [u8], at: usize) {
        b[at..at + 4].copy_from_slice(&self.to_be_bytes());
    }
}

impl BigEndian for i32 {
    ghost WIDTH = { 4 };

    ghost code = { unsigned };

    const WIDTH: usize = 4;

    // The signed number that four bytes spell.
    fn get(s: &[u8], at: usize) -> i32
        requires { at + 4 ≤ length s.now }
        ensures code { unsigned result ≡ be 4 s.now at }
        ensures value { result ≡ signed (be 4 s.now at) }
    {
        let bits = <u32 as BigEndian>::get(s, at);
        bits.cast_signed()
    }

    fn put(self, b: &mut [u8], at: usize) {
        self.cast_unsigned().put(b, at);
    }
}
