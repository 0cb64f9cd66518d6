//! What crosses to C and back.
ghost use Rattle.std.specs.Prelude.{◌≡◌, ◌↔◌, IsTrue};
ghost use Rattle.abc_base.specs.Hosts.{plain_arguments};
ghost use Rattle.abc_base.specs.Names.{status_code};
ghost use Rattle.abc_base.specs.Ranges.{IsNumber};
ghost use Rattle.abc_c.specs.Crossing.{CanBeMade, HasNumbers, kind_code, limits_of_bounds, name_of_call, numbers_of, of_value, text_at, without as none_of};

use abc_base::{Plain, Status};
use abc_heap_store::Limits;

/// How much the code may hold, and how many steps the run of the script may take.
#[repr(C)]
#[derive(Clone, Copy, Debug)]
pub struct Bounds {
    pub objects: u32,
    pub cells: u32,
    pub text: u32,
    pub frames: u32,
    pub stack: u32,
    pub fuel: u32,
}

impl Bounds {
    /// The limits of a session.
    pub fn limits(&self) -> Limits
        ensures { result ≡ limits_of_bounds self.now }
    {
        Limits {
            objects: self.objects,
            cells: self.cells,
            text: self.text,
            frames: self.frames,
            stack: self.stack,
        }
    }
}

/// A call: where the name of the function stands among the names, how many steps it may take, and how many of four numbers it is
/// given.
#[repr(C)]
#[derive(Clone, Copy, Debug)]
pub struct Call {
    pub name_start: u32,
    pub name_length: u32,
    pub fuel: u32,
    pub count: u32,
    pub a: i64,
    pub b: i64,
    pub c: i64,
    pub d: i64,
}

/// Whether a number is one that code computes with.
fn is_number(z: i64) -> bool
    ensures { IsTrue result ↔ IsNumber z }
{
    -2147483648 <= z && z <= 4294967295
}

/// Whether two numbers are.
fn are_numbers(x: i64, y: i64) -> bool
    ensures { IsTrue result ↔ (IsNumber x × IsNumber y) }
{
    is_number(x) && is_number(y)
}

impl Call {
    /// Whether code computes with each of its four numbers.
    fn has_numbers(&self) -> bool
        ensures { IsTrue result ↔ HasNumbers self.now }
    {
        are_numbers(self.a, self.b) && are_numbers(self.c, self.d)
    }

    /// Whether its name stands among the names, there are at most four numbers, and each is one that code computes with.
    pub fn can_be_made(&self, names: &[u8]) -> bool
        ensures { IsTrue result ↔ CanBeMade names.now self.now }
    {
        self.name_start as usize + self.name_length as usize <= names.len()
            && self.count <= 4
            && self.has_numbers()
    }

    /// The name of the function.
    pub fn name<'a>(&self, names: &'a [u8]) -> &'a [u8]
        requires { CanBeMade names.now self.now }
        ensures { result.now ≡ name_of_call names.now self.now }
    {
        let start = self.name_start as usize;
        &names[start..start + self.name_length as usize]
    }

    /// The numbers that it is given.
    pub fn numbers(&self, names: &[u8]) -> Plain
        requires { CanBeMade names.now self.now }
        ensures { plain_arguments result ≡ numbers_of self.now }
    {
        let _names = names;
        Plain {
            count: self.count,
            a: self.a,
            b: self.b,
            c: self.c,
            d: self.d,
        }
    }
}

/// What came of a call: a status of the program's, 0 where a value was given; the kind of the value; its number, where it is one,
/// or 1 for `true`; and where its text stands in the output, where it is one.
#[repr(C)]
#[derive(Clone, Copy, Debug)]
pub struct Answer {
    pub status: u32,
    pub kind: u32,
    pub number: i64,
    pub text_start: usize,
    pub text_length: usize,
}

/// The kinds of values, as C tells them apart.
#[derive(Clone, Copy, Debug, PartialEq, Eq)]
pub enum Kind {
    Undefined,
    Null,
    Bool,
    Num,
    Text,
    Other,
}

impl Kind {
    /// The number of a kind, in the order of the variants.
    fn code(&self) -> u32
        ensures { result ≡ kind_code self.now }
    {
        match self {
            Kind::Undefined => 0,
            Kind::Null => 1,
            Kind::Bool => 2,
            Kind::Num => 3,
            Kind::Text => 4,
            Kind::Other => 5,
        }
    }
}

impl Answer {
    /// No value.
    pub fn without(status: Status) -> Answer
        ensures { result ≡ none_of status }
    {
        Answer {
            status: status.code() as u32,
            kind: Kind::Undefined.code(),
            number: 0,
            text_start: 0,
            text_length: 0,
        }
    }

    /// A value with a number.
    pub fn of(kind: Kind, number: i64) -> Answer
        ensures { result ≡ of_value kind number }
    {
        Answer {
            status: Status::Done.code() as u32,
            kind: kind.code(),
            number,
            text_start: 0,
            text_length: 0,
        }
    }

    /// A text, which stands there in the output.
    pub fn text(text_start: usize, text_length: usize) -> Answer
        ensures { result ≡ text_at text_start text_length }
    {
        Answer {
            status: Status::Done.code() as u32,
            kind: Kind::Text.code(),
            number: 0,
            text_start,
            text_length,
        }
    }
}

/// Where a file was refused. By the reader: 1, and the byte. By a rule of linking: 2, and the index of a part of the file, whose kind is
/// the offset. By a rule of verifying: 3, and a method, with the offset in its code. By none of these: 0.
#[repr(C)]
#[derive(Clone, Copy, Debug)]
pub struct Refusal {
    pub by: u32,
    pub place: u32,
    pub offset: u32,
}

/// What came of all: how the file was opened and its script ended, as a status of the program's; where it was refused, if it was; how
/// many calls were answered; and how many bytes of the output were written.
#[repr(C)]
#[derive(Clone, Copy, Debug)]
pub struct Outcome {
    pub status: u32,
    pub refusal: Refusal,
    pub answered: usize,
    pub written: usize,
}
