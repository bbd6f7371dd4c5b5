// The rules' refusal numbers and sizes, each named once, and the two places where a refusal is made.
ghost use Rattle.std.specs.Prelude.{◌≡◌};
ghost use Rattle.bits.specs.Refusals.{refusal, refusal_at};
ghost use Rattle.bits.specs.Answers.{none, why};

pub const NO_BYTE: u8 = 1;

pub const FORBIDDEN_ZERO_BIT: u8 = 2;

pub const NOT_A_SLICE: u8 = 3;

pub const NO_EXTENSION: u8 = 4;

pub const RAN_OUT: u8 = 5;

pub const TOO_MANY_ZEROS: u8 = 6;

pub const SLICE_TYPE: u8 = 7;

pub const PICTURE_SET_ID: u8 = 8;

pub const NO_PICTURE_SET: u8 = 9;

pub const NO_SEQUENCE_SET: u8 = 10;

pub const COLOUR_PLANE: u8 = 11;

pub const MODIFICATION_IDC: u8 = 12;

pub const SCALABLE: u8 = 13;

pub const LIST_FULL: u8 = 14;

pub const MARKING_OPERATION: u8 = 15;

pub const QP_RANGE: u8 = 16;

pub const QS_RANGE: u8 = 17;

pub const DEBLOCKING_IDC: u8 = 18;

pub const ALPHA_OFFSET: u8 = 19;

pub const BETA_OFFSET: u8 = 20;

pub const ACTIVE_COUNT: u8 = 21;

pub const NOTHING_FOLLOWS: u8 = 22;

pub const BASE_MARKING_OPERATION: u8 = 23;

pub const TABLE_FIELD: u8 = 24;

pub const NO_BITS: u8 = 25;

pub const BUFFER_TOO_SHORT: u8 = 26;

pub const TOO_LARGE: u8 = 27;

pub const SET_FIELD: u8 = 28;

pub const BROKEN_LENGTH: u8 = 29;

pub const NOT_ITS_HEAD: u8 = 34;

pub const NOT_CARRIED: u8 = 35;

// The size limit of a unit or a recording, in bytes.
pub const LIMIT: usize = 268_435_456;

// Why a call gives no answer: the rules' number, its value, and the bit place in the unescaped body where the refused field begins. Only a refusal that arises
// while a body is read has a place; in others `bit` is 0. The number is a number and no enum: it is the rules' own, which hosts print and C gets.
#[derive(Clone, Copy)]
pub struct Refusal {
    pub number: u8,
    pub has_bit: bool,
    pub value: i64,
    pub bit: usize,
}

// The two places where a refusal is made. Before a body is read, in writing, and of a table:
pub fn refuse(number: u8, value: i64) -> Refusal
    ensures { result ≡ refusal number value }
{
    Refusal {
        number,
        has_bit: false,
        value,
        bit: 0,
    }
}

// While a body is read, of the field that begins at a bit:
pub fn refuse_at(number: u8, value: i64, at: usize) -> Refusal
    ensures { result ≡ refusal_at number value at }
{
    Refusal {
        number,
        has_bit: true,
        value,
        bit: at,
    }
}

// What stands for the refusal of an answer that is none: number 0, which the rules do not give.
pub fn no_refusal() -> Refusal
    ensures { result ≡ none }
{
    refuse(0, 0)
}

// A refusal on its way out. Out of line and cold, so that the compiler takes every path to it for the rare one.
#[cold]
#[inline(never)]
fn passed_on(r: Refusal) -> Refusal
    ensures { result ≡ r }
{
    r
}

// The refusal of an answer that is one, for a `let .. else`, which cannot bind it.
#[inline(always)]
pub fn why<T: Copy>(a: Result<T, Refusal>) -> Refusal
    ensures { result ≡ why a }
{
    match a {
        Ok(_) => no_refusal(),
        Err(r) => passed_on(r),
    }
}
