// Codes with up to two operands each, up to the closing code.
ghost use Rattle.std.specs.Prelude.{◌≡◌};
ghost use Rattle.lists.specs.Kinds.{kind_of};

// What tells one list's syntax from another's. Four bytes in all, so that it is handed on in a register.
#[derive(Clone, Copy)]
pub struct ListKind {
    // the code that ends the list
    pub closing: u8,
    // the greatest code, and the refusal of a greater one
    pub greatest: u8,
    pub number: u8,
    // operands as in dec_ref_pic_marking( ): code 5 has none and code 3 has two; else each code has one
    pub marking: bool,
}

// Whether a code has a first operand, and a second.
pub fn has_first(kind: ListKind, code: u32) -> bool
    ensures { result ≡ (kind_of kind).has_first code }
{
    if kind.marking { code != 5 } else { true }
}

pub fn has_second(kind: ListKind, code: u32) -> bool
    ensures { result ≡ (kind_of kind).has_second code }
{
    if kind.marking { code == 3 } else { false }
}
