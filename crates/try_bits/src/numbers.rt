// The input's numbers, in decimal: a sign or none, digits, and one byte of any kind that ends them.
#[derive(Clone, Copy)]
pub(crate) struct Number {
    pub(crate) negative: bool,
    pub(crate) size: u32,
    // the place after the byte that ends it
    pub(crate) next: usize,
}

fn is_digit(b: u8) -> bool {
    if b < 48 { false } else { b < 58 }
}

// One digit more.
fn more(size: u32, b: u8) -> u32 {
    ((size as u64 * 10 + (b % 16) as u64) % 4294967296) as u32
}

fn digits(s: &[u8], from: usize, negative: bool) -> Number {
    let mut size: u32 = 0;
    for i in from..s.len() {
        let b = s[i];
        if !is_digit(b) {
            return Number {
                negative,
                size,
                next: i + 1,
            };
        }
        size = more(size, b);
    }
    Number {
        negative,
        size,
        next: from.max(s.len()),
    }
}

pub(crate) fn number_at(s: &[u8], from: usize) -> Number {
    if from < s.len() {
        if s[from] == 45 {
            return digits(s, from + 1, true);
        }
    }
    digits(s, from, false)
}

pub(crate) fn signed(negative: bool, size: u32) -> i32 {
    if size == 2147483648 {
        return -2147483648;
    }
    let z = (size % 2147483648) as i32;
    if negative { -z } else { z }
}
