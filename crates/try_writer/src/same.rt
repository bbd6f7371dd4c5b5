// Whether words hold the same record: words behind a list's count are no part of it.
fn number_at(a: &[u32], i: usize) -> u32 {
    if i < a.len() { a[i] } else { 0 }
}

fn signed_at(a: &[i32], i: usize) -> i32 {
    if i < a.len() { a[i] } else { 0 }
}

// The first n words of two arrays.
fn numbers(a: &[u32], b: &[u32], n: usize) -> bool {
    for i in 0..n {
        if number_at(a, i) != number_at(b, i) {
            return false;
        }
    }
    true
}

fn signed_numbers(a: &[i32], b: &[i32], n: usize) -> bool {
    for i in 0..n {
        if signed_at(a, i) != signed_at(b, i) {
            return false;
        }
    }
    true
}

// Lists of operations with their count.
fn lists(a: &[u32; 198], b: &[u32; 198], count: u32) -> bool {
    numbers(a, b, 3 * (count as usize))
}

fn weights(a: &[i32; 256], b: &[i32; 256], count: u32) -> bool {
    signed_numbers(a, b, 8 * (count as usize))
}

// The lists of headers whose numbers are the same.
fn all_lists(
    n: &[u32; 57],
    l0: &[u32; 198],
    l1: &[u32; 198],
    marking: &[u32; 198],
    w0: &[i32; 256],
    w1: &[i32; 256],
    m0: &[u32; 198],
    m1: &[u32; 198],
    other_marking: &[u32; 198],
    v0: &[i32; 256],
    v1: &[i32; 256],
) -> bool {
    lists(l0, m0, n[29])
        & lists(l1, m1, n[32])
        & lists(marking, other_marking, n[45])
        & weights(w0, v0, n[37])
        & weights(w1, v1, n[38])
}

pub(crate) fn header(
    n: &[u32; 57],
    z: &[i32; 7],
    l0: &[u32; 198],
    l1: &[u32; 198],
    marking: &[u32; 198],
    w0: &[i32; 256],
    w1: &[i32; 256],
    other_n: &[u32; 57],
    other_z: &[i32; 7],
    m0: &[u32; 198],
    m1: &[u32; 198],
    other_marking: &[u32; 198],
    v0: &[i32; 256],
    v1: &[i32; 256],
) -> bool {
    numbers(n, other_n, 57)
        & signed_numbers(z, other_z, 7)
        & all_lists(n, l0, l1, marking, w0, w1, m0, m1, other_marking, v0, v1)
}
