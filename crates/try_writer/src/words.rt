// A header's words as the input names them: all seven arrays one behind the other, in the order of the writer's arguments.
use super::numbers::Number;

fn signed_of(negative: bool, size: u32) -> i32 {
    if size == 2147483648 {
        return -2147483648;
    }
    let z = (size % 2147483648) as i32;
    if negative { -z } else { z }
}

fn put_in_list(list: &mut [u32; 198], i: usize, v: u32) {
    if i < 198 {
        list[i] = v;
    }
}

fn put_in_weights(list: &mut [i32; 256], i: usize, v: i32) {
    if i < 256 {
        list[i] = v;
    }
}

// A word behind the signed numbers, of which i is the first.
fn put_behind(
    l0: &mut [u32; 198],
    l1: &mut [u32; 198],
    marking: &mut [u32; 198],
    w0: &mut [i32; 256],
    w1: &mut [i32; 256],
    i: usize,
    v: Number,
) {
    if i < 198 {
        put_in_list(l0, i, v.size);
    } else if i < 396 {
        put_in_list(l1, i - 198, v.size);
    } else if i < 594 {
        put_in_list(marking, i - 396, v.size);
    } else if i < 850 {
        put_in_weights(w0, i - 594, signed_of(v.negative, v.size));
    } else {
        put_in_weights(w1, i - 850, signed_of(v.negative, v.size));
    }
}

pub(crate) fn put(
    numbers: &mut [u32; 57],
    signed: &mut [i32; 7],
    l0: &mut [u32; 198],
    l1: &mut [u32; 198],
    marking: &mut [u32; 198],
    w0: &mut [i32; 256],
    w1: &mut [i32; 256],
    slot: usize,
    v: Number,
) {
    if slot < 57 {
        numbers[slot] = v.size;
    } else if slot < 64 {
        signed[slot - 57] = signed_of(v.negative, v.size);
    } else {
        put_behind(l0, l1, marking, w0, w1, slot - 64, v);
    }
}
