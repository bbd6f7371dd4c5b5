// The header written into a lent buffer.
ghost use Rattle.std.specs.Prelude.{true, ◌≡◌, ◌*◌, ◌≤◌, length};
ghost use Rattle.header.specs.Lead.{table_in};
ghost use Rattle.record.specs.Record.{plain_numbers, header_from};
ghost use Rattle.writer.specs.Write.{held_words, write_words};
ghost use Rattle.writer.specs.Stages.{fields_out, known_out, copied};

use crate::given::{ExtensionGiven, kind_given};
use crate::plain::is_plain;
use crate::sets::sets_for;
use crate::whole::put_header;
use bits::copy::copy_in;
use bits::refusals::{BUFFER_TOO_SHORT, NO_BITS, Refusal, refuse};
use fields::conditions::both;
use syntax::context::Context;
use table::table::Sets;

// The bytes of the first n bits of d, out to the front of the buffer, if there is room for them.
fn copy_out(d: &[u8], n: usize, out: &mut [u8]) -> Result<usize, Refusal>
    requires { (n ≤ 8 * length d.now) × (length d.now ≤ 6144) }
    ensures { (result ≡ (copied d.now n out.old).answer) × (out.new ≡ (copied d.now n out.old).left) }
{
    let m = (n + 7) / 8;
    if out.len() < m {
        return Err(refuse(BUFFER_TOO_SHORT, m as i64));
    }
    copy_in(&d[..m], out, 0);
    Ok(n)
}

// The header's fields, into a buffer that has room for every header that there is: what is refused in it has no bits.
fn write_long(
    x: Context,
    numbers: &[u32; 57],
    signed: &[i32; 7],
    l0: &[u32; 198],
    l1: &[u32; 198],
    marking: &[u32; 198],
    w0: &[i32; 256],
    w1: &[i32; 256],
    out: &mut [u8],
) -> Result<usize, Refusal>
    requires { ((x.picture.num_ref_idx_l0_default_active_minus1 ≤ 31) × (x.picture.num_ref_idx_l1_default_active_minus1 ≤ 31)) × (plain_numbers numbers.now ≡ true) }
    ensures { (result ≡ (fields_out x (header_from (held_words numbers.now signed.now l0.now l1.now marking.now w0.now w1.now)) out.old).answer) × (out.new ≡ (fields_out x (header_from (held_words numbers.now signed.now l0.now l1.now marking.now w0.now w1.now)) out.old).left) }
{
    let mut d = [0u8; 6144];
    let end = put_header(&mut d, x, numbers, signed, l0, l1, marking, w0, w1);
    match end {
        Some(c) => copy_out(&d, c.at, out),
        None => Err(refuse(NO_BITS, 0)),
    }
}

// The header's fields, into a short buffer first, since to clear a long one costs more than to write most headers. What is refused there is tried again.
fn write_fields(
    x: Context,
    numbers: &[u32; 57],
    signed: &[i32; 7],
    l0: &[u32; 198],
    l1: &[u32; 198],
    marking: &[u32; 198],
    w0: &[i32; 256],
    w1: &[i32; 256],
    out: &mut [u8],
) -> Result<usize, Refusal>
    requires { ((x.picture.num_ref_idx_l0_default_active_minus1 ≤ 31) × (x.picture.num_ref_idx_l1_default_active_minus1 ≤ 31)) × (plain_numbers numbers.now ≡ true) }
    ensures { (result ≡ (fields_out x (header_from (held_words numbers.now signed.now l0.now l1.now marking.now w0.now w1.now)) out.old).answer) × (out.new ≡ (fields_out x (header_from (held_words numbers.now signed.now l0.now l1.now marking.now w0.now w1.now)) out.old).left) }
{
    let mut d = [0u8; 256];
    let end = put_header(&mut d, x, numbers, signed, l0, l1, marking, w0, w1);
    match end {
        Some(c) if c.at <= 2048 => copy_out(&d, c.at, out),
        _ => write_long(x, numbers, signed, l0, l1, marking, w0, w1, out),
    }
}

// The header by its sets, if the words hold a record. It is written into a buffer of its own, so that a refusal leaves the one that is lent as it was, and so that
// 25 comes before 26.
fn write_known(
    x: Context,
    numbers: &[u32; 57],
    signed: &[i32; 7],
    l0: &[u32; 198],
    l1: &[u32; 198],
    marking: &[u32; 198],
    w0: &[i32; 256],
    w1: &[i32; 256],
    out: &mut [u8],
) -> Result<usize, Refusal>
    requires { (x.picture.num_ref_idx_l0_default_active_minus1 ≤ 31) × (x.picture.num_ref_idx_l1_default_active_minus1 ≤ 31) }
    ensures { (result ≡ (known_out x (held_words numbers.now signed.now l0.now l1.now marking.now w0.now w1.now) out.old).answer) × (out.new ≡ (known_out x (held_words numbers.now signed.now l0.now l1.now marking.now w0.now w1.now) out.old).left) }
{
    let same = numbers[3] == x.picture.seq_parameter_set_id;
    if !both(is_plain(numbers, w0, w1), same) {
        return Err(refuse(NO_BITS, 0));
    }
    write_fields(x, numbers, signed, l0, l1, marking, w0, w1, out)
}

// The header that lent words hold, written by the sets in a table's two arrays, for the unit that the first byte and the extension tell of. A refusal leaves the
// buffer as it was. Words behind a list's count are not looked at.
pub fn write_words_in(
    sets: Sets<'_>,
    first: u8,
    extension: ExtensionGiven,
    numbers: &[u32; 57],
    signed: &[i32; 7],
    l0: &[u32; 198],
    l1: &[u32; 198],
    marking: &[u32; 198],
    w0: &[i32; 256],
    w1: &[i32; 256],
    out: &mut [u8],
) -> Result<usize, Refusal>
    ensures { (result ≡ (write_words (table_in sets.entry) first extension (held_words numbers.now signed.now l0.now l1.now marking.now w0.now w1.now) out.old).answer) × (out.new ≡ (write_words (table_in sets.entry) first extension (held_words numbers.now signed.now l0.now l1.now marking.now w0.now w1.now) out.old).left) }
{
    let kind = kind_given(first, extension)?;
    let named = sets_for(sets, numbers[2])?;
    let x = Context {
        kind,
        picture: named.picture,
        sequence: named.sequence,
        cycle_width: named.cycle_width,
    };
    write_known(x, numbers, signed, l0, l1, marking, w0, w1, out)
}
