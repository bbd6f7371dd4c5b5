// QP and QS of a slice.
ghost use Rattle.std.specs.Prelude.{◌≡◌};
ghost use Rattle.lines.specs.Level.{final_qp, final_qs};

use lines::level::{final_qp, final_qs};

// QP, by the table's array of picture sets, the id of one and slice_qp_delta. A set that the table does not have counts as zeros.
#[unsafe(no_mangle)]
pub extern "C" fn tuz_final_qp(pictures: &[u32; 2304], id: u32, delta: i32) -> i64
    ensures { result ≡ final_qp pictures.now id delta }
{
    final_qp(pictures, id, delta)
}

// QS, by slice_qs_delta.
#[unsafe(no_mangle)]
pub extern "C" fn tuz_final_qs(pictures: &[u32; 2304], id: u32, delta: i32) -> i64
    ensures { result ≡ final_qs pictures.now id delta }
{
    final_qs(pictures, id, delta)
}
