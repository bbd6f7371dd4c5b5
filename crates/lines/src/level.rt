// QP and QS of a slice: 26, what the picture set that its header names begins with, and the header's own difference.
ghost use Rattle.std.specs.Prelude.{◌≡◌};
ghost use Rattle.lines.specs.Level.{init_qp, init_qs, final_qp, final_qs};

use fields::quant::level;
use table::words::picture_in;

fn init_qp(pictures: &[u32; 2304], id: u32) -> i32
    ensures { result ≡ init_qp pictures.now id }
{
    match picture_in(pictures, id) {
        Some((p, _)) => p.pic_init_qp_minus26,
        None => 0,
    }
}

fn init_qs(pictures: &[u32; 2304], id: u32) -> i32
    ensures { result ≡ init_qs pictures.now id }
{
    match picture_in(pictures, id) {
        Some((p, _)) => p.pic_init_qs_minus26,
        None => 0,
    }
}

// QP, by the picture set's id and slice_qp_delta.
pub fn final_qp(pictures: &[u32; 2304], id: u32, delta: i32) -> i64
    ensures { result ≡ final_qp pictures.now id delta }
{
    level(init_qp(pictures, id), delta)
}

// QS, by the picture set's id and slice_qs_delta.
pub fn final_qs(pictures: &[u32; 2304], id: u32, delta: i32) -> i64
    ensures { result ≡ final_qs pictures.now id delta }
{
    level(init_qs(pictures, id), delta)
}
