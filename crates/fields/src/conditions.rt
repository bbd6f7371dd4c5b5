// The conditions of 7.3.3 that are no single test of a field: a stage of the header calls these, and so has no branches.
ghost use Rattle.std.specs.Prelude.{◌&&◌, ◌||◌, ◌≡◌, ◌%◌, eqb};
ghost use Rattle.syntax.specs.Context.{has_l0, has_chroma, has_cabac, is_weighted};

use syntax::context::Context;
pub use table::sets::both;

// slice_type modulo 5 (table 7-6)
pub const P: u32 = 0;

pub const B: u32 = 1;

pub const I: u32 = 2;

pub const SP: u32 = 3;

pub const SI: u32 = 4;

pub fn either(a: bool, b: bool) -> bool
    ensures { result ≡ a || b }
{
    if a { true } else { b }
}

// Whether slice_type k is of type n: P, B, I, SP or SI.
pub fn is_type(k: u32, n: u32) -> bool
    ensures { result ≡ eqb (k % 5) n }
{
    k % 5 == n
}

// A list 0 of references: P, SP, B.
pub fn has_l0(k: u32) -> bool
    ensures { result ≡ has_l0 k }
{
    either(is_type(k, P), either(is_type(k, SP), is_type(k, B)))
}

// ChromaArrayType is not 0.
pub fn has_chroma(x: Context) -> bool
    ensures { result ≡ has_chroma x }
{
    both(
        !x.sequence.separate_colour_plane_flag,
        x.sequence.chroma_format_idc != 0,
    )
}

// cabac_init_idc is there.
pub fn has_cabac(x: Context, k: u32) -> bool
    ensures { result ≡ has_cabac x k }
{
    both(
        x.picture.entropy_coding_mode_flag,
        both(!is_type(k, I), !is_type(k, SI)),
    )
}

// pred_weight_table( ) is there.
pub fn is_weighted(x: Context, k: u32) -> bool
    ensures { result ≡ is_weighted x k }
{
    either(
        both(
            x.picture.weighted_pred_flag,
            either(is_type(k, P), is_type(k, SP)),
        ),
        both(x.picture.weighted_bipred_idc == 1, is_type(k, B)),
    )
}
