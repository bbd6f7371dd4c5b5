// What a unit starts with, field by field: its first byte and its extension.
ghost use Rattle.std.specs.Prelude.{◌≡◌};
ghost use Rattle.nal.specs.UnitType.{for_id};
ghost use Rattle.nal.specs.Header.{header_from};
ghost use Rattle.exports.specs.Starts.{header_out, kind_of, kind_for, svc_out, mvc_out, extension_out};

use bits::refusals::Refusal;
use nal::extension::{NalHeaderExtension, NalHeaderMvcExtension, NalHeaderSvcExtension};
use nal::header::NalHeader;
use nal::unit_type::UnitType;
use unit::begin::has_extension;

// A first byte. Beside a refusal the other fields are zero.
#[repr(C)]
#[derive(Clone, Copy)]
pub struct NalHeaderOut {
    // the refusal's number and value; 0 and 0 where there is none
    pub number: u32,
    pub nal_ref_idc: u8,
    // the number of nal_unit_type
    pub nal_unit_type: u8,
    // three bytes of extension follow: types 14, 20 and 21
    pub has_extension: bool,
    pub value: i64,
}

// nal_unit_header_svc_extension( )
#[repr(C)]
#[derive(Clone, Copy)]
pub struct SvcExtensionOut {
    pub idr_flag: bool,
    pub priority_id: u8,
    pub no_inter_layer_pred_flag: bool,
    pub dependency_id: u8,
    pub quality_id: u8,
    pub temporal_id: u8,
    pub use_ref_base_pic_flag: bool,
    pub discardable_flag: bool,
    pub output_flag: bool,
}

// nal_unit_header_mvc_extension( )
#[repr(C)]
#[derive(Clone, Copy)]
pub struct MvcExtensionOut {
    pub non_idr_flag: bool,
    pub priority_id: u8,
    pub view_id: u16,
    pub temporal_id: u8,
    pub anchor_pic_flag: bool,
    pub inter_view_flag: bool,
}

// An extension's three bytes: which of the two they are, and the fields of both.
#[repr(C)]
#[derive(Clone, Copy)]
pub struct ExtensionOut {
    // svc_extension_flag, the first of their bits
    pub is_svc: bool,
    pub svc: SvcExtensionOut,
    pub mvc: MvcExtensionOut,
}

fn header_out(a: Result<NalHeader, Refusal>) -> NalHeaderOut
    ensures { result ≡ header_out a }
{
    match a {
        Ok(h) => {
            let t = h.type_id();
            NalHeaderOut {
                number: 0,
                nal_ref_idc: h.nal_ref_idc(),
                nal_unit_type: t,
                has_extension: has_extension(t),
                value: 0,
            }
        }
        Err(why) => NalHeaderOut {
            number: why.number as u32,
            nal_ref_idc: 0,
            nal_unit_type: 0,
            has_extension: false,
            value: why.value,
        },
    }
}

// A unit's first byte.
#[unsafe(no_mangle)]
pub extern "C" fn tuz_nal_header(first: u8) -> NalHeaderOut
    ensures { result ≡ header_out (header_from first) }
{
    header_out(NalHeader::new(first))
}

fn kind(t: UnitType) -> u32
    ensures { result ≡ kind_of t }
{
    match t {
        UnitType::Unspecified(_) => 2,
        UnitType::Reserved(_) => 3,
        _ => 1,
    }
}

// What a number says as a nal_unit_type. 0: nothing, since it is over 31; 1: a type that has a name; 2: an unspecified one; 3: a reserved one.
#[unsafe(no_mangle)]
pub extern "C" fn tuz_unit_type(id: u8) -> u32
    ensures { result ≡ kind_for (for_id id) }
{
    match UnitType::for_id(id) {
        Ok(t) => kind(t),
        Err(_) => 0,
    }
}

fn svc_out(e: NalHeaderSvcExtension) -> SvcExtensionOut
    ensures { result ≡ svc_out e }
{
    SvcExtensionOut {
        idr_flag: e.idr_flag(),
        priority_id: e.priority_id(),
        no_inter_layer_pred_flag: e.no_inter_layer_pred_flag(),
        dependency_id: e.dependency_id(),
        quality_id: e.quality_id(),
        temporal_id: e.temporal_id(),
        use_ref_base_pic_flag: e.use_ref_base_pic_flag(),
        discardable_flag: e.discardable_flag(),
        output_flag: e.output_flag(),
    }
}

fn mvc_out(e: NalHeaderMvcExtension) -> MvcExtensionOut
    ensures { result ≡ mvc_out e }
{
    MvcExtensionOut {
        non_idr_flag: e.non_idr_flag(),
        priority_id: e.priority_id(),
        view_id: e.view_id(),
        temporal_id: e.temporal_id(),
        anchor_pic_flag: e.anchor_pic_flag(),
        inter_view_flag: e.inter_view_flag(),
    }
}

// The three bytes of an extension.
#[unsafe(no_mangle)]
pub extern "C" fn tuz_extension(b1: u8, b2: u8, b3: u8) -> ExtensionOut
    ensures { result ≡ extension_out b1 b2 b3 }
{
    let svc = svc_out(NalHeaderSvcExtension { b1, b2, b3 });
    let mvc = mvc_out(NalHeaderMvcExtension { b1, b2, b3 });
    ExtensionOut {
        is_svc: NalHeaderExtension::from_bytes(b1, b2, b3).is_svc(),
        svc,
        mvc,
    }
}
