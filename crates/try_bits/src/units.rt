// First bytes, extensions and bodies.
use super::show;
use bits::refusals::Refusal;
use escape::escape::unescape;
use nal::extension::{
    NalHeaderExtension, NalHeaderMvcExtension, NalHeaderSvcExtension, extension_of,
};
use nal::header::{NalHeader, header_of};
use nal::unit_type::{UnitType, UnitTypeError};
use std::io;

fn flag(rt: &impl Print, name: &[u8], b: bool) -> io::Result<()> {
    show::text(rt, name)?;
    show::number(rt, if b { 1 } else { 0 })
}

fn field(rt: &impl Print, name: &[u8], n: u64) -> io::Result<()> {
    show::text(rt, name)?;
    show::number(rt, n)
}

// An id, and the id of its type again.
fn type_of(rt: &impl Print, id: u8) -> io::Result<()> {
    match UnitType::for_id(id) {
        Ok(t) => show::number(rt, t.id() as u64),
        Err(UnitTypeError::ValueOutOfRange(v)) => {
            show::text(rt, b"out of range ")?;
            show::number(rt, v as u64)
        }
    }
}

fn show_header(rt: &impl Print, a: Result<NalHeader, Refusal>) -> io::Result<()> {
    match a {
        Ok(h) => header(rt, h),
        Err(r) => show::refusal(rt, r),
    }
}

fn header(rt: &impl Print, h: NalHeader) -> io::Result<()> {
    let t = h.nal_unit_type();
    field(rt, b"nal_ref_idc=", h.nal_ref_idc() as u64)?;
    field(rt, b" nal_unit_type=", t.id() as u64)
}

fn show_extension(rt: &impl Print, a: Result<NalHeaderExtension, Refusal>) -> io::Result<()> {
    match a {
        Ok(e) => extension(rt, e),
        Err(r) => show::refusal(rt, r),
    }
}

fn extension(rt: &impl Print, e: NalHeaderExtension) -> io::Result<()> {
    match e {
        NalHeaderExtension::Mvc(m) => mvc(rt, m),
        NalHeaderExtension::Svc(v) => {
            svc_layer(rt, v)?;
            svc_picture(rt, v)
        }
    }
}

fn mvc(rt: &impl Print, m: NalHeaderMvcExtension) -> io::Result<()> {
    flag(rt, b"mvc non_idr_flag=", m.non_idr_flag())?;
    field(rt, b" priority_id=", m.priority_id() as u64)?;
    field(rt, b" view_id=", m.view_id() as u64)?;
    field(rt, b" temporal_id=", m.temporal_id() as u64)?;
    flag(rt, b" anchor_pic_flag=", m.anchor_pic_flag())?;
    flag(rt, b" inter_view_flag=", m.inter_view_flag())
}

fn svc_layer(rt: &impl Print, v: NalHeaderSvcExtension) -> io::Result<()> {
    flag(rt, b"svc idr_flag=", v.idr_flag())?;
    field(rt, b" priority_id=", v.priority_id() as u64)?;
    flag(
        rt,
        b" no_inter_layer_pred_flag=",
        v.no_inter_layer_pred_flag(),
    )?;
    field(rt, b" dependency_id=", v.dependency_id() as u64)?;
    field(rt, b" quality_id=", v.quality_id() as u64)
}

fn svc_picture(rt: &impl Print, v: NalHeaderSvcExtension) -> io::Result<()> {
    field(rt, b" temporal_id=", v.temporal_id() as u64)?;
    flag(rt, b" use_ref_base_pic_flag=", v.use_ref_base_pic_flag())?;
    flag(rt, b" discardable_flag=", v.discardable_flag())?;
    flag(rt, b" output_flag=", v.output_flag())
}

// A body of up to 12 bytes, and the scratch it was put into, which held EE everywhere.
fn body(rt: &impl Print, unit: &[u8], from: usize) -> io::Result<()> {
    let mut scratch = [0xeeu8; 12];
    let a = unescape(unit, from, &mut scratch);
    match a {
        Ok(n) => {
            show::text(rt, b"bytes=")?;
            show::number(rt, n as u64)?;
        }
        Err(r) => show::refusal(rt, r)?,
    }
    show::text(rt, b" scratch")?;
    show::bytes(rt, &scratch)
}

pub(crate) fn answer(rt: &impl Print, kind: u32, at: usize, n: u32, unit: &[u8]) -> io::Result<()> {
    if kind == 9 {
        type_of(rt, (n % 256) as u8)
    } else if kind == 10 {
        show_header(rt, header_of(unit))
    } else if kind == 11 {
        show_extension(rt, extension_of(unit))
    } else {
        body(rt, unit, at)
    }
}
