// The three bytes after the first one of a unit of type 14, 20 or 21 (H.264, 7.3.1), kept raw. The first of their bits says what the others are.
ghost use Rattle.std.specs.Prelude.{◌≡◌};
ghost use Rattle.nal.specs.Extension.{extension_from, is_svc, extension_of};
ghost use Rattle.nal.specs.Extension.{non_idr_flag, mvc_priority_id, view_id, mvc_temporal_id, anchor_pic_flag, inter_view_flag};
ghost use Rattle.nal.specs.Extension.{idr_flag, svc_priority_id, no_inter_layer_pred_flag, dependency_id, quality_id, svc_temporal_id};
ghost use Rattle.nal.specs.Extension.{use_ref_base_pic_flag, discardable_flag, output_flag};

use bits::refusals::{NO_EXTENSION, Refusal, refuse};

// nal_unit_header_mvc_extension( ) and the bit before it
#[derive(Clone, Copy)]
pub struct NalHeaderMvcExtension {
    pub b1: u8,
    pub b2: u8,
    pub b3: u8,
}

impl NalHeaderMvcExtension {
    pub fn non_idr_flag(self) -> bool
        ensures { result ≡ non_idr_flag self }
    {
        self.b1 / 64 % 2 == 1
    }

    pub fn priority_id(self) -> u8
        ensures { result ≡ mvc_priority_id self }
    {
        self.b1 % 64
    }

    pub fn view_id(self) -> u16
        ensures { result ≡ view_id self }
    {
        self.b2 as u16 * 4 + self.b3 as u16 / 64
    }

    pub fn temporal_id(self) -> u8
        ensures { result ≡ mvc_temporal_id self }
    {
        self.b3 / 8 % 8
    }

    pub fn anchor_pic_flag(self) -> bool
        ensures { result ≡ anchor_pic_flag self }
    {
        self.b3 / 4 % 2 == 1
    }

    pub fn inter_view_flag(self) -> bool
        ensures { result ≡ inter_view_flag self }
    {
        self.b3 / 2 % 2 == 1
    }
}

// nal_unit_header_svc_extension( ) and the bit before it
#[derive(Clone, Copy)]
pub struct NalHeaderSvcExtension {
    pub b1: u8,
    pub b2: u8,
    pub b3: u8,
}

impl NalHeaderSvcExtension {
    pub fn idr_flag(self) -> bool
        ensures { result ≡ idr_flag self }
    {
        self.b1 / 64 % 2 == 1
    }

    pub fn priority_id(self) -> u8
        ensures { result ≡ svc_priority_id self }
    {
        self.b1 % 64
    }

    pub fn no_inter_layer_pred_flag(self) -> bool
        ensures { result ≡ no_inter_layer_pred_flag self }
    {
        self.b2 / 128 % 2 == 1
    }

    pub fn dependency_id(self) -> u8
        ensures { result ≡ dependency_id self }
    {
        self.b2 / 16 % 8
    }

    pub fn quality_id(self) -> u8
        ensures { result ≡ quality_id self }
    {
        self.b2 % 16
    }

    pub fn temporal_id(self) -> u8
        ensures { result ≡ svc_temporal_id self }
    {
        self.b3 / 32 % 8
    }

    pub fn use_ref_base_pic_flag(self) -> bool
        ensures { result ≡ use_ref_base_pic_flag self }
    {
        self.b3 / 16 % 2 == 1
    }

    pub fn discardable_flag(self) -> bool
        ensures { result ≡ discardable_flag self }
    {
        self.b3 / 8 % 2 == 1
    }

    pub fn output_flag(self) -> bool
        ensures { result ≡ output_flag self }
    {
        self.b3 / 4 % 2 == 1
    }
}

#[derive(Clone, Copy)]
pub enum NalHeaderExtension {
    Mvc(NalHeaderMvcExtension),
    Svc(NalHeaderSvcExtension),
}

impl NalHeaderExtension {
    // The three bytes, by svc_extension_flag, the first of their bits.
    pub fn from_bytes(b1: u8, b2: u8, b3: u8) -> NalHeaderExtension
        ensures { result ≡ extension_from b1 b2 b3 }
    {
        if 127 < b1 {
            return NalHeaderExtension::Svc(NalHeaderSvcExtension { b1, b2, b3 });
        }
        NalHeaderExtension::Mvc(NalHeaderMvcExtension { b1, b2, b3 })
    }

    pub fn is_svc(self) -> bool
        ensures { result ≡ is_svc self }
    {
        match self {
            NalHeaderExtension::Svc(_) => true,
            NalHeaderExtension::Mvc(_) => false,
        }
    }
}

// The extension of a whole unit: the three bytes after the first.
pub fn extension_of(unit: &[u8]) -> Result<NalHeaderExtension, Refusal>
    ensures { result ≡ extension_of unit.now }
{
    if unit.len() < 4 {
        return Err(refuse(NO_EXTENSION, 0));
    }
    Ok(NalHeaderExtension::from_bytes(unit[1], unit[2], unit[3]))
}
