// The first byte of a NAL unit (H.264, 7.3.1).
ghost use Rattle.std.specs.Prelude.{◌≡◌};
ghost use Rattle.nal.specs.UnitType.{id_of};
ghost use Rattle.nal.specs.Header.{header_from, header_of, nal_ref_idc, nal_unit_type};

use crate::unit_type::UnitType;
use bits::refusals::{FORBIDDEN_ZERO_BIT, NO_BYTE, Refusal, refuse};

#[derive(Clone, Copy)]
pub struct NalHeader(pub u8);

impl NalHeader {
    pub fn new(header_value: u8) -> Result<NalHeader, Refusal>
        ensures { result ≡ header_from header_value }
    {
        if 127 < header_value {
            return Err(refuse(FORBIDDEN_ZERO_BIT, 0));
        }
        Ok(NalHeader(header_value))
    }

    pub fn nal_ref_idc(self) -> u8
        ensures { result ≡ nal_ref_idc self }
    {
        self.0 / 32 % 4
    }

    // The id of `nal_unit_type`, without the table of types.
    pub fn type_id(self) -> u8
        ensures { result ≡ id_of (nal_unit_type self) }
    {
        self.0 % 32
    }

    pub fn nal_unit_type(self) -> UnitType
        ensures { result ≡ nal_unit_type self }
    {
        UnitType::of_low_bits(self.0)
    }
}

// The header of a whole unit: its first byte.
pub fn header_of(unit: &[u8]) -> Result<NalHeader, Refusal>
    ensures { result ≡ header_of unit.now }
{
    if unit.len() == 0 {
        return Err(refuse(NO_BYTE, 0));
    }
    NalHeader::new(unit[0])
}
