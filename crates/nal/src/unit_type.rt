// The types of a NAL unit (H.264, table 7-1).
ghost use Rattle.std.specs.Prelude.{◌≡◌, ◌%◌};
ghost use Rattle.nal.specs.UnitType.{type_of, for_id, id_of};

#[derive(Clone, Copy)]
pub enum UnitType {
    // 0 and 24 to 31
    Unspecified(u8),
    SliceLayerWithoutPartitioningNonIdr,
    SliceDataPartitionALayer,
    SliceDataPartitionBLayer,
    SliceDataPartitionCLayer,
    SliceLayerWithoutPartitioningIdr,
    // supplemental enhancement information
    SEI,
    SeqParameterSet,
    PicParameterSet,
    AccessUnitDelimiter,
    EndOfSeq,
    EndOfStream,
    FillerData,
    SeqParameterSetExtension,
    PrefixNALUnit,
    SubsetSeqParameterSet,
    DepthParameterSet,
    SliceLayerWithoutPartitioningAux,
    SliceExtension,
    SliceExtensionViewComponent,
    // 17, 18, 22 and 23
    Reserved(u8),
}

// nal_unit_type 0, 1, 2, .., 31, in the order of table 7-1.
const TYPES: [UnitType; 32] = [
    UnitType::Unspecified(0),
    UnitType::SliceLayerWithoutPartitioningNonIdr,
    UnitType::SliceDataPartitionALayer,
    UnitType::SliceDataPartitionBLayer,
    UnitType::SliceDataPartitionCLayer,
    UnitType::SliceLayerWithoutPartitioningIdr,
    UnitType::SEI,
    UnitType::SeqParameterSet,
    UnitType::PicParameterSet,
    UnitType::AccessUnitDelimiter,
    UnitType::EndOfSeq,
    UnitType::EndOfStream,
    UnitType::FillerData,
    UnitType::SeqParameterSetExtension,
    UnitType::PrefixNALUnit,
    UnitType::SubsetSeqParameterSet,
    UnitType::DepthParameterSet,
    UnitType::Reserved(17),
    UnitType::Reserved(18),
    UnitType::SliceLayerWithoutPartitioningAux,
    UnitType::SliceExtension,
    UnitType::SliceExtensionViewComponent,
    UnitType::Reserved(22),
    UnitType::Reserved(23),
    UnitType::Unspecified(24),
    UnitType::Unspecified(25),
    UnitType::Unspecified(26),
    UnitType::Unspecified(27),
    UnitType::Unspecified(28),
    UnitType::Unspecified(29),
    UnitType::Unspecified(30),
    UnitType::Unspecified(31),
];

// Why an id names no type.
#[derive(Clone, Copy)]
pub enum UnitTypeError {
    // over 31
    ValueOutOfRange(u8),
}

impl UnitType {
    pub fn for_id(id: u8) -> Result<UnitType, UnitTypeError>
        ensures { result ≡ for_id id }
    {
        if 31 < id {
            return Err(UnitTypeError::ValueOutOfRange(id));
        }
        Ok(UnitType::of_low_bits(id))
    }

    // The type that the low five bits of a byte name.
    pub(crate) fn of_low_bits(byte: u8) -> UnitType
        ensures { result ≡ type_of (byte % 32) }
    {
        TYPES[(byte % 32) as usize]
    }

    pub fn id(self) -> u8
        ensures { result ≡ id_of self }
    {
        match self {
            UnitType::Unspecified(v) => v,
            UnitType::SliceLayerWithoutPartitioningNonIdr => 1,
            UnitType::SliceDataPartitionALayer => 2,
            UnitType::SliceDataPartitionBLayer => 3,
            UnitType::SliceDataPartitionCLayer => 4,
            UnitType::SliceLayerWithoutPartitioningIdr => 5,
            UnitType::SEI => 6,
            UnitType::SeqParameterSet => 7,
            UnitType::PicParameterSet => 8,
            UnitType::AccessUnitDelimiter => 9,
            UnitType::EndOfSeq => 10,
            UnitType::EndOfStream => 11,
            UnitType::FillerData => 12,
            UnitType::SeqParameterSetExtension => 13,
            UnitType::PrefixNALUnit => 14,
            UnitType::SubsetSeqParameterSet => 15,
            UnitType::DepthParameterSet => 16,
            UnitType::SliceLayerWithoutPartitioningAux => 19,
            UnitType::SliceExtension => 20,
            UnitType::SliceExtensionViewComponent => 21,
            UnitType::Reserved(v) => v,
        }
    }
}
