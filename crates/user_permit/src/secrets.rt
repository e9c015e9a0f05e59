// Two secrets of sixteen bytes, which no call can mistake for each other. One type with a marker for each would say
// no more.
use octets::block::Block;

#[derive(Clone, Copy)]
pub struct ManufacturerKey(pub Block);

#[derive(Clone, Copy)]
pub struct HardwareId(pub Block);
