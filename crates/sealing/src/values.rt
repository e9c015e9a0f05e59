// What a sealing is given besides the dataset: three values of sixteen bytes, which no call can mistake for each other.
// One type for each is plainer than a type with a parameter for the kind, which would need a type for each kind too.
use octets::block::Block;

#[derive(Clone, Copy)]
pub struct DatasetKey(pub Block);

#[derive(Clone, Copy)]
pub struct LeadingBlock(pub Block);

#[derive(Clone, Copy)]
pub struct StartingVector(pub Block);

// What a sealing begins with. It goes into the first sealed block, which no opening deciphers.
#[derive(Clone, Copy)]
pub struct Beginning {
    pub lead: LeadingBlock,
    pub start: StartingVector,
}
