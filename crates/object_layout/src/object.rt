//! Objects.

/// An object: the token that declares it, the number of the function that owns it, if one does, and its size in bits.
#[derive(Clone, Copy, Debug)]
pub struct Object {
    pub token: u32,
    pub owner: Option<u32>,
    pub bits: u32,
}
