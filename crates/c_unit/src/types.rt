/// An integer type. `char` is signed.
#[derive(Clone, Copy, Debug, PartialEq, Eq)]
pub enum Integer {
    Char,
    UnsignedChar,
    Short,
    UnsignedShort,
    Int,
    UnsignedInt,
}

/// The type of a parameter, of a local that is no array, or of a cast.
#[derive(Clone, Copy, Debug, PartialEq, Eq)]
pub enum Scalar {
    Integer(Integer),
    /// A pointer to an integer type.
    Pointer(Integer),
}

/// What a function gives.
#[derive(Clone, Copy, Debug, PartialEq, Eq)]
pub enum Outcome {
    Nothing,
    Integer(Integer),
}

/// A constant: whether a minus stands before it, and its token.
#[derive(Clone, Copy, Debug)]
pub struct Constant {
    pub minus: bool,
    pub token: u32,
}
