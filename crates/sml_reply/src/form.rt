//! In which form replies are printed.

/// The version of the text: in the second, type names that stand at paths print as these.
#[derive(Clone, Copy, PartialEq, Eq)]
pub enum Version {
    One,
    Two,
}

/// The version of the text, and whether warnings are printed.
#[derive(Clone, Copy, PartialEq, Eq)]
pub struct Form {
    pub version: Version,
    pub warnings: bool,
}
