//! The two sets of rules.

/// By whose rules a text is read and a number is described.
#[derive(Clone, Copy, PartialEq, Eq, Debug)]
pub enum Rules {
    /// By those of libphonenumber: `phone_library`.
    Library,

    /// By those of the crate `phonenumber` 0.3.10 of Rust: `phonenumber`.
    Crate,
}
