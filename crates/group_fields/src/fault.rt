use thiserror::Error;

/// Why bytes are not what they should be, with the least place at which they are refused.
#[derive(Clone, Copy, Debug, PartialEq, Eq, Error)]
pub enum FieldFault {
    /// The field at this place does not fit.
    #[error("the field at place {0} does not fit")]
    Short(u32),
    /// This byte is the first that is left over.
    #[error("bytes are left over from place {0} on")]
    Excess(u32),
    /// The field at this place has a value that is not allowed.
    #[error("the field at place {0} has a value that is not allowed")]
    Range(u32),
}
