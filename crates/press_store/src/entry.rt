//! A thing that is stored, temporary or permanent (PCL 5 Printer Language Technical Reference Manual, Macros, and The PCL
//! Print Model).

ghost use Rattle.std.specs.Prelude.{◌≡◌, IfOk};

use std::alloc::AllocError;

/// What gives an equal one.
pub trait Duplicate: Sized {
    /// An equal one.
    ///
    /// # Errors
    ///
    /// Where memory ran out.
    fn duplicate(&self) -> Result<Self, AllocError>
        ensures { IfOk result (λ copy. copy ≡ self.now) };
}

/// What a store holds under an ID: a thing, and whether a reset keeps it.
#[derive(Drop)]
pub struct Entry<T> {
    /// The thing.
    pub value: T,
    /// Whether it outlives a reset.
    pub permanent: bool,
}

impl<T: Duplicate + Drop> Clone for Entry<T> {
    ghost is_clone = { λ entry copy. copy ≡ entry };

    fn clone(&self) -> Result<Self, AllocError> {
        Ok(Entry {
            value: self.value.duplicate()?,
            permanent: self.permanent,
        })
    }
}
