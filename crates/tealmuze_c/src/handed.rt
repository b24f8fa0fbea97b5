// What a call hands out to a caller in C: a value that the caller owns from then on, behind a pointer.
ghost use Rattle.std.specs.Prelude.{◌≡◌, Option, None, Some};
ghost use Rattle.std.specs.Ptr.{Ptr};
ghost use denote.RawPtr.{coded_ptr};
ghost use Rattle.std.specs.Coded.{coded_option};
ghost use Rattle.tealmuze_c.specs.Owned.{owned_if};

use std::marker::{Model, PhantomData};

// How many bytes the answer has, and what is owned where, if anything is.
pub(crate) struct Handed<T> {
    pub(crate) written: usize,
    pub(crate) marker: PhantomData<*const T>,
    pub(crate) ghost at: { Ptr } by { coded_ptr },
    pub(crate) ghost is: { Option T } by { coded_option T.code },
}

impl<T> Model for Handed<T> {
    ghost also_owns = { λ h. owned_if T.row h.at h.is };
}

impl<T: Drop> Handed<T> {
    // Hands the value out by this pointer.
    pub(crate) fn of(value: Box<T>, at: &mut *mut u8, written: usize) -> Handed<T>
        ensures { (result.is ≡ Some value.value) × (result.at ≡ at.new) × (result.written ≡ written) }
    {
        *at = Box::into_raw(value) as *mut u8;
        Handed {
            written,
            marker: PhantomData,
        }
    }

    // Hands nothing out.
    pub(crate) fn none(written: usize) -> Handed<T>
        ensures { (result.is ≡ None) × (result.written ≡ written) }
    {
        Handed {
            written,
            marker: PhantomData,
        }
    }
}
