//! Numbers that contracts alone see, as the bytes of a patch or what a slot held.
//!
//! A [`Noted`] has no bytes and does nothing when it runs, so it can stand in a type that crosses threads. Its list is
//! tied by the one clause of `Noted::of`, whose proof is written by hand; nothing else makes one or changes one.
ghost use Rattle.std.specs.Prelude.{◌≡◌, List, ℕ};
ghost use Rattle.std.specs.Borrow.{ftrue};

use std::marker::{Model, PhantomData};

/// Which numbers of a value are noted. A type that has it is only a name: no value of it is made.
pub trait Notes<X> {
    ghost noted: { X → List ℕ };
}

/// A list of numbers for contracts. It takes no memory and owns nothing.
#[derive(Drop)]
pub struct Noted {
    marker: PhantomData<()>,
    pub ghost items: { List ℕ },
}

impl Model for Noted {
    ghost also_owns = { λ _. ftrue };
}

// It owns nothing, so any thread may have it: proofs/noted/Noted/TheSendSync has the proof.
unsafe impl Send for Noted {}

impl Noted {
    /// The numbers that `N` notes of the value.
    pub fn of<X, N: Notes<X>>(value: &X) -> Noted
        ensures { result.items ≡ N.noted value.now }
    {
        let _ = value;
        Noted {
            marker: PhantomData,
        }
    }

    /// What a slice holds.
    pub fn of_bytes(bytes: &[u8]) -> Noted
        ensures { result.items ≡ bytes.now }
    {
        Noted::of::<&[u8], Items>(&bytes)
    }
}

/// Notes what a vector or a slice holds, or what is noted already.
pub struct Items;

impl Notes<Vec<u8>> for Items {
    ghost noted = { λ v. v.items };
}

impl Notes<Noted> for Items {
    ghost noted = { λ n. n.items };
}

impl<'a> Notes<&'a [u8]> for Items {
    ghost noted = { λ s. s.now };
}
