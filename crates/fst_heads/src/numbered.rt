//! Where the one with a number stands, in a list whose numbers rise.

ghost use Rattle.std.specs.Prelude.{◌≡◌, ◌≢◌, ◌<◌, ℕ, length, All, AllPairs, IsTrue, IfSome, IfNone, slice_index_or};

use crate::directory::Directory;

/// What has a number.
pub trait Numbered {
    ghost numbered: { Self → ℕ };

    /// Its number.
    fn number(&self) -> u32
        ensures { result ≡ numbered self.now };
}

// Whether the one with the number stands there.
fn is_there<T: Numbered>(list: &[T], place: usize, number: u32) -> bool
    ensures { IsTrue result → (place < length list.now) × ((d : T) → T.numbered (slice_index_or list.now place d) ≡ number) }
{
    match list.get(place) {
        Some(it) => it.number() == number,
        None => false,
    }
}

// Whether none has the number, since it lies between that of the one there and that of the one before.
fn is_missing<T: Numbered>(list: &[T], place: usize, number: u32) -> bool
    requires { AllPairs (λ x y. T.numbered x < T.numbered y) list.now }
    ensures { IsTrue result → All (λ x. T.numbered x ≢ number) list.now }
{
    if list.len() < place {
        return false;
    }
    if 0 < place && list[place - 1].number() >= number {
        return false;
    }
    place == list.len() || number < list[place].number()
}

// The index of the one with the number, which does not stand at that place. Where it is not seen to be missing there, it is looked
// for by halves.
fn look_for<T: Numbered>(list: &[T], place: usize, number: u32) -> Option<usize>
    requires { AllPairs (λ x y. T.numbered x < T.numbered y) list.now }
    ensures found { IfSome result (λ index. (index < length list.now) × ((d : T) → T.numbered (slice_index_or list.now index d) ≡ number)) }
    ensures none { IfNone result (All (λ x. T.numbered x ≢ number) list.now) }
{
    if is_missing(list, place, number) {
        return None;
    }
    match list.binary_search_by_key(&number, |it| it.number()) {
        Ok(index) => Some(index),
        Err(_) => None,
    }
}

/// The index of the one with the number: mostly that which the directory tells.
pub fn index_in<T: Numbered>(list: &[T], directory: &Directory, number: u32) -> Option<usize>
    requires { AllPairs (λ x y. T.numbered x < T.numbered y) list.now }
    ensures found { IfSome result (λ index. (index < length list.now) × ((d : T) → T.numbered (slice_index_or list.now index d) ≡ number)) }
    ensures none { IfNone result (All (λ x. T.numbered x ≢ number) list.now) }
{
    let place = directory.place(number);
    if is_there(list, place, number) {
        return Some(place);
    }
    look_for(list, place, number)
}
