//! One token after another of a line, each taken where it is the one that is looked for.

ghost use Rattle.std.specs.Prelude.{◌≡◌, ◌==◌, ◌∷◌, [], List, ℕ, false, Some, IsTrue, IfSome, slice_index};
ghost use Rattle.json.specs.Token.{begin_object, end_object, key, string, number};
ghost use Rattle.serde_json.specs.Data.{unsigned};
ghost use Rattle.serde_json.specs.Read.{number_of, number_from};
ghost use Rattle.fst_lines.specs.Short.{NumberUnder, small_number};

use fast_float::Numeral;
use json::{Reader, Token};

pub(crate) fn is(text: &str, other: &str) -> bool
    ensures { IsTrue result → text.now ≡ other.now }
{
    text == other
}

pub(crate) fn takes_begin(reader: &mut Reader<'_>) -> bool
    ensures { IsTrue result → reader.old ≡ begin_object ∷ reader.new }
{
    match reader.next() {
        Some(Token::BeginObject) => true,
        _ => false,
    }
}

pub(crate) fn takes_end(reader: &mut Reader<'_>) -> bool
    ensures { IsTrue result → reader.old ≡ end_object ∷ [] }
{
    match reader.next() {
        Some(Token::EndObject) => reader.next().is_none(),
        _ => false,
    }
}

pub(crate) fn take_text<'a>(reader: &mut Reader<'a>) -> Option<&'a str>
    ensures { IfSome result (λ text. reader.old ≡ string text.now ∷ reader.new) }
{
    match reader.next() {
        Some(Token::String(text)) => Some(text),
        _ => None,
    }
}

fn has_minus(bytes: &[u8]) -> bool
    ensures { result ≡ (slice_index bytes.now 0 == 45) }
{
    !bytes.is_empty() && bytes[0] == b'-'
}

fn whole(numeral: &Numeral<'_>) -> Option<u64>
    ensures { IfSome result (λ n. number_from false numeral.now ≡ Some (unsigned n)) }
{
    numeral.to_u64()
}

// The number that a text is, where it is one of 64 bits.
fn unsigned(text: &str) -> Option<u64>
    ensures { IfSome result (λ n. number_of text.now ≡ Some (unsigned n)) }
{
    let bytes = text.as_bytes();
    if has_minus(bytes) {
        return None;
    }
    whole(&Numeral::scan(bytes))
}

pub(crate) fn take_number(reader: &mut Reader<'_>) -> Option<u64>
    ensures { IfSome result (λ n. (text : List ℕ) × (reader.old ≡ number text ∷ reader.new) × (number_of text ≡ Some (unsigned n))) }
{
    match reader.next() {
        Some(Token::Number(text)) => unsigned(text),
        _ => None,
    }
}

// The number that a text is, where it is one of 32 bits.
pub(crate) fn small(text: &str) -> Option<u32>
    ensures { IfSome result (λ n. small_number text.now ≡ Some n) }
{
    match unsigned(text) {
        Some(n) if n <= 4_294_967_295 => Some(n as u32),
        _ => None,
    }
}

pub(crate) fn takes_key(reader: &mut Reader<'_>, name: &str) -> bool
    ensures { IsTrue result → reader.old ≡ key name.now ∷ reader.new }
{
    match reader.next() {
        Some(Token::Key(found)) => is(found, name),
        _ => false,
    }
}

pub(crate) fn take_number_under(reader: &mut Reader<'_>, name: &str) -> Option<u32>
    ensures { IfSome result (λ n. NumberUnder name.now n reader.old reader.new) }
{
    if !takes_key(reader, name) {
        return None;
    }
    match reader.next() {
        Some(Token::Number(text)) => small(text),
        _ => None,
    }
}
