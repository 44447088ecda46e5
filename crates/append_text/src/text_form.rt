//! The notation of a text, told by its first bytes.

ghost use Rattle.std.specs.Prelude.{◌≡◌, codes, nat_eq, take};
ghost use Rattle.std.specs.Cmp.Lexicographic.{pointwise};
ghost use Rattle.append_text.specs.Meaning.JsonTexts as Json;
ghost use Rattle.append_text.specs.Meaning.Notations as Spec;
ghost use Rattle.append_text.specs.Machinery.Telling.{Decides, begins_key};

use crate::data::is_text;

/// What a text is written in.
#[derive(Clone, Copy, Debug, PartialEq, Eq)]
pub enum TextForm {
    /// EDN.
    Edn,
    /// JSON.
    Json,
}

/// Returns whether the byte is white space of EDN and of JSON.
fn is_blank(byte: u8) -> bool
    ensures { result ≡ Spec.is_blank byte }
{
    byte == b' ' || byte == b'\t' || byte == b'\n' || byte == b'\r'
}

/// Returns whether these bytes are a byte order mark.
pub(crate) fn is_mark(bytes: &[u8]) -> bool
    ensures { result ≡ pointwise nat_eq bytes.now Spec.mark }
{
    is_text(bytes, b"\xef\xbb\xbf")
}

/// Returns what follows the white space at the front.
pub(crate) fn after_blanks(text: &[u8]) -> &[u8]
    ensures { result.now ≡ Spec.after_blanks text.now }
{
    let mut rest = text;
    while let [first, others @ ..] = rest {
        if !is_blank(*first) {
            return rest;
        }
        rest = others;
    }
    rest
}

/// Returns whether a text that begins so is one value that has all operations, if it is one of JSON: an array, or an
/// object with the key `history` first.
pub(crate) fn begins_value(text: &[u8]) -> bool
    ensures { result ≡ Json.begins_value (Spec.after_blanks text.now) }
{
    let begun = after_blanks(text);
    match begun {
        [] => false,
        [first, rest @ ..] => {
            if *first == b'[' {
                return true;
            }
            *first == b'{' && begins_history(rest)
        }
    }
}

/// Returns whether the first key behind a `{` is `history`.
fn begins_history(text: &[u8]) -> bool
    ensures { result ≡ pointwise nat_eq (take 9 (Spec.after_blanks text.now)) (codes "\"history\"") }
{
    let key = after_blanks(text);
    is_text(&key[..key.len().min(9)], b"\"history\"")
}

/// Returns the form of a text that begins so: JSON if its first map, which may stand in an array, has a string as its
/// first key, and EDN if not. `None` if the bytes that follow decide.
pub(crate) fn text_form(text: &[u8]) -> Option<TextForm>
    ensures { Decides Spec.is_json text.now result }
{
    let begun = after_blanks(text);
    match begun {
        [] => None,
        [first, rest @ ..] => {
            if *first == b'[' {
                return form_of_first(after_blanks(rest));
            }
            form_of_first(begun)
        }
    }
}

/// Returns the form of a text whose first element begins so.
fn form_of_first(text: &[u8]) -> Option<TextForm>
    ensures { Decides Spec.begins_object text.now result }
{
    match text {
        [] => None,
        [first, rest @ ..] => {
            if *first == b'{' {
                return form_of_map(rest);
            }
            Some(TextForm::Edn)
        }
    }
}

/// Returns the form of a text that goes on so after a `{`.
fn form_of_map(text: &[u8]) -> Option<TextForm>
    ensures { Decides begins_key text.now result }
{
    match after_blanks(text) {
        [] => None,
        [first, ..] => Some(form_if(*first == b'"')),
    }
}

/// Returns the form of a text that is one of JSON or not.
fn form_if(json: bool) -> TextForm
    ensures { result ≡ Spec.notation_of json }
{
    if json { TextForm::Json } else { TextForm::Edn }
}
