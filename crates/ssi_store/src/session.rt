//! Names of sessions.

ghost use Rattle.std.specs.Prelude.{◌≡◌, ◌≤◌, length, nat_eq, is_some, IfSome};
ghost use Rattle.std.specs.Cmp.Lexicographic.{pointwise, nat_list_eq_equiv};
ghost use Rattle.std.specs.Cmp.{partial_equiv_from_equiv};
ghost use Rattle.std.specs.Cmp.Rules.{hashing};
ghost use Rattle.std.specs.Hash as fed;
ghost use Rattle.std.proofs.Common.{rules};
ghost use Rattle.std.specs.List.{list_all};
ghost use Rattle.adya_keys.specs.Machinery.Padded.{padded as with_zeros};
ghost use Rattle.ssi_store.specs.Meaning.Sessions.{is_session, is_session_byte};

use std::hash::{Hash, Hasher};
use std::marker::Model;

/// The most bytes of a session's name.
pub const MAX_SESSION_LEN: usize = 16;

/// The name of a session: 1 to 16 bytes of `A-Z`, `a-z`, `0-9` and `_`.
#[derive(Clone, Copy)]
pub struct Session {
    bytes: [u8; 16],
    len: u8,
}

impl Model for Session {
    ghost use Rattle.std.specs.Prelude.{ℕ, List, length, take};
    ghost use Rattle.adya_keys.specs.Machinery.Padded.{IsText, padded, padded_back};
    ghost use Rattle.ssi_store.specs.Meaning.Sessions.{is_session};

    ghost Value = { List ℕ };

    ghost view = { λ s. take s.len s.bytes };

    ghost invariant = { λ s. IsText 16 is_session s.bytes s.len };

    ghost inverse = { λ xs. record { bytes = padded 16 xs; len = length xs } };

    ghost inverse_ok = { λ s h i. record {
      bytes = (padded_back 16 s.bytes s.len h.full h.room h.rest).0 i;
      len = (padded_back 16 s.bytes s.len h.full h.room h.rest).1 i;
    } };
}

impl Session {
    /// Makes a name of these bytes; none if and only if they don't form one.
    pub fn new(text: &[u8]) -> Option<Session>
        ensures limits { is_some result ≡ is_session text.now }
        ensures same { IfSome result (λ s. s ≡ text.now) }
    {
        if !is_session(text) {
            return None;
        }
        Some(Session {
            bytes: padded(text),
            len: text.len() as u8,
        })
    }

    /// Returns the bytes of the name.
    pub fn bytes(&self) -> &[u8]
        ensures { result.now ≡ self.now }
    {
        &self.bytes[..self.len as usize]
    }
}

/// Returns the text, followed by zeros.
fn padded(text: &[u8]) -> [u8; 16]
    requires { length text.now ≤ 16 }
    ensures { result ≡ with_zeros 16 text.now }
{
    let mut bytes = [0; 16];
    bytes[..text.len()].copy_from_slice(text);
    bytes
}

#[tactic(auto, unfolding(crate::specs::Meaning::Sessions::is_session_byte))]
fn is_session_byte(b: u8) -> bool
    ensures { result ≡ is_session_byte b }
{
    matches!(b, b'a'..=b'z' | b'A'..=b'Z' | b'0'..=b'9' | b'_')
}

fn is_session(text: &[u8]) -> bool
    ensures { result ≡ is_session text.now }
{
    !text.is_empty() && text.len() <= MAX_SESSION_LEN && all_session_bytes(text)
}

fn all_session_bytes(text: &[u8]) -> bool
    ensures { result ≡ list_all is_session_byte text.now }
{
    text.iter().all(|b| is_session_byte(*b))
}

impl PartialEq for Session {
    ghost eq = { pointwise nat_eq };

    ghost laws = { partial_equiv_from_equiv nat_list_eq_equiv };

    fn eq(&self, other: &Self) -> bool {
        self.bytes() == other.bytes()
    }
}

impl Eq for Session {
    ghost laws = { nat_list_eq_equiv };
}

impl Hash for Session {
    ghost hash_input = { fed.slice fed.u8 };

    ghost respects_eq = { Prim.search (hashing, rules) };

    fn hash<H: Hasher>(&self, state: &mut H) {
        self.bytes().hash(state);
    }
}
