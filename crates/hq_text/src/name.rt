//! Names.

ghost use Rattle.std.specs.Prelude.{◌≡◌, ◌↔◌, ◌≤◌, List, ℕ, length, Some, IsSome, IfSome};
ghost use Rattle.std.specs.Bool.{OnTrue};
ghost use Rattle.std.specs.List.{list_all};
ghost use Rattle.std.specs.Str.{bytes_eq};
ghost use Rattle.std.specs.Hash as fed;
ghost use Rattle.std.specs.Cmp.Rules.{comparing, hashing};
ghost use Rattle.std.proofs.Common.{rules};
ghost use Rattle.hq_text.specs.Names.{is_name, is_name_char, IsName};

use std::hash::{Hash, Hasher};
use std::marker::Model;
use std::{fmt, str};

/// How many characters a name has at most.
const LEN: usize = 16;

/// A name: 1 to 16 characters of a to z, 0 to 9 and underscore, the first a letter.
#[derive(Clone, Copy)]
pub struct Name {
    bytes: [u8; LEN],
    len: usize,
}

impl Model for Name {
    ghost use Rattle.std.specs.Prelude.{List, ℕ};

    ghost Value = { List ℕ };

    ghost use Rattle.hq_text.specs.Padded.{written, padded, Padded, padded_written};

    ghost view = { written };

    ghost invariant = { Padded };

    ghost inverse = { padded };

    ghost inverse_ok = { padded_written };
}

fn are_name_chars(word: &[u8]) -> bool
    ensures { result ≡ list_all is_name_char word.now }
{
    word.iter()
        .all(|c| matches!(*c, b'a'..=b'z' | b'0'..=b'9' | b'_'))
}

#[tactic(auto, unfolding(crate::specs::Names::is_name))]
fn is_name(word: &[u8]) -> bool
    ensures value { result ≡ is_name word.now }
    ensures short { OnTrue result (length word.now ≤ 16) }
{
    match word {
        [b'a'..=b'z', others @ ..] => are_name_chars(others) && others.len() < LEN,
        _ => false,
    }
}

impl Name {
    /// The name that a word is.
    pub fn new(word: &[u8]) -> Option<Name>
        ensures value { IfSome result (λ name. name ≡ word.now) }
        ensures found { IsSome result ↔ IsName word.now }
    {
        if !is_name(word) {
            return None;
        }
        let mut bytes = [0; LEN];
        bytes[..word.len()].copy_from_slice(word);
        Some(Name {
            bytes,
            len: word.len(),
        })
    }

    /// The name's characters.
    pub fn as_bytes(&self) -> &[u8]
        ensures value { result.now ≡ self.now }
        ensures name { IsName self.now }
    {
        &self.bytes[..self.len]
    }

    /// The name as text.
    pub fn as_str(&self) -> &str
        ensures { result.now ≡ self.now }
    {
        str::from_utf8(self.as_bytes()).unwrap()
    }
}

impl fmt::Debug for Name {
    fn fmt<W: fmt::Write>(&self, f: &mut fmt::Formatter<W>) -> fmt::Result {
        fmt::Debug::fmt(self.as_str(), f)
    }
}

impl fmt::Display for Name {
    ghost output = { λ name. Some name };

    fn fmt<W: fmt::Write>(&self, f: &mut fmt::Formatter<W>) -> fmt::Result {
        f.write_str(self.as_str())
    }
}

impl PartialEq for Name {
    ghost eq = { bytes_eq };

    ghost laws = { Prim.search (comparing, rules) };

    fn eq(&self, other: &Name) -> bool {
        self.as_bytes() == other.as_bytes()
    }
}

impl Eq for Name {
    ghost laws = { Prim.search (comparing, rules) };
}

impl Hash for Name {
    ghost hash_input = { λ name. fed.slice fed.u8 name };

    ghost respects_eq = { Prim.search (hashing, rules) };

    fn hash<H: Hasher>(&self, state: &mut H) {
        self.as_bytes().hash(state);
    }
}
