//! Names: identifiers that share their text.
ghost use Rattle.std.specs.Prelude.{◌≡◌, IfOk, IfErr, OnOk, IfSome, OnSome, IfNone, ◌↔◌, IsTrue, length, ◌≤◌, ◌<◌, not, ◌&&◌, Some, nat_eq, refl};
ghost use Rattle.std.specs.Str.{chars};
ghost use Rattle.std.specs.Cmp as laws_of;
ghost use Rattle.std.specs.Cmp.Lexicographic.{pointwise, slice_cmp, nat_list_eq_equiv, nat_list_cmp_total, texts_ties, texts_po};
ghost use Rattle.std.specs.Cmp.Rules.{hashing};
ghost use Rattle.std.specs.Hash as fed;
ghost use Rattle.std.specs.Ordering.{nat_cmp};
ghost use Rattle.std.proofs.Common.{rules};
ghost use Rattle.cic_names.specs.Identifier.{is_first, is_further, is_word, is_one_of, sort_words, binder_words, match_words, is_reserved, IsIdentifier};
ghost use Rattle.std.specs.List.{list_all};

use memory::OutOfMemory;
use std::alloc::{AllocError, Global};
use std::cmp::Ordering;
use std::hash::{Hash, Hasher};
use std::marker::Model;
use std::rc::RcStr;
use thiserror::Error;

/// Why bytes are no `Name`.
#[derive(Clone, Copy, Debug, PartialEq, Eq, Error)]
pub enum NameFault {
    /// They are no identifier.
    #[error("not an identifier")]
    NotIdent,
    /// They are an identifier of more than 255 bytes.
    #[error("an identifier of more than 255 bytes")]
    Long,
    #[error("out of memory")]
    NoMemory,
}

impl<E: OutOfMemory> From<E> for NameFault {
    ghost use Rattle.cic_names.specs.declared.name.NameFault.TheVariants.{NoMemory};

    ghost from_gives = { λ _ fault. fault ≡ NoMemory };

    fn from(_fault: E) -> NameFault {
        NameFault::NoMemory
    }
}

/// An identifier of 1 to 255 bytes. Copies share its text.
#[derive(Debug, Drop)]
pub struct Name {
    text: RcStr,
}

impl Model for Name {
    ghost use Rattle.std.specs.Prelude.{List, ℕ, length, ◌≤◌};
    ghost use Rattle.std.specs.Rc.{rc_str_bytes};
    ghost use Rattle.cic_names.specs.Identifier.{IsIdentifier};

    ghost Value = { List ℕ };

    ghost view = { λ n. rc_str_bytes n.text };

    ghost invariant = { λ n. IsIdentifier (rc_str_bytes n.text) × (length (rc_str_bytes n.text) ≤ 255) };
}

fn is_first(c: char) -> bool
    ensures { result ≡ is_first c }
{
    let letter = if c.is_ascii() {
        c.is_ascii_alphabetic()
    } else {
        unicode_ident::is_xid_start(c)
    };
    letter || c == '_'
}

fn is_further(c: char) -> bool
    ensures { result ≡ is_further c }
{
    if c.is_ascii() {
        c.is_ascii_alphanumeric() || c == '_' || c == '\''
    } else {
        unicode_ident::is_xid_continue(c)
    }
}

fn are_further(text: &str) -> bool
    ensures { result ≡ list_all is_further (chars text.now) }
{
    for c in text.chars() {
        if !is_further(c) {
            return false;
        }
    }
    true
}

fn is_word(text: &str) -> bool
    ensures { result ≡ is_word (chars text.now) }
{
    let mut further = text.chars();
    match further.next() {
        None => false,
        Some(c) => is_first(c) && are_further(further.as_str()),
    }
}

fn is_sort_word(text: &str) -> bool
    ensures { result ≡ is_one_of sort_words text.now }
{
    text == "Prop" || text == "Set" || text == "Type"
}

fn is_binder_word(text: &str) -> bool
    ensures { result ≡ is_one_of binder_words text.now }
{
    text == "forall"
        || text == "fun"
        || text == "let"
        || text == "in"
        || text == "fix"
        || text == "for"
}

fn is_match_word(text: &str) -> bool
    ensures { result ≡ is_one_of match_words text.now }
{
    text == "match" || text == "as" || text == "return" || text == "with" || text == "end"
}

fn is_reserved(text: &str) -> bool
    ensures { result ≡ is_reserved text.now }
{
    is_sort_word(text) || is_binder_word(text) || is_match_word(text) || text == "_"
}

/// The text of an identifier, of any length.
fn identifier(bytes: &[u8]) -> Option<&str>
    ensures value { IfSome result (λ text. text.now ≡ bytes.now) }
    ensures found { OnSome result (IsIdentifier bytes.now) }
    ensures absent { IfNone result (¬ IsIdentifier bytes.now) }
{
    match str::from_utf8(bytes) {
        Ok(text) if is_word(text) && !is_reserved(text) => Some(text),
        _ => None,
    }
}

impl Name {
    /// The name that these bytes spell. Coq Reference Manual, "Lexical conventions".
    pub fn new(alloc: Global, bytes: &[u8]) -> Result<Name, NameFault>
        ensures value { IfOk result (λ name. name ≡ bytes.now) }
        ensures identifier { OnOk result (IsIdentifier bytes.now) }
        ensures short { OnOk result (length bytes.now ≤ 255) }
        ensures not_identifier { IfErr result (λ fault. fault ≡ NameFault.NotIdent → ¬ IsIdentifier bytes.now) }
        ensures long_identifier { IfErr result (λ fault. fault ≡ NameFault.Long → IsIdentifier bytes.now) }
        ensures long { IfErr result (λ fault. fault ≡ NameFault.Long → 255 < length bytes.now) }
    {
        let Some(text) = identifier(bytes) else {
            return Err(NameFault::NotIdent);
        };
        if text.len() > 255 {
            return Err(NameFault::Long);
        }
        Ok(Name {
            text: RcStr::from_str(alloc, text)?,
        })
    }

    /// The identifier.
    pub fn text(&self) -> &str
        ensures value { result.now ≡ self.now }
        ensures identifier { IsIdentifier self.now }
        ensures short { length self.now ≤ 255 }
    {
        self.text.as_str()
    }

    /// The identifier's bytes, which are UTF-8.
    pub fn bytes(&self) -> &[u8]
        ensures value { result.now ≡ self.now }
        ensures identifier { IsIdentifier self.now }
        ensures short { length self.now ≤ 255 }
    {
        self.text.as_str().as_bytes()
    }
}

impl Clone for Name {
    ghost is_clone = { λ a b. b ≡ a };

    fn clone(&self) -> Result<Name, AllocError> {
        Ok(Name {
            text: self.text.clone()?,
        })
    }
}

impl PartialEq for Name {
    ghost eq = { pointwise nat_eq };

    ghost laws = { laws_of.partial_equiv_from_equiv nat_list_eq_equiv };

    fn eq(&self, other: &Name) -> bool {
        self.text == other.text
    }
}

impl Eq for Name {
    ghost laws = { nat_list_eq_equiv };
}

impl PartialOrd for Name {
    ghost partial_cmp = { λ a b. Some (slice_cmp nat_cmp a b) };

    ghost laws = { texts_po };

    fn partial_cmp(&self, other: &Name) -> Option<Ordering> {
        Some(self.cmp(other))
    }
}

impl Ord for Name {
    ghost cmp = { slice_cmp nat_cmp };

    ghost total = { nat_list_cmp_total };

    ghost matches_partial_cmp = { λ a b. refl };

    ghost matches_eq = { texts_ties };

    fn cmp(&self, other: &Name) -> Ordering {
        self.text.cmp(&other.text)
    }
}

impl Hash for Name {
    ghost hash_input = { fed.str };

    ghost respects_eq = { Prim.search (hashing, rules) };

    fn hash<H: Hasher>(&self, state: &mut H) {
        self.text.hash(state);
    }
}

/// A library's name, which is its file's stem.
pub type LibName = Name;

/// A library and a name in it.
#[derive(Clone, Debug, Drop, PartialEq, Eq, PartialOrd, Ord, Hash)]
pub struct GlobalId {
    pub lib: LibName,
    pub name: Name,
}
