//! Names of tasks and labels.

ghost use Rattle.std.specs.Prelude.{◌≡◌, bytes_eq};
ghost use Rattle.std.proofs.Common.{rules};
ghost use Rattle.std.specs.List.{list_all};
ghost use Rattle.std.specs.Cmp.{partial_order_from_own_ties};
ghost use Rattle.std.specs.Cmp.Lexicographic.{slice_cmp};
ghost use Rattle.std.specs.Cmp.Rules.{comparing};
ghost use Rattle.std.specs.Ordering.{nat_cmp, as_partial_cmp};
ghost use Rattle.plural_base.specs.Names.{begins_name, continues_name, is_name, name_of};

use std::cmp::Ordering;
use std::marker::Model;

/// A name: 1 to 24 bytes, of which the first is a letter or `_`, and the others are letters, digits
/// or `_`. Case counts. Names are ordered as their bytes are, so that they can be the keys of an
/// ordered map.
#[derive(Clone, Copy, Debug)]
pub struct Name {
    bytes: [u8; 24],
    len: u8,
}

impl Model for Name {
    ghost use Rattle.std.specs.Prelude.{ℕ, List};

    ghost Value = { List ℕ };

    ghost use Rattle.plural_base.specs.NameFields.{name_bytes, IsKept, fields_of};

    ghost view = { name_bytes };

    ghost invariant = { IsKept };

    ghost inverse = { fields_of };

    ghost use Rattle.plural_base.specs.NameBack.{fields_back};

    ghost inverse_ok = { fields_back };
}

fn begins_name(c: u8) -> bool
    ensures { result ≡ begins_name c }
{
    c.is_ascii_alphabetic() || c == b'_'
}

fn continues_name(c: u8) -> bool
    ensures { result ≡ continues_name c }
{
    begins_name(c) || c.is_ascii_digit()
}

fn all_continue(text: &[u8]) -> bool
    ensures { result ≡ list_all continues_name text.now }
{
    text.iter().all(|c| continues_name(*c))
}

fn is_name(text: &[u8]) -> bool
    ensures { result ≡ is_name text.now }
{
    match text {
        [] => false,
        [first, rest @ ..] => rest.len() <= 23 && begins_name(*first) && all_continue(rest),
    }
}

impl Name {
    /// The name that a text is, if it is one.
    pub fn of(text: &[u8]) -> Option<Name>
        ensures { result ≡ name_of text.now }
    {
        if !is_name(text) {
            return None;
        }
        let mut bytes = [0; 24];
        bytes[..text.len()].copy_from_slice(text);
        Some(Name {
            bytes,
            len: text.len() as u8,
        })
    }

    /// The name's bytes.
    pub fn bytes(&self) -> &[u8]
        ensures { result.now ≡ self.now }
    {
        &self.bytes[..self.len as usize]
    }
}

impl PartialEq for Name {
    ghost eq = { bytes_eq };

    ghost laws = { Prim.search (comparing, rules) };

    fn eq(&self, other: &Name) -> bool {
        self.bytes() == other.bytes()
    }
}

impl Eq for Name {
    ghost laws = { Prim.search (comparing, rules) };
}

impl Ord for Name {
    ghost cmp = { slice_cmp nat_cmp };

    ghost total = { Prim.search (comparing, rules) };

    ghost matches_partial_cmp = { Prim.search (comparing, rules) };

    ghost matches_eq = { Prim.search (comparing, rules) };

    fn cmp(&self, other: &Name) -> Ordering {
        self.bytes().cmp(other.bytes())
    }
}

impl PartialOrd for Name {
    ghost partial_cmp = { as_partial_cmp (slice_cmp nat_cmp) };

    ghost laws = { partial_order_from_own_ties (Prim.search (comparing, rules)) (Prim.search (comparing, rules)) };

    fn partial_cmp(&self, other: &Name) -> Option<Ordering> {
        Some(self.cmp(other))
    }
}
