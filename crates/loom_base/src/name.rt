ghost use Rattle.std.specs.Prelude.{◌≡◌, ◌≤◌, ◌-◌, ◌++◌, length, replicate, IsTrue};
ghost use Rattle.loom_base.specs.Names.{is_name as is_name_of, is_name_byte, name_of};
ghost use Rattle.std.specs.Prelude.{Some, bytes_eq, refl};
ghost use Rattle.std.proofs.Common.{rules};
ghost use Rattle.std.specs.Ordering.{nat_cmp};
ghost use Rattle.std.specs.List.{list_all};
ghost use Rattle.std.specs.Hash as fed;
ghost use Rattle.std.specs.Cmp.{partial_equiv_from_equiv};
ghost use Rattle.std.specs.Cmp.Lexicographic.{slice_cmp, nat_list_eq_equiv, nat_list_cmp_total, texts_ties, texts_po};
ghost use Rattle.std.specs.Cmp.Rules.{hashing};

use std::cmp::Ordering;
use std::hash::{Hash, Hasher};
use std::marker::Model;
use std::{fmt, str};

/// A name: 1 to 32 bytes of `A-Z a-z 0-9 _ . -`, which contracts see as the list of its bytes.
#[derive(Clone, Copy)]
pub struct Name {
    padded: [u8; 32],
    len: usize,
}

impl Model for Name {
    ghost use Rattle.std.specs.Prelude.{ℕ, List};
    ghost use Rattle.std.specs.Coded.{coded_list, coded_ℕ};

    ghost Value = { List ℕ };

    ghost coded = { coded_list coded_ℕ };

    ghost use Rattle.loom_base.specs.Names.{bytes_of, IsPadded, inside_of, inside_of-bytes_of};

    ghost view = { bytes_of };

    ghost invariant = { IsPadded };

    ghost inverse = { inside_of };

    ghost inverse_ok = { inside_of-bytes_of };
}

/// Whether a byte may stand in a name.
fn is_part_of_name(byte: u8) -> bool
    ensures { result ≡ is_name_byte byte }
{
    matches!(byte, b'A'..=b'Z' | b'a'..=b'z' | b'0'..=b'9' | b'_' | b'.' | b'-')
}

/// Whether each byte may stand in a name.
fn is_spelled(bytes: &[u8]) -> bool
    ensures { result ≡ list_all is_name_byte bytes.now }
{
    bytes.iter().all(|&byte| is_part_of_name(byte))
}

/// Whether the bytes are a name.
#[tactic(auto, unfolding(crate::specs::Names::is_name))]
fn is_name(bytes: &[u8]) -> bool
    ensures value { result ≡ is_name_of bytes.now }
    ensures short { IsTrue result → length bytes.now ≤ 32 }
{
    (1..=32).contains(&bytes.len()) && is_spelled(bytes)
}

/// The bytes of a name, with zeros behind them.
fn padded(bytes: &[u8]) -> [u8; 32]
    requires { length bytes.now ≤ 32 }
    ensures { result ≡ bytes.now ++ replicate (32 - length bytes.now) 0 }
{
    let mut padded = [0; 32];
    padded[..bytes.len()].copy_from_slice(bytes);
    padded
}

impl Name {
    /// The name that the bytes spell; None where they aren't a name.
    pub fn parse(bytes: &[u8]) -> Option<Name>
        ensures { result ≡ name_of bytes.now }
    {
        if is_name(bytes) {
            Some(Name {
                padded: padded(bytes),
                len: bytes.len(),
            })
        } else {
            None
        }
    }

    pub fn bytes(&self) -> &[u8]
        ensures bytes { result.now ≡ self.now }
        ensures name { IsTrue (is_name_of self.now) }
    {
        &self.padded[..self.len]
    }

    /// The name as a text.
    #[tactic(auto, using(crate::proofs::NameLemmas::names))]
    pub fn as_str(&self) -> &str
        ensures { result.now ≡ self.now }
    {
        match str::from_utf8(self.bytes()) {
            Ok(text) => text,
            Err(_) => unreachable!(),
        }
    }
}

impl PartialEq for Name {
    ghost eq = { λ a b. bytes_eq a b };

    ghost laws = { partial_equiv_from_equiv nat_list_eq_equiv };

    fn eq(&self, other: &Name) -> bool {
        self.bytes() == other.bytes()
    }
}

impl Eq for Name {
    ghost laws = { nat_list_eq_equiv };
}

impl PartialOrd for Name {
    ghost partial_cmp = { λ a b. Some (slice_cmp nat_cmp a b) };

    ghost laws = { texts_po };

    fn partial_cmp(&self, other: &Name) -> Option<Ordering> {
        Some(self.cmp(other))
    }
}

impl Ord for Name {
    ghost cmp = { λ a b. slice_cmp nat_cmp a b };

    ghost total = { nat_list_cmp_total };

    ghost matches_partial_cmp = { λ a b. refl };

    ghost matches_eq = { λ a b. texts_ties a b };

    fn cmp(&self, other: &Name) -> Ordering {
        self.bytes().cmp(other.bytes())
    }
}

impl Hash for Name {
    ghost hash_input = { λ name. fed.slice fed.u8 name };

    ghost respects_eq = { Prim.search (hashing, rules) };

    fn hash<H: Hasher>(&self, state: &mut H) {
        self.bytes().hash(state);
    }
}

impl fmt::Debug for Name {
    fn fmt<W: fmt::Write>(&self, f: &mut fmt::Formatter<W>) -> fmt::Result {
        f.debug_tuple("Name").field(&self.as_str()).finish()
    }
}
