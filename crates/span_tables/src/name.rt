//! Names of parameter sets, commodities, contracts and accounts.
ghost use Rattle.std.specs.Prelude.{◌≡◌, ◌≤◌, ◌++◌, length, option_map, take, true, IfSome, Option, Some, None};
ghost use Rattle.std.specs.List.{list_all, prefix_len, take_while};
ghost use Rattle.span_tables.specs.Names.{is_name, is_name_byte, name_of};
ghost use Rattle.span_tables.specs.near.NamePlaces.{name_places};

use std::cmp::Ordering;
use std::fmt::Display;
use std::hash::{Hash, Hasher};
use std::marker::Model;
use std::{fmt, str};

/// A name: 1 to 16 bytes, each `A` to `Z`, `0` to `9`, `_` or `-`. In contract clauses it is the list of its bytes.
#[derive(Clone, Debug, Drop)]
pub struct Name {
    // The bytes, padded with 0, so that two names are equal if and only if these arrays are.
    places: [u8; 16],
    len: u8,
}

impl Model for Name {
    ghost use Rattle.std.specs.Prelude.{ℕ, List, length, take};
    ghost use Rattle.span_tables.specs.near.NamePlaces.{name_places, HoldsName};

    ghost Value = { List ℕ };

    ghost view = { λ name. take name.len name.places };

    ghost invariant = { λ name. HoldsName name.places name.len };

    ghost inverse = { λ text. record { places = name_places text; len = length text } };

    ghost inverse_ok = { λ name h i. record { places = h.blank i; len = h.long i } };
}

// Each byte that a name may have is at its own index. All other indexes have a point.
static NAME_BYTES: [u8; 256] = *b"\
    ................................\
    .............-..0123456789......\
    .ABCDEFGHIJKLMNOPQRSTUVWXYZ...._\
    ................................\
    ................................\
    ................................\
    ................................\
    ................................";

fn is_name_byte(byte: u8) -> bool
    ensures { result ≡ is_name_byte byte }
{
    NAME_BYTES[usize::from(byte)] != b'.'
}

fn has_name_bytes(text: &[u8]) -> bool
    ensures { result ≡ list_all is_name_byte text.now }
{
    text.iter().all(|byte| is_name_byte(*byte))
}

/// Returns whether a text is a name.
pub fn is_name(text: &[u8]) -> bool
    ensures value { result ≡ is_name text.now }
    ensures short { result ≡ true → length text.now ≤ 16 }
{
    !text.is_empty() && text.len() <= 16 && has_name_bytes(text)
}

// Returns the number of leading bytes that a name may have.
fn count_name_bytes(text: &[u8]) -> usize
    ensures { result ≡ prefix_len is_name_byte text.now }
{
    text.iter().take_while(|byte| is_name_byte(**byte)).count()
}

// 16 bytes of ones, and 16 bytes of zeros.
static ONES_AND_ZEROS: [u8; 32] = [
    255, 255, 255, 255, 255, 255, 255, 255, 255, 255, 255, 255, 255, 255, 255, 255, 0, 0, 0, 0, 0,
    0, 0, 0, 0, 0, 0, 0, 0, 0, 0, 0,
];

// Returns the places of the name that is the first `len` bytes of a text. All bytes are done in one step.
#[inline(always)]
fn first_places(text: &[u8], len: usize) -> [u8; 16]
    requires long { 16 ≤ length text.now }
    requires few { len ≤ 16 }
    ensures { result ≡ name_places (take len text.now) }
{
    let mut places = [0; 16];
    for place in 0..16 {
        places[place] = text[place] & ONES_AND_ZEROS[16 - len + place];
    }
    places
}

impl Name {
    /// Returns the name in a text, or `None` if the text is not a name.
    pub fn new(text: &[u8]) -> Option<Name>
        ensures { result ≡ name_of text.now }
    {
        if !is_name(text) {
            return None;
        }
        Some(Name::of(text))
    }

    /// Returns the name in a text that passed [`is_name`].
    pub fn of(text: &[u8]) -> Name
        requires { is_name text.now ≡ true }
        ensures { result ≡ text.now }
    {
        let mut places = [0; 16];
        places[..text.len()].copy_from_slice(text);
        Name {
            places,
            len: text.len() as u8,
        }
    }

    // Returns the name that is the first `len` bytes of a text.
    #[inline(always)]
    fn of_first(text: &[u8], len: usize) -> Name
        requires inside { len ≤ length text.now }
        requires few { len ≤ 16 }
        requires name { is_name (take len text.now) ≡ true }
        ensures { result ≡ take len text.now }
    {
        if text.len() < 16 {
            return Name::of(&text[..len]);
        }
        Name {
            places: first_places(text, len),
            len: len as u8,
        }
    }

    /// Splits a text after its leading name bytes and returns the name and the rest of the text. Returns `None` if the
    /// leading bytes are not a name.
    pub fn split_front(text: &[u8]) -> Option<(Name, &[u8])>
        ensures name { option_map (λ p. p.0) result ≡ name_of (take_while is_name_byte text.now) }
        ensures parts { IfSome result (λ p. p.0 ++ p.1.now ≡ text.now) }
    {
        let len = count_name_bytes(text);
        if len == 0 || len > 16 {
            return None;
        }
        Some((Name::of_first(text, len), &text[len..]))
    }

    /// Returns the bytes of the name.
    pub fn as_bytes(&self) -> &[u8]
        ensures value { result.now ≡ self.now }
        ensures is_name { is_name self.now ≡ true }
    {
        &self.places[..usize::from(self.len)]
    }

    /// Returns the name as a string.
    pub fn as_str(&self) -> &str
        ensures { result.now ≡ self.now }
    {
        match str::from_utf8(self.as_bytes()) {
            Ok(text) => text,
            Err(_) => "",
        }
    }

    /// Returns a copy of the name, without allocation.
    pub fn copied(&self) -> Name
        ensures { result ≡ self.now }
    {
        Name {
            places: self.places,
            len: self.len,
        }
    }
}

impl PartialEq for Name {
    ghost use Rattle.std.specs.Prelude.{bytes_eq};
    ghost use Rattle.std.specs.Cmp.{partial_equiv_from_equiv};
    ghost use Rattle.std.specs.Cmp.Lexicographic.{nat_list_eq_equiv};

    ghost eq = { bytes_eq };

    ghost laws = { partial_equiv_from_equiv nat_list_eq_equiv };

    fn eq(&self, other: &Name) -> bool {
        self.places == other.places
    }
}

impl Eq for Name {
    ghost use Rattle.std.specs.Cmp.Lexicographic.{nat_list_eq_equiv};

    ghost laws = { nat_list_eq_equiv };
}

impl PartialOrd for Name {
    ghost use Rattle.std.specs.Prelude.{Some};
    ghost use Rattle.std.specs.Ordering.{nat_cmp};
    ghost use Rattle.std.specs.Cmp.Lexicographic.{slice_cmp, texts_po};

    ghost partial_cmp = { λ a b. Some (slice_cmp nat_cmp a b) };

    ghost laws = { texts_po };

    fn partial_cmp(&self, other: &Name) -> Option<Ordering> {
        Some(self.cmp(other))
    }
}

impl Ord for Name {
    ghost use Rattle.std.specs.Prelude.{refl};
    ghost use Rattle.std.specs.Ordering.{nat_cmp};
    ghost use Rattle.std.specs.Cmp.Lexicographic.{slice_cmp, nat_list_cmp_total, texts_ties};

    ghost cmp = { slice_cmp nat_cmp };

    ghost total = { nat_list_cmp_total };

    ghost matches_partial_cmp = { λ _ _. refl };

    ghost matches_eq = { texts_ties };

    fn cmp(&self, other: &Name) -> Ordering {
        self.as_bytes().cmp(other.as_bytes())
    }
}

impl Hash for Name {
    ghost use Rattle.std.specs.Prelude.{◌∷◌, []};
    ghost use Rattle.std.specs.Cmp.Rules.{hashing};
    ghost use Rattle.std.proofs.Common.{rules};
    ghost use Rattle.span_tables.specs.near.NamePlaces.{name_places};

    ghost hash_input = { λ name. name_places name ∷ [] };

    ghost respects_eq = { Prim.search (hashing, rules) };

    // Writes all 16 bytes at once, since the hasher of maps mixes a fixed-size write with one multiplication.
    fn hash<H: Hasher>(&self, state: &mut H) {
        state.write(&self.places);
    }
}

impl Display for Name {
    ghost use Rattle.std.specs.Prelude.{Some};

    ghost output = { λ name. Some name };

    fn fmt<W: fmt::Write>(&self, f: &mut fmt::Formatter<W>) -> fmt::Result {
        f.write_str(self.as_str())
    }
}

impl Default for Name {
    ghost use Rattle.std.specs.Prelude.{◌≡◌, codes};

    ghost is_default = { λ name. name ≡ codes "-" };

    /// Returns the name `-`, which fills unused elements of a list.
    fn default() -> Name {
        Name::of(b"-")
    }
}
