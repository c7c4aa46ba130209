//! Names: their octets in full (RFC 1035 3.1), their order and their text.

ghost use Rattle.std.specs.Prelude.{◌≡◌, ◌≢◌, ℕ, ◌+◌, ◌-◌, ◌<◌, ◌≤◌, List, [], ◌∷◌, ◌++◌, ◌↔◌, length, take, drop, IfOk, IfErr, OnOk, OnErr, IsTrue, MatchOption, MatchResult, None, vec_len, vec_capacity};
ghost use Rattle.std.specs.String.{string_bytes};
ghost use Rattle.fleet_name.specs.Name.{label_octets, wire, lower, lower_all, labels_of, IsLower, IsName, IsUnder, IsSpelling, IsWire, IsSuffix};
ghost use Rattle.fleet_name.specs.Fault.{push_fault, IsFirst};
ghost use Rattle.fleet_name.specs.declared.bounds.TheConstants.{LONGEST_LABEL};
ghost use Rattle.fleet_name.specs.declared.fault.NameFault.TheVariants.{OutOfMemory};
ghost use Rattle.fleet_name.specs.Text.{label_text, text_of};
ghost use Rattle.std.specs.List.{flat_map};
ghost use Rattle.fleet_name.specs.Types.{Labels, OctetList};

use crate::bounds::{LONGEST_LABEL, LONGEST_NAME};
use crate::fault::NameFault;
use crate::text::push_label;
use std::alloc::{AllocError, Allocator, Global};
use std::cmp::Ordering;
use std::marker::Model;

/// A name: its labels in lower case, each of 1 to 63 octets, at most 255 octets in full (RFC 1035
/// 2.3.4, 3.1). Contracts see it as the list of its labels. It holds its octets in one allocation.
///
/// Names are equal, and ordered, as their octets in full are. The order is total. Length octets are
/// compared too, so it is not the canonical order of RFC 4034 6.1.
#[derive(Drop)]
pub struct Name<A: Allocator = Global> {
    octets: Vec<u8, A>,
    labels: usize,
}

impl<A: Allocator> Model for Name<A> {
    ghost use Rattle.std.specs.Prelude.{ℕ, List};
    ghost use Rattle.fleet_name.specs.Name.{Spells, labels_of};

    ghost Value = { List (List ℕ) };

    ghost view = { λ n. labels_of n.octets.items };

    ghost invariant = { λ n. Spells n.octets.items n.labels (labels_of n.octets.items) };
}

impl<A: Allocator> Name<A> {
    /// The root, the name without labels (RFC 1035 3.1): one octet, 0. `Err` where its allocation
    /// fails.
    pub fn root(alloc: A) -> Result<Name<A>, AllocError>
        ensures { IfOk result (λ n. n ≡ []) }
    {
        let mut octets = Vec::with_capacity(alloc, 1)?;
        octets.push_reserved(0);
        Ok(Name { octets, labels: 0 })
    }

    /// The name that these octets spell in full, put into lower case; `labels` is how many labels
    /// it has. It keeps the vector and allocates nothing.
    pub fn from_spelled(octets: Vec<u8, A>, labels: usize) -> Name<A>
        requires spelled { IsSpelling octets.items }
        requires counted { labels ≡ length (labels_of octets.items) }
        ensures { result ≡ lower_all (labels_of octets.items) }
    {
        let mut lowered = octets;
        lower_octets(&mut lowered);
        Name {
            octets: lowered,
            labels,
        }
    }

    /// The name that these octets are in full and in lower case, in one allocation of exactly their
    /// number. `Err` where it fails.
    pub fn copy_of(alloc: A, octets: &[u8]) -> Result<Name<A>, AllocError>
        requires { IsWire octets.now }
        ensures { IfOk result (λ n. wire n ≡ octets.now) }
    {
        let Some(labels) = labels_in(octets) else {
            unreachable!()
        };
        let octets = Vec::from_slice(alloc, octets)?;
        Ok(Name { octets, labels })
    }

    /// The number of labels; the root has 0.
    pub fn labels(&self) -> usize
        ensures { result ≡ length self.now }
    {
        self.labels
    }

    /// The name in full: each label after its length octet, then a zero octet (RFC 1035 3.1).
    pub fn octets(&self) -> &[u8]
        ensures octets { result.now ≡ wire self.now }
        ensures named { IsName self.now }
    {
        &self.octets
    }

    /// Adds a label at the end of the name, in lower case. It is refused exactly where the result
    /// would be no name: `Err` is then the first fault in the order of `NameFault`. `OutOfMemory`
    /// comes only where there is no other. After an `Err` the name is as it was.
    pub fn push(&mut self, label: &[u8]) -> Result<(), NameFault>
        ensures ok { OnOk result (self.new ≡ self.old ++ lower label.now ∷ []) }
        ensures named { OnOk result (IsName (self.old ++ lower label.now ∷ [])) }
        ensures fault { MatchResult result (λ _. push_fault self.old label.now ≡ None)
            (λ e. IsFirst e (push_fault self.old label.now)) }
        ensures refused { IfErr result (λ e.
            e ≢ OutOfMemory → IsName (self.old ++ lower label.now ∷ []) → ⊥) }
        ensures err { OnErr result (self.new ≡ self.old) }
    {
        if label.is_empty() {
            return Err(NameFault::EmptyLabel);
        }
        if label.len() > LONGEST_LABEL {
            return Err(NameFault::LongLabel);
        }
        if self.octets.len() + label.len() + 1 > LONGEST_NAME {
            return Err(NameFault::LongName);
        }
        append_label(&mut self.octets, label)?;
        self.labels += 1;
        Ok(())
    }

    /// Whether the names have the same labels, case ignored (RFC 1035 2.3.3).
    pub fn same(&self, other: &Name<A>) -> bool
        ensures { IsTrue result ↔ (self.now ≡ other.now) }
    {
        self.octets() == other.octets()
    }

    /// The name in full without the first `count` labels; `None` where it has fewer.
    pub fn suffix(&self, count: usize) -> Option<&[u8]>
        ensures { MatchOption result (length self.now < count)
            (λ s. (count ≤ length self.now) × (s.now ≡ wire (drop count self.now))) }
    {
        if count > self.labels {
            return None;
        }
        Some(after_labels(&self.octets, count))
    }

    /// Whether this name is the ancestor or a name below it: its last labels are the ancestor's
    /// (RFC 1034 3.1).
    pub fn is_under(&self, ancestor: &Name<A>) -> bool
        ensures { IsTrue result ↔ IsUnder self.now ancestor.now }
    {
        if ancestor.labels > self.labels {
            return false;
        }
        after_labels(&self.octets, self.labels - ancestor.labels) == ancestor.octets()
    }

    /// The text of the name: each label followed by a dot, the root as a dot alone. In a label a
    /// dot and a backslash have a backslash before them, and an octet outside 33 to 126 is a
    /// backslash and three decimal digits (RFC 1035 5.1). `Err` where an allocation fails.
    pub fn write_text<B: Allocator>(&self, alloc: B) -> Result<String<B>, AllocError>
        ensures { IfOk result (λ t. string_bytes t ≡ text_of self.now) }
    {
        let mut text = String::new(alloc);
        if self.labels == 0 {
            text.push('.')?;
            return Ok(text);
        }
        push_labels(&mut text, &self.octets, self.labels)?;
        Ok(text)
    }

    /// A copy of the name, in one allocation of exactly its octets. `Err` where it fails.
    pub fn try_clone(&self) -> Result<Name<A>, AllocError>
    where
        A: Copy,
        ensures { IfOk result (λ n. n ≡ self.now) }
    {
        let octets = Vec::from_slice(*self.octets.allocator(), &self.octets)?;
        Ok(Name {
            octets,
            labels: self.labels,
        })
    }
}

impl<A: Allocator> PartialEq for Name<A> {
    ghost use Rattle.std.specs.Prelude.{◌==◌};
    ghost use Rattle.std.proofs.Common.{rules};
    ghost use Rattle.std.specs.Cmp.Rules.{comparing};
    ghost use Rattle.std.specs.Cmp.Lexicographic.{pointwise};
    ghost use Rattle.std.specs.Ordering.{on};
    ghost use Rattle.fleet_name.specs.Name.{wire};

    ghost eq = { on wire (pointwise ◌==◌) };

    ghost laws = { Prim.search (comparing, rules) };

    fn eq(&self, other: &Self) -> bool {
        self.octets.as_slice() == other.octets()
    }
}

impl<A: Allocator> Eq for Name<A> {
    ghost use Rattle.std.proofs.Common.{rules};
    ghost use Rattle.std.specs.Cmp.Rules.{comparing};

    ghost laws = { Prim.search (comparing, rules) };
}

impl<A: Allocator> Ord for Name<A> {
    ghost use Rattle.std.proofs.Common.{rules};
    ghost use Rattle.std.specs.Cmp.Lexicographic.{slice_cmp};
    ghost use Rattle.std.specs.Cmp.Rules.{comparing};
    ghost use Rattle.std.specs.Ordering.{on, nat_cmp};
    ghost use Rattle.fleet_name.specs.Name.{wire};

    ghost cmp = { on wire (slice_cmp nat_cmp) };

    ghost total = { Prim.search (comparing, rules) };

    ghost matches_partial_cmp = { Prim.search (comparing, rules) };

    ghost matches_eq = { Prim.search (comparing, rules) };

    fn cmp(&self, other: &Self) -> Ordering {
        self.octets().cmp(other.octets())
    }
}

impl<A: Allocator> PartialOrd for Name<A> {
    ghost use Rattle.std.proofs.Common.{rules};
    ghost use Rattle.std.specs.Cmp.{partial_order_from_own_ties};
    ghost use Rattle.std.specs.Cmp.Lexicographic.{slice_cmp};
    ghost use Rattle.std.specs.Cmp.Rules.{comparing};
    ghost use Rattle.std.specs.Ordering.{as_partial_cmp, on, nat_cmp};
    ghost use Rattle.fleet_name.specs.Name.{wire};

    ghost partial_cmp = { as_partial_cmp (on wire (slice_cmp nat_cmp)) };

    ghost laws = { partial_order_from_own_ties (Prim.search (comparing, rules))
        (Prim.search (comparing, rules)) };

    fn partial_cmp(&self, other: &Self) -> Option<Ordering> {
        Some(self.cmp(other))
    }
}

/// Puts octets into lower case, in place.
fn lower_octets(octets: &mut [u8])
    ensures { octets.new ≡ lower octets.old }
{
    for octet in octets.iter_mut() {
        *octet = octet.to_ascii_lowercase();
    }
}

/// Adds a label in lower case in front of the zero octet that ends the name.
fn append_label<A: Allocator>(octets: &mut Vec<u8, A>, label: &[u8]) -> Result<(), AllocError>
    requires some { 0 < length octets.old.items }
    requires short { length label.now ≤ LONGEST_LABEL }
    ensures ok { OnOk result (octets.new.items
        ≡ take (length octets.old.items - 1) octets.old.items
        ++ (label_octets (lower label.now) ++ 0 ∷ [])) }
    ensures err { OnErr result (octets.new.items ≡ octets.old.items) }
{
    octets.reserve(label.len() + 1)?;
    let end = octets.len() - 1;
    octets[end] = label.len() as u8;
    for octet in label {
        octets.push_reserved(octet.to_ascii_lowercase());
    }
    octets.push_reserved(0);
    Ok(())
}

/// The octets of a name in full without its first `count` labels.
fn after_labels(octets: &[u8], count: usize) -> &[u8]
    requires spelled { octets.now ≡ wire (labels_of octets.now) }
    requires named { IsName (labels_of octets.now) }
    requires within { count ≤ length (labels_of octets.now) }
    ensures { result.now ≡ wire (drop count (labels_of octets.now)) }
{
    let mut rest = octets;
    for _ in 0..count {
        let (_, others) = rest.split_at(rest[0] as usize + 1);
        rest = others;
    }
    rest
}

/// Adds the text of a name in full, which has `count` labels, each followed by a dot.
fn push_labels<A: Allocator>(
    text: &mut String<A>,
    octets: &[u8],
    count: usize,
) -> Result<(), AllocError>
    requires spelled { octets.now ≡ wire (labels_of octets.now) }
    requires counted { count ≡ length (labels_of octets.now) }
    ensures { OnOk result (string_bytes text.new
        ≡ string_bytes text.old ++ flat_map label_text (labels_of octets.now)) }
{
    let mut rest = octets;
    for _ in 0..count {
        let (first, others) = rest.split_at(rest[0] as usize + 1);
        let (_, label) = first.split_at(1);
        push_label(text, label)?;
        rest = others;
    }
    Ok(())
}

/// Whether octets are in lower case: none of them is a capital letter, `A` to `Z`.
pub fn is_lower(octets: &[u8]) -> bool
    ensures { IsTrue result ↔ IsLower octets.now }
{
    for octet in octets {
        if octet.to_ascii_lowercase() != *octet {
            return false;
        }
    }
    true
}

/// The number of labels of the name that these octets are in full and in lower case. `None` where
/// they are no name.
fn labels_in(octets: &[u8]) -> Option<usize>
    ensures { MatchOption result (IsWire octets.now → ⊥)
        (λ count. (n : Labels) × IsName n × (octets.now ≡ wire n) × (count ≡ length n)) }
{
    if octets.len() > LONGEST_NAME {
        return None;
    }
    let mut rest = octets;
    let mut labels = 0;
    while !rest.is_empty() {
        let (_, others) = rest.split_at(1);
        let count = rest[0] as usize;
        if count == 0 {
            return if others.is_empty() {
                Some(labels)
            } else {
                None
            };
        }
        if count > LONGEST_LABEL || others.len() < count {
            return None;
        }
        let (label, behind) = others.split_at(count);
        if !is_lower(label) {
            return None;
        }
        labels += 1;
        rest = behind;
    }
    None
}

/// What `Name::suffix` gives, for octets: where they are a name in full and in lower case, its
/// octets without the first `count` labels. `None` where they are no name, or one with fewer
/// labels.
pub fn suffix_in(octets: &[u8], count: usize) -> Option<&[u8]>
    ensures { MatchOption result ((rest : OctetList) → IsSuffix octets.now count rest → ⊥)
        (λ s. IsSuffix octets.now count s.now) }
{
    let labels = labels_in(octets)?;
    if count > labels {
        return None;
    }
    Some(after_labels(octets, count))
}
