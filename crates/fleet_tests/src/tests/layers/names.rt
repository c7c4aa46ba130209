//! Names and octets made with ample memory.

use crate::tests::layers::observations::push_name;
use crate::tests::layers::rows::{Words, octets_of, push_octets};
use crate::tests::layers::tables::check_rows;
use fleet_name::{Name, NameFault, Octets, is_lower, suffix_in};
use std::alloc::Global;
use std::process::Abort;

/// Adds a label to a name: its octets after `%`, or else its letters.
fn push_label(
    rt: &impl Abort,
    alloc: Global,
    name: &mut Name,
    label: &str,
) -> Result<(), NameFault> {
    match label.strip_prefix('%') {
        Some("") => name.push(b""),
        Some(digits) => name.push(octets_of(rt, alloc, digits).as_slice()),
        None => name.push(label.as_bytes()),
    }
}

/// The name of these labels, `.` for the root.
pub(crate) fn name_of(rt: &impl Abort, alloc: Global, word: &str) -> Name {
    let mut name = Name::root(alloc).expect(rt, "memory");
    if word != "." {
        for label in word.split('.') {
            push_label(rt, alloc, &mut name, label).expect(rt, "a label");
        }
    }
    name
}

/// A copy of a copy of the octets of a name.
fn copy_of(rt: &impl Abort, alloc: Global, name: &Name) -> Name {
    let copy = Name::copy_of(alloc, name.octets()).expect(rt, "memory");
    copy.try_clone().expect(rt, "memory")
}

/// Adds how a name compares with another one.
fn push_order(rt: &impl Abort, output: &mut String, one: &Name, other: &Name) {
    let order = one.cmp(other);
    write!(output, "{order:?}").expect(rt, "memory");
    output
        .push_str(if one < other { " before" } else { "" })
        .expect(rt, "memory");
    output
        .push_str(if one.same(other) { " same" } else { "" })
        .expect(rt, "memory");
    output
        .push_str(if one == other { " equal" } else { "" })
        .expect(rt, "memory");
}

/// A name's octets, its text, how many labels a copy has, and how that compares with it.
pub(crate) fn show_name(rt: &impl Abort, alloc: Global, mut words: Words<'_>, output: &mut String) {
    let name = name_of(rt, alloc, words.word());
    push_octets(rt, output, name.octets());
    output.push_str(" ").expect(rt, "memory");
    push_name(rt, alloc, output, &name);
    let copy = copy_of(rt, alloc, &name);
    let labels = copy.labels();
    write!(output, " {labels} ").expect(rt, "memory");
    push_order(rt, output, &copy, &name);
}

/// How a name compares with another one.
pub(crate) fn show_pair(rt: &impl Abort, alloc: Global, mut words: Words<'_>, output: &mut String) {
    let one = name_of(rt, alloc, words.word());
    let other = name_of(rt, alloc, words.word());
    push_order(rt, output, &one, &other);
}

/// Whether a name is another one or below it.
pub(crate) fn show_under(
    rt: &impl Abort,
    alloc: Global,
    mut words: Words<'_>,
    output: &mut String,
) {
    let one = name_of(rt, alloc, words.word());
    let other = name_of(rt, alloc, words.word());
    write!(output, "{}", one.is_under(&other)).expect(rt, "memory");
}

/// How many octets a name has after each label is added, or why it is refused.
pub(crate) fn show_pushes(
    rt: &impl Abort,
    alloc: Global,
    mut words: Words<'_>,
    output: &mut String,
) {
    let mut name = Name::root(alloc).expect(rt, "memory");
    for label in words.word().split('.') {
        match push_label(rt, alloc, &mut name, label) {
            Ok(()) => write!(output, "{};", name.octets().len()).expect(rt, "memory"),
            Err(fault) => write!(output, "{fault:?};").expect(rt, "memory"),
        }
    }
}

/// A copy of a copy of octets, and how many it gives back.
pub(crate) fn show_octets(
    rt: &impl Abort,
    alloc: Global,
    mut words: Words<'_>,
    output: &mut String,
) {
    let octets = words.octets(rt, alloc);
    let copy = Octets::copy_of(alloc, octets.as_slice())
        .expect(rt, "memory")
        .try_clone()
        .expect(rt, "memory");
    push_octets(rt, output, copy.as_slice());
    write!(output, " {}", copy.into_vec().len()).expect(rt, "memory");
}

/// Adds a name in full, or that there is none.
fn push_suffix(rt: &impl Abort, output: &mut String, suffix: Option<&[u8]>) {
    match suffix {
        Some(octets) => push_octets(rt, output, octets),
        None => output.push_str("none").expect(rt, "memory"),
    }
}

/// What is left of a name without its first labels, a number of them, and of its octets.
pub(crate) fn show_ancestor(
    rt: &impl Abort,
    alloc: Global,
    mut words: Words<'_>,
    output: &mut String,
) {
    let count = words.word().parse().expect(rt, "a number");
    let name = name_of(rt, alloc, words.word());
    push_suffix(rt, output, name.suffix(count));
    output.push_str(" ").expect(rt, "memory");
    push_suffix(rt, output, suffix_in(name.octets(), count));
}

/// What is left of octets without their first labels, a number of them.
pub(crate) fn show_suffix(
    rt: &impl Abort,
    alloc: Global,
    mut words: Words<'_>,
    output: &mut String,
) {
    let count = words.word().parse().expect(rt, "a number");
    let octets = words.octets(rt, alloc);
    push_suffix(rt, output, suffix_in(octets.as_slice(), count));
}

/// Whether octets are in lower case.
pub(crate) fn show_lower(
    rt: &impl Abort,
    alloc: Global,
    mut words: Words<'_>,
    output: &mut String,
) {
    let octets = words.octets(rt, alloc);
    write!(output, "{}", is_lower(octets.as_slice())).expect(rt, "memory");
}

/// The root, and the labels `A.B`, `\` and one octet zero.
/// Allocates: `fleet_name`: `Name::root`, `Name::push`, `Name::write_text`.
#[test]
fn writes_text_with_escapes(rt: HostRuntime) {
    let rows = "
name . => 00 . 0 Equal same equal
name %412e42.%5c.%00 => 03612e62015c010000 a\\.b.\\\\.\\000. 3 Equal same equal";
    check_rows(&rt, rt.alloc(), rows);
}

/// Allocates: `fleet_name`: `Name::copy_of`, `Name::try_clone`, `Octets::copy_of`,
/// `Octets::try_clone`.
#[test]
fn copies_are_equal(rt: HostRuntime) {
    let rows = "
name %412e42.%5c.%00 => 03612e62015c010000 a\\.b.\\\\.\\000. 3 Equal same equal
pair . %412e42.%5c.%00 => Less before
pair %412e42.%5c.%00 %412e42.%5c.%00 => Equal same equal
octets 03612e62015c010000 => 03612e62015c010000 9";
    check_rows(&rt, rt.alloc(), rows);
}

#[test]
fn a_long_name_is_refused(rt: HostRuntime) {
    let rows = "
pushes %.%{78*64}.%{78*63}.%{78*63}.%{78*63}.%{78*62}.%{78*61} => \
    EmptyLabel;LongLabel;65;129;193;LongName;255;";
    check_rows(&rt, rt.alloc(), rows);
}

#[test]
fn suffixes_are_ancestors(rt: HostRuntime) {
    let rows = "
under %412e42.%5c.%00 %5c.%00 => true
under %5c.%00 %412e42.%5c.%00 => false
under %412e42.%5c.%00 %5c.%01 => false
ancestor 1 %412e42.%5c.%00 => 015c010000 015c010000
ancestor 4 %412e42.%5c.%00 => none none
suffix 1 03612e62015c010000 => 015c010000
suffix 4 03612e62015c010000 => none
suffix 0 014100 => none";
    check_rows(&rt, rt.alloc(), rows);
}

/// Octets that are no name in full and in lower case; four labels of 63 octets have 257 octets with
/// the zero octet.
#[test]
fn octets_that_are_no_name_have_no_suffix(rt: HostRuntime) {
    let rows = "
suffix 0 - => none
suffix 0 01 => none
suffix 0 0161 => none
suffix 0 026100 => none
suffix 0 4000 => none
suffix 0 0000 => none
suffix 0 014100 => none
suffix 0 3f{78*63}3f{78*63}3f{78*63}3f{78*63}00 => none";
    check_rows(&rt, rt.alloc(), rows);
}

#[test]
fn capitals_are_not_lower(rt: HostRuntime) {
    let rows = "
lower - => true
lower 'az-09'00c0405b => true
lower 'aZ' => false
lower 'A' => false";
    check_rows(&rt, rt.alloc(), rows);
}
