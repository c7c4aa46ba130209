//! Questions that are read in place, and replies that are written into a buffer.

use crate::tests::layers::rows::{Words, push_octets};
use crate::tests::layers::tables::check_rows;
use fleet_wire::{
    LentQuestion, Outline, Question, read_plain_query, write_reply, write_reply_into,
};
use std::alloc::Global;
use std::process::Abort;

/// A reply, written for itself and into a buffer that holds other octets.
pub(crate) fn written_twice(rt: &impl Abort, alloc: Global, outline: &Outline) -> Vec<u8> {
    let octets = write_reply(alloc, outline).expect(rt, "a reply");
    let mut buffer = vec![in alloc; 1, 2, 3].expect(rt, "memory");
    write_reply_into(&mut buffer, outline).expect(rt, "a reply");
    if buffer == octets {
        octets
    } else {
        panic!(rt; "two replies")
    }
}

/// Whether a copy of a plain question is equal.
fn is_copy(question: &LentQuestion<'_>, copy: &Question) -> bool {
    copy.spelled.as_slice() == question.name()
        && copy.name.octets() == question.name()
        && (copy.rtype, copy.class) == (question.rtype(), question.class())
}

/// The identifier, the type, the class and the name of a question that is read in place, if it is.
pub(crate) fn show_in_place(
    rt: &impl Abort,
    alloc: Global,
    mut words: Words<'_>,
    output: &mut String,
) {
    let message = words.octets(rt, alloc);
    let Some((header, question)) = read_plain_query(message.as_slice()) else {
        output.push_str("none").expect(rt, "memory");
        return;
    };
    if !is_copy(&question, &question.try_copy(alloc).expect(rt, "memory")) {
        panic!(rt; "another copy");
    }
    write!(
        output,
        "{} {} {} ",
        header.id,
        question.rtype(),
        question.class()
    )
    .expect(rt, "memory");
    push_octets(rt, output, question.name());
}

/// The last but one has a capital letter, and the last a pointer.
/// Allocates: `fleet_wire`: `LentQuestion::try_copy`.
#[test]
fn plain_questions_are_read_in_place(rt: HostRuntime) {
    let rows = "\
# id 9 rd ad: www. IN AAAA
place 00090120000100000000000003'www'00001c0001 => 9 28 1 03'www'00
# id 9 rd ad: . CH NS; 1 octets more
place 0009012000010000000000000000020003ff => 9 2 3 00
# id 9 rd ad; question passes the end
place 00090120000100000000000003'www'00001c00 => none
# id 9 rd ad; question passes the end
place 00090120000100000000000003'www'00001c => none
# id 9 rd ad; name passes the end
place 00090120000100000000000003'www' => none
# id 9 rd ad, QDCOUNT 2: . IN A; 1 octets more
place 000901200002000000000000000001000100 => none
place <mixed-question> => none
# id 9 rd ad: www. IN AAAA
place 00090120000100000000000003'www'c00a001c0001 => none";
    check_rows(&rt, rt.alloc(), rows);
}
