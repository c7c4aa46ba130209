//! Examples: what is done in a new fleet.

use crate::tests::fleets::first_place;
use std::process::Abort;

/// An example.
#[derive(Clone, Copy)]
pub struct Example<'a> {
    /// How many sites there are.
    pub sites: usize,
    /// How many rows are questions.
    pub questions: usize,
    /// What is done, as `do_row` reads it.
    pub rows: &'a str,
}

/// The example of a text: the number of its sites, of its questions, and what it shows; then its
/// rows.
pub fn example_of<'a>(rt: &impl Abort, text: &'a str) -> Example<'a> {
    let (head, rows) = text.split_once('\n').expect(rt, "rows");
    let (sites, words) = first_place(rt, head);
    let (questions, _) = first_place(rt, words);
    Example {
        sites,
        questions,
        rows,
    }
}

/// A reply with two aliases and a denial, and what is asked of them.
pub const DENIAL: &str = "\
1 4 a name error behind two aliases denies the last target, for each type but the alias itself
learn 0 100 aliases-reply
ask 0 110 aliases
ask 0 110 aliases-aaaa
ask 0 110 aliases-cname
ask 0 160 aliases";

/// Rows that bring from one to four other observations.
pub const OTHERS: &str = "\
frame 0 100 one-other
frame 0 100 two-others
frame 0 100 three-others
frame 0 100 four-others
";

/// Other examples that are run with a call refused, an empty line between two.
pub const REFUSED: &str = "\
1 1 a reply is learnt, and answers ten seconds later with a TTL that is ten less
learn 0 100 learnt
ask 0 110 question

3 0 sites that took in the same hold the same, whatever came twice or out of order, once both are purged
frame 0 100 first-older
sweep 0
frame 0 200 first-newer
sweep 0
deliver 1 200 1
deliver 1 200 0
deliver 1 200 1
sweep 1
deliver 2 200 2
deliver 2 200 2
tick 1 500
deliver 1 500 0
tick 0 500

1 0 all who wait are answered, a question asked again counts once, and a reply from elsewhere matches nothing
datagram 0 100 6001 4660 question
datagram 0 100 6002 9 question-8
datagram 0 100 6001 4660 question
datagram 0 101 5302 0 reply
datagram 0 101 5301 0 reply

1 0 a question goes to the next upstream after two seconds, and fails after the last
datagram 0 100 6001 4660 question
tick 0 101
tick 0 102
tick 0 104
datagram 0 104 5301 0 reply
datagram 0 104 5302 0 reply

2 0 a site takes in all that another holds, and its floor
frame 0 100 first-older
frame 1 100 first-newer
tick 1 150
merge 0 1
merge 1 0
merge 0 1

2 1 a flush withdraws what was stamped by then, whatever the order, and what comes later stays
frame 0 100 first-100
flush 0 120 com
frame 0 150 first-after
ask 0 200 question
frame 1 200 first-after
deliver 1 200 0
frame 1 200 first-100
sweep 0
sweep 1";

/// Other examples with questions, an empty line between two.
pub const LENT: &str = "\
1 3 of two observations the higher rank answers while it lasts
frame 0 200 first-100
frame 0 200 first-200
frame 0 200 first-200
frame 0 200 first-100
ask 0 250 question
ask 0 400 question
ask 0 500 question

1 3 the same in the other order
frame 0 200 first-200
frame 0 200 first-100
frame 0 200 first-100
frame 0 200 first-200
ask 0 250 question
ask 0 400 question
ask 0 500 question

1 3 of the same rank the later answers, and the one that lasts longer after it
frame 0 100 first-older
frame 0 100 first-newer
ask 0 150 question
ask 0 205 question
ask 0 210 question

1 2 what is learnt is answered until its end
learn 0 100 learnt-1
ask 0 100 question
ask 0 101 question

1 3 a name error denies the names below it until data there is learnt later
learn 0 100 no-name-reply
ask 0 110 below
learn 0 200 below-reply
ask 0 210 below
ask 0 210 no-name

1 1 eight aliases are followed
frame 0 100 eight-aliases
ask 0 110 chain

1 1 a ninth is a miss
frame 0 100 nine-aliases
ask 0 110 chain

1 1 so are aliases of one another
frame 0 100 alias-circle
ask 0 110 chain

1 1 a denial holds for three hours at most, and is shown with the SOA of an ancestor
learn 0 100 no-data-reply
ask 0 110 no-data

1 1 no data behind an alias is shown with the alias and the SOA
learn 0 100 alias-no-data-reply
ask 0 110 aliases

1 2 an alias whose target is not known is a miss, and answers where it is asked for
learn 0 100 alias-reply
ask 0 110 aliases
ask 0 110 aliases-cname";
