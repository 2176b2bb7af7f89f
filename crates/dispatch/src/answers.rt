// What the calls answer.

/// The answer of a call that is carried out: a hold; a tick, with the word of the shuttles that
/// moved;
/// a draft, with its cost, the nodes taken, and the two numbers of its slip; an adoption, with the
/// cost
/// of its draft; a dismissal.
#[derive(Clone, Copy, PartialEq, Eq, Debug)]
pub enum Answer {
    Held,
    Moved(u32),
    Drafted {
        cost: u64,
        taken: u32,
        run: u32,
        draft: u16,
    },
    Adopted(u64),
    Dismissed,
}
