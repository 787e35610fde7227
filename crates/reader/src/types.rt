// A reader, his questions and challenges, and what an accepted answer says.
use notice::Kind;

/// Holds the identity and the key of the dongle whose statements he believes.
#[derive(Clone, Copy)]
pub struct Reader {
    pub(crate) identity: [u8; 8],
    pub(crate) key: [u8; 32],
}

/// A position of a queue, or its end.
#[derive(Clone, Copy, PartialEq, Eq, Debug)]
pub enum Asked {
    /// The notice of this position, counted from 1.
    Position(u32),
    /// The last notice of the queue, or that there is none.
    End,
}

/// What a challenge asks, with the nonce that tells its answers from those to others.
#[derive(Clone, Copy, Debug, PartialEq, Eq)]
pub struct Question {
    /// 0 to 7.
    pub queue: u8,
    pub asked: Asked,
    /// 32 bytes that no other question has.
    pub nonce: [u8; 32],
}

/// A question that waits for its one answer. It can be neither copied nor let go:
/// `check` spends it on an answer, and `give_up` with none.
pub struct Challenge {
    pub(crate) question: Question,
}

/// What an accepted answer says. Its numbers are plain, 0 where there is none, as the rules tell them: a rule of the
/// project, so that an entry point in C's form can promise the same.
#[derive(Clone, Copy, Debug, PartialEq, Eq)]
pub struct Verdict {
    pub kind: Kind,
    /// The position asked for; of an end the high number.
    pub position: u32,
    /// The high number where the answer proves it, else 0.
    pub high: u32,
    /// Where the text begins in the answer; 0 where the kind has none.
    pub text_place: usize,
    pub text_length: usize,
}
