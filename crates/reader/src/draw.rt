// Challenges: drawn, and given up.
ghost use Rattle.std.specs.Prelude.{◌≡◌};
ghost use Rattle.reader.specs.Drawing.{drawing, reading};

use crate::fault::ReaderFault;
use crate::types::{Asked, Challenge, Question, Reader};

// Queues are 0 to 7.
const HIGHEST_QUEUE: u8 = 7;

impl Reader {
    /// A reader of that dongle's statements.
    pub fn new(identity: [u8; 8], key: [u8; 32]) -> Reader
        ensures answers { result ≡ reading identity key }
    {
        Reader { identity, key }
    }

    /// Makes a challenge; no queue is above 7, and no position 0.
    pub fn draw(&self, queue: u8, asked: Asked, nonce: [u8; 32]) -> Result<Challenge, ReaderFault>
        ensures answers { result ≡ drawing queue asked nonce }
    {
        if queue > HIGHEST_QUEUE {
            return Err(ReaderFault::NoQueue(queue));
        }
        match asked {
            Asked::Position(0) => Err(ReaderFault::PositionZero(queue)),
            Asked::Position(_) | Asked::End => Ok(Challenge {
                question: Question {
                    queue,
                    asked,
                    nonce,
                },
            }),
        }
    }
}

impl Challenge {
    /// Spends the challenge with no answer, and tells what it asked.
    pub fn give_up(self) -> Question
        ensures answers { result ≡ self.question }
    {
        let Challenge { question } = self;
        question
    }
}
