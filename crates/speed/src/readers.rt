// A reader's check of one answer.
ghost use Rattle.std.specs.Prelude.{◌≡◌, length};
ghost use Rattle.digest.specs.Wiped.{wiped};

use digest::wipe;
use reader::{Asked, Reader};

/// Draws for a position of queue 0 and checks an answer; 0, or the refusal's number.
#[unsafe(no_mangle)]
pub extern "C" fn speed_check(position: u32, answer: &[u8], working: &mut [u8]) -> u32
    ensures working { working.new ≡ wiped working.old }
{
    let reader = Reader::new([1; 8], [11; 32]);
    match reader.draw(0, Asked::Position(position), [193; 32]) {
        Err(fault) => {
            wipe(working);
            fault.number()
        }
        Ok(challenge) => match reader.check(challenge, answer, working) {
            Ok(_) => 0,
            Err(fault) => fault.number(),
        },
    }
}
