// The commands `digest` and `tag`.
use crate::args::Arguments;
use crate::page::Page;
use digest::{DIGEST_SIZE, DigestFault, digest, tag};
use script::bad::Stop;
use std::alloc::AllocError;

/// The bytes of a digest or a tag, or the refusal.
fn say_answer(
    page: &mut Page,
    label: &str,
    answer: Result<[u8; DIGEST_SIZE], DigestFault>,
) -> Result<(), AllocError> {
    match answer {
        Ok(bytes) => page.say_bytes(label, &bytes),
        Err(fault) => page.say(fault),
    }
}

pub fn digest_command(line: &[u8], page: &mut Page) -> Result<(), Stop> {
    let mut words = Arguments::new(line, 1, page.heap())?;
    let message = words.bytes()?;
    say_answer(page, "digest", digest(message.as_slice()))?;
    Ok(())
}

pub fn tag_command(line: &[u8], page: &mut Page) -> Result<(), Stop> {
    let mut words = Arguments::new(line, 3, page.heap())?;
    let key = words.bytes()?;
    let message = words.bytes()?;
    let mut working = words.bytes()?;
    let answer = tag(key.as_slice(), message.as_slice(), working.as_mut_slice());
    say_answer(page, "tag", answer)?;
    page.say_bytes("working", working.as_slice())?;
    Ok(())
}
