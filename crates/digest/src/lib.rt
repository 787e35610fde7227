// SHA-256 digests and HMAC-SHA-256 tags, made with no heap. The compression is the crate's own, and not a library's: wrong
// edits of it are shown to be refused.
#![tactic(auto)]

mod compress;
mod examples;
mod fault;
mod hmac;
mod sha256;
#[cfg(test)]
mod tests;
mod words;

pub use examples::published_examples_hold;
pub use fault::DigestFault;
pub use hmac::{WORKING_SIZE, tag, wipe};
pub use sha256::{DIGEST_SIZE, digest};
