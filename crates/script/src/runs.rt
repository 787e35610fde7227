// How far a row of bytes that are one value, or are none, goes on.
ghost use Rattle.std.specs.Prelude.{◌≡◌, ℕ, ◌≤◌, length};
ghost use Rattle.script.specs.Words.{run_len, len_before};

/// How many bytes at the front are `mark`.
pub fn leading_run(text: &[u8], mark: u8) -> usize
    ensures answers { result ≡ run_len mark text.now }
    ensures within { result ≤ length text.now }
{
    text.iter().take_while(|c| **c == mark).count()
}

/// How many bytes stand before the first `mark`: all of them where there is none.
// As `leading_run` but for the test: one function over a test, with what it requires of the test, is no plainer.
pub fn bytes_before(text: &[u8], mark: u8) -> usize
    ensures answers { result ≡ len_before mark text.now }
    ensures within { result ≤ length text.now }
{
    text.iter().take_while(|c| **c != mark).count()
}
