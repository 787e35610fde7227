// Byte strings as they are printed: `-` for none, a run of 4 or more equal bytes as `xx*N`, the rest as plain hex.
ghost use Rattle.std.specs.Prelude.{◌≡◌, ◌<◌, ◌++◌, decimal, OnOk};
ghost use Rattle.script.specs.Shown.{hex_char, hex, separator, plain, run_text, form_of, shown};

use std::alloc::{AllocError, Global};

/// From here on a run of equal bytes is printed with its length.
const LONG_RUN: usize = 4;

/// A number below 16 as a small hex digit.
fn hex_digit_of(digit: u8) -> u8
    requires { digit < 16 }
    ensures answers { result ≡ hex_char digit }
{
    char::from_digit(u32::from(digit), 16).unwrap() as u8
}

/// A byte in two small hex digits.
// Not `format!`, which makes a text on the heap, for nearly every byte that is printed.
fn push_hex(out: &mut Vec<u8>, byte: u8) -> Result<(), AllocError>
    ensures area { OnOk result (out.new.items ≡ out.old.items ++ hex byte) }
{
    out.extend_from_slice(&[hex_digit_of(byte / 16), hex_digit_of(byte % 16)])
}

/// A number in decimal.
pub fn show_number(out: &mut Vec<u8>, n: usize, heap: Global) -> Result<(), AllocError>
    ensures area { OnOk result (out.new.items ≡ out.old.items ++ decimal n) }
{
    let text = format!(in heap; "{n}")?;
    out.extend_from_slice(text.as_bytes())
}

/// Bytes that stand one by one.
// A `for`, since `repeat` makes a text on the heap, and most runs are one byte long.
fn push_plain(out: &mut Vec<u8>, byte: u8, times: usize) -> Result<(), AllocError>
    ensures area { OnOk result (out.new.items ≡ out.old.items ++ plain byte times) }
{
    for _i in 0..times {
        push_hex(out, byte)?;
    }
    Ok(())
}

/// How a run of equal bytes is printed: byte by byte, or one byte and how often it stands.
#[derive(Clone, Copy)]
enum RunForm {
    Plain,
    Counted,
}

impl RunForm {
    /// The form of a run of `times` bytes.
    fn of(times: usize) -> Self
        ensures answers { result ≡ form_of times }
    {
        if times < LONG_RUN {
            RunForm::Plain
        } else {
            RunForm::Counted
        }
    }
}

/// What stands between two runs; `before` is the form of the first one, and there is none before the first run.
fn push_separator(
    out: &mut Vec<u8>,
    before: Option<RunForm>,
    form: RunForm,
) -> Result<(), AllocError>
    ensures area { OnOk result (out.new.items ≡ out.old.items ++ separator before form) }
{
    match (before, form) {
        (Some(RunForm::Counted), _) | (Some(RunForm::Plain), RunForm::Counted) => out.push(b'+')?,
        (None, _) | (Some(RunForm::Plain), RunForm::Plain) => {}
    }
    Ok(())
}

fn push_run(
    out: &mut Vec<u8>,
    byte: u8,
    times: usize,
    form: RunForm,
    heap: Global,
) -> Result<(), AllocError>
    ensures area { OnOk result (out.new.items ≡ out.old.items ++ run_text form byte times) }
{
    match form {
        RunForm::Plain => push_plain(out, byte, times),
        RunForm::Counted => {
            push_hex(out, byte)?;
            out.push(b'*')?;
            show_number(out, times, heap)
        }
    }
}

/// Bytes, the way a script may write them.
pub fn show_bytes(out: &mut Vec<u8>, bytes: &[u8], heap: Global) -> Result<(), AllocError>
    ensures area { OnOk result (out.new.items ≡ out.old.items ++ shown bytes.now) }
{
    if bytes.is_empty() {
        out.push(b'-')?;
        return Ok(());
    }
    let mut before = None;
    for run in bytes.chunk_by(|byte, next| byte == next) {
        let form = RunForm::of(run.len());
        push_separator(out, before, form)?;
        push_run(out, run[0], run.len(), form, heap)?;
        before = Some(form);
    }
    Ok(())
}
