// What the program prints: echoed lines, and indented lines about what came back.
// It is printed once the script has ended, so that nothing is printed of one that runs out of memory.
use script::bad::Stop;
use script::show::show_bytes;
use std::alloc::{AllocError, Global};
use std::fmt;
use std::fmt::{Display, Write};

#[derive(Drop)]
pub struct Page {
    text: Vec<u8>,
    heap: Global,
}

impl Page {
    pub fn new(heap: Global) -> Self {
        Page {
            text: Vec::new(heap),
            heap,
        }
    }

    pub fn heap(&self) -> Global {
        self.heap
    }

    pub fn text(&self) -> &[u8] {
        self.text.as_slice()
    }

    /// A line of the script, byte for byte, before it is run.
    pub fn echo(&mut self, line: &[u8]) -> Result<(), AllocError> {
        self.text.extend_from_slice(b"> ")?;
        self.text.extend_from_slice(line)?;
        self.text.extend_from_slice(b"\n")
    }

    /// An indented line.
    // By `write!`, since `format!` makes a text on the heap for each line.
    pub fn say<D: Display + Drop>(&mut self, words: D) -> Result<(), AllocError> {
        write!(self, "  {words}\n").map_err(|_| AllocError)
    }

    /// A line such as `  area BYTES`.
    pub fn say_bytes(&mut self, label: &str, bytes: &[u8]) -> Result<(), AllocError> {
        write!(self, "  {label} ").map_err(|_| AllocError)?;
        show_bytes(&mut self.text, bytes, self.heap)?;
        self.text.extend_from_slice(b"\n")
    }

    /// The value of a counter, or the refusal.
    pub fn say_value<E: Display + Drop>(
        &mut self,
        answer: Result<u32, E>,
    ) -> Result<(), AllocError> {
        match answer {
            Ok(value) => self.say(format_args!("value {value}")),
            Err(fault) => self.say(fault),
        }
    }

    /// Whether an area was right when it was opened.
    pub fn say_area<E: Display + Drop>(&mut self, fault: Option<E>) -> Result<(), AllocError> {
        match fault {
            None => self.say("area ok"),
            Some(fault) => self.say(fault),
        }
    }

    /// Why a line was not run, where it is wrong. Only want of memory ends the program.
    pub fn settle(&mut self, ran: Result<(), Stop>) -> Result<(), AllocError> {
        match ran {
            Ok(()) => Ok(()),
            Err(Stop::Line(bad)) => self.say(format_args!("error: {bad}")),
            Err(Stop::Memory) => Err(AllocError),
        }
    }
}

/// Adds a text as it is, which fails for want of memory alone.
impl Write for Page {
    fn write_str(&mut self, text: &str) -> fmt::Result {
        self.text
            .extend_from_slice(text.as_bytes())
            .map_err(|_| fmt::Error)
    }
}
