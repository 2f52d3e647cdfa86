//! The sink of the program, which tells whether its reader is gone, and how far the writing is.
ghost use Rattle.std.specs.Prelude.{◌≡◌, ◌+◌, ◌≤◌, length, take, IfOk, OnErr, OnOk};
ghost use Rattle.phone_device.specs.Passing.{Takes, faults_of_write, untold};

use phone_device::{ByteSink, ByteSource, Count, Fault, Limit, Std};
use std::io::{ErrorKind, Read, Write};

/// A sink that may know that what reads it is gone.
pub trait Outlet: ByteSink {
    /// Whether what read it is gone, as behind `head`: then it is no failure that is to be told.
    fn is_closed(&self) -> bool;

    /// Ends what it tells of how far the writing is, so that a line can be told. What was written
    /// stays.
    fn end_progress(&mut self)
        ensures taken { Self.taken self.new ≡ Self.taken self.old }
        ensures faults { Self.faults self.new ≡ Self.faults self.old }
        ensures unflushed { Self.unflushed self.new ≡ Self.unflushed self.old };
}

impl Outlet for Limit {
    fn is_closed(&self) -> bool {
        false
    }

    fn end_progress(&mut self) {}
}

impl<W: Write + Drop> Outlet for Std<W> {
    fn is_closed(&self) -> bool {
        false
    }

    fn end_progress(&mut self) {}
}

/// How many lines are written between two that tell of them.
const STEP: u64 = 10_000;

/// What tells on a terminal how many lines were written.
#[derive(Drop)]
pub struct Meter<P: Drop> {
    terminal: P,
    lines: u64,
    told: u64,
}

impl<P: Write + Drop> Meter<P> {
    /// Nothing was written yet.
    pub fn new(terminal: P) -> Meter<P> {
        Meter {
            terminal,
            lines: 0,
            told: 0,
        }
    }

    /// Counts the lines that bytes end, and tells of them where it is time. That the terminal fails
    /// changes nothing.
    fn count(&mut self, bytes: &[u8]) {
        let lines = bytes.iter().filter(|byte| **byte == b'\n').count();
        self.lines = self.lines.saturating_add(lines as u64);
        if self.lines.saturating_sub(self.told) >= STEP {
            self.told = self.lines;
            let lines = self.lines;
            let _told = write!(self.terminal, "\rphone: {lines} lines written ");
        }
    }

    /// Tells the last count, and ends the line, where any was told.
    fn end(&mut self) {
        if self.told > 0 {
            let lines = self.lines;
            let _told = write!(self.terminal, "\rphone: {lines} lines written\n");
            self.told = 0;
        }
    }
}

/// A sink over a writer of std, perhaps with a meter. A call that the writer refuses is a fault.
#[derive(Drop)]
pub struct Output<W: Drop, P: Drop> {
    writer: W,
    meter: Option<Meter<P>>,
    is_closed: bool,
    faults: Count,
    unflushed: Count,
}

impl<W: Write + Drop, P: Write + Drop> Output<W, P> {
    /// A sink over this writer.
    pub fn new(writer: W, meter: Option<Meter<P>>) -> Output<W, P> {
        Output {
            writer,
            meter,
            is_closed: false,
            faults: Count::new(),
            unflushed: Count::new(),
        }
    }
}

impl<W: Write + Drop, P: Write + Drop> ByteSink for Output<W, P> {
    ghost use Rattle.phone_device.specs.Passing.{untold};

    ghost taken = { λ _. untold };

    ghost faults = { λ s. s.faults.value };

    ghost unflushed = { λ s. s.unflushed.value };

    fn write(&mut self, bytes: &[u8]) -> Result<usize, Fault> {
        self.unflushed.tick();
        match self.writer.write(bytes) {
            Ok(n) => {
                if n == 0 && !bytes.is_empty() {
                    self.faults.tick();
                }
                if let Some(meter) = &mut self.meter {
                    meter.count(bytes.get(..n).unwrap_or(bytes));
                }
                Ok(n)
            }
            Err(error) => {
                self.is_closed = error.kind() == ErrorKind::BrokenPipe;
                self.faults.tick();
                Err(Fault)
            }
        }
    }

    fn flush(&mut self) -> Result<(), Fault> {
        match self.writer.flush() {
            Ok(()) => {
                self.unflushed = Count::new();
                Ok(())
            }
            Err(error) => {
                self.is_closed = error.kind() == ErrorKind::BrokenPipe;
                self.faults.tick();
                Err(Fault)
            }
        }
    }
}

impl<W: Write + Drop, P: Write + Drop> Outlet for Output<W, P> {
    fn is_closed(&self) -> bool {
        self.is_closed
    }

    fn end_progress(&mut self) {
        if let Some(meter) = &mut self.meter {
            meter.end();
        }
    }
}

/// A source over a reader of std, which may tell that it waits for a terminal. A call that the
/// reader refuses is a fault.
#[derive(Drop)]
pub struct Input<R: Drop, P: Drop> {
    reader: R,
    notice: Option<P>,
    faults: Count,
}

impl<R: Read + Drop, P: Write + Drop> Input<R, P> {
    /// A source over this reader. Where there is a notice, a line is written there before the first
    /// read.
    pub fn new(reader: R, notice: Option<P>) -> Input<R, P> {
        Input {
            reader,
            notice,
            faults: Count::new(),
        }
    }
}

impl<R: Read + Drop, P: Write + Drop> ByteSource for Input<R, P> {
    ghost use Rattle.phone_device.specs.Passing.{untold};

    ghost to_come = { λ _. untold };

    ghost faults = { λ s. s.faults.value };

    fn read(&mut self, buf: &mut [u8]) -> Result<usize, Fault> {
        if let Some(terminal) = &mut self.notice {
            let line = "phone: waits for input on the terminal; end with Ctrl-D\n";
            let _told = terminal.write_all(line.as_bytes());
        }
        self.notice = None;
        if let Ok(n) = self.reader.read(buf) {
            return Ok(n);
        }
        self.faults.tick();
        Err(Fault)
    }
}
