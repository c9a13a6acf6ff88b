//! The input and the output of a client.

ghost use Rattle.std.specs.Prelude.{None};

use crate::count::Count;
use crate::reading::read_next;
use disk_model::{Failed, Sink, Source};
use std::fs::File;
use std::io::{Stdin, Stdout, Write};

/// A stream that is read.
#[derive(Drop)]
pub enum Input {
    Standard(Stdin),
    File(File),
}

/// A stream that is written.
#[derive(Drop)]
pub enum Output {
    Standard(Stdout),
    File(File),
}

/// Standard input or a file. Its ghost doesn't tell what is left. A read is one call of the system, and a call more for
/// each signal that interrupts it.
#[derive(Drop)]
pub struct SystemSource {
    name: String,
    input: Input,
    count: Count,
}

impl SystemSource {
    /// A source that reads this input. Failures are printed with the name.
    pub fn new(rt: HostRuntime, name: String, input: Input) -> Self {
        SystemSource {
            name,
            input,
            count: Count::new(rt),
        }
    }
}

impl Source for SystemSource {
    ghost left = { λ s. None };

    ghost faults = { λ s. s.count.faults };

    fn read(&mut self, out: &mut [u8]) -> Result<usize, Failed> {
        let answer = match &mut self.input {
            Input::Standard(stream) => read_next(stream, out),
            Input::File(file) => read_next(file, out),
        };
        self.count.counted(self.name.as_str(), answer)
    }

    fn faults(&self) -> u64 {
        self.count.faults
    }
}

/// Standard output or a file. Its ghost doesn't tell what was written. It has no buffer: each piece goes to the system.
#[derive(Drop)]
pub struct SystemSink {
    name: String,
    output: Output,
    count: Count,
}

impl SystemSink {
    /// A sink that writes this output. Failures are printed with the name.
    pub fn new(rt: HostRuntime, name: String, output: Output) -> Self {
        SystemSink {
            name,
            output,
            count: Count::new(rt),
        }
    }
}

impl Sink for SystemSink {
    ghost written = { λ s. None };

    ghost faults = { λ s. s.count.faults };

    fn write(&mut self, bytes: &[u8]) -> Result<(), Failed> {
        let answer = match &mut self.output {
            Output::Standard(stream) => stream.write_all(bytes),
            Output::File(file) => file.write_all(bytes),
        };
        self.count.counted(self.name.as_str(), answer)
    }

    fn faults(&self) -> u64 {
        self.count.faults
    }
}
