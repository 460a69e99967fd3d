// Standard input and standard output. A read that fails brings nothing, as at the input's end, and after a write that fails nothing more is printed: the run goes on, and
// the program ends with the error.
ghost use Rattle.std.specs.Prelude.{◌≡◌, ◌↔◌, ◌≤◌, IsOk, length};

use crate::printing;
use std::io;
use std::io::Read;

// The streams, and how it went with each so far.
#[derive(Drop)]
pub struct Console<R> {
    rt: R,
    input: io::Result<()>,
    output: io::Result<()>,
}

impl<R: Input + Print> Console<R> {
    pub fn new(rt: R) -> Console<R>
        ensures { IsOk result.input × IsOk result.output }
    {
        Console {
            rt,
            input: Ok(()),
            output: Ok(()),
        }
    }

    // One read. It fills what there is room for, or less; nothing comes at the input's end and where a read fails.
    pub fn read(&mut self, free: &mut [u8]) -> usize
        ensures { result ≤ length free.new }
    {
        match self.rt.reader().read(free) {
            Ok(got) => got,
            Err(e) => {
                self.input = Err(e);
                0
            }
        }
    }

    // Reads until it is full, or nothing more comes.
    pub fn read_full(&mut self, free: &mut [u8]) -> usize
        ensures { result ≤ length free.new }
    {
        let mut done = 0;
        while done < free.len() {
            let got = self.read(&mut free[done..]);
            if got == 0 {
                break;
            }
            done += got;
        }
        done
    }

    pub fn header(&mut self)
        ensures { self.new.input ≡ self.old.input }
    {
        if self.output.is_ok() {
            self.output = println!(self.rt; "call answer view timed height");
        }
    }

    // The lines in the first bytes of the region, as far as it goes.
    pub fn print(&mut self, lines: &[u8], filled: usize)
        ensures { self.new.input ≡ self.old.input }
    {
        if self.output.is_ok() {
            self.output = printing::print(&self.rt, lines, filled);
        }
    }
}

impl<R: Drop> Console<R> {
    // The error of a read that failed, or else that of a write.
    pub fn finish(self) -> io::Result<()>
        ensures { IsOk result ↔ (IsOk self.input × IsOk self.output) }
    {
        self.input?;
        self.output
    }
}
