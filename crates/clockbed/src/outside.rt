//! What the program takes as given: the files, and which request words ask for.
ghost use Rattle.std.specs.Prelude.{◌≡◌, IfErr, IfOk, List, None, Option, map, string_bytes, ℕ};
ghost use Rattle.command_line.specs.Requests.{IsAskedWithFile};
ghost use Rattle.command_line.specs.declared.request.Invocation.{Invocation};

use crate::source::{FailureReason, Reasoned};
use command_line::{Invocation, WordsFault, parse_args};
use std::alloc::Global;
use std::io;
use stream_io::Source;

/// Opens files to read.
pub trait Opener {
    type File: Source + FailureReason + Drop;

    // What is known of the bytes of the file at this path.
    ghost files: { Self → List ℕ → Option (List ℕ) };

    // The file at this path may not open.
    ghost may_fail: { Self → List ℕ → Type 0 };

    /// Opens the file at this path.
    fn open(&self, path: &str) -> io::Result<Self::File>
        ensures opened { IfOk result (λ file. Self.File.Source.remaining file ≡ files self.now path.now) }
        ensures failed { IfErr result (λ _. may_fail self.now path.now) };
}

/// Reads words as a request.
pub trait WordsReader {
    // The words ask for this.
    ghost asks: { Self → List (List ℕ) → Invocation → Type 0 };

    /// Returns what the words ask for, of which the first is the program's name.
    fn read_words(&self, alloc: Global, words: &[String]) -> Result<Invocation, WordsFault>
        ensures { IfOk result (asks self.now (map (λ word. string_bytes word) words.now)) };
}

/// No file opens.
#[derive(Clone, Copy, Debug, Drop)]
pub struct NoFiles;

impl Opener for NoFiles {
    type File = Reasoned<&'static [u8]>;

    ghost files = { λ _ _. None };

    ghost may_fail = { λ _ _. Unit {0} };

    fn open(&self, _path: &str) -> io::Result<Reasoned<&'static [u8]>> {
        Err(io::Error::from(io::ErrorKind::NotFound))
    }
}

/// Reads words by `clap`.
#[derive(Clone, Copy, Debug, Drop)]
pub struct Clap;

impl WordsReader for Clap {
    ghost asks = { λ _ _ asked. IsAskedWithFile asked };

    fn read_words(&self, alloc: Global, words: &[String]) -> Result<Invocation, WordsFault> {
        parse_args(alloc, words)
    }
}
