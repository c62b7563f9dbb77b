//! How far a sweep or an exploration is, told on a terminal.
ghost use Rattle.std.specs.Prelude.{◌≡◌};

use crate::source::FailureReason;
use bench_space::{Progress, Silent};
use std::cell::Cell;
use std::io;
use std::io::Write;
use std::time::{Clock, Duration, Instant};
use stream_io::Sink;

/// A caller that is told how far a command is.
pub trait CommandProgress: Progress {
    /// Tells that a sweep of this many keys begins.
    fn begin_sweep(&mut self, keys: u64);
}

impl CommandProgress for Silent {
    fn begin_sweep(&mut self, _keys: u64) {}
}

/// A writer that passes on what it is given. In a sweep it tells after each write how many lines of keys went by, of
/// how many.
#[derive(Drop)]
pub struct SweepProgress<'a, W, E, C> {
    out: W,
    /// None if nothing is told.
    terminal: Option<E>,
    clock: &'a C,
    began: Option<Instant>,
    /// How many keys the sweep has, if there is one.
    keys: &'a Cell<Option<u64>>,
    lines: u64,
}

impl<'a, W: Write, E: Write, C: Clock> SweepProgress<'a, W, E, C> {
    /// Returns a writer of the lines of keys, after a line of names.
    pub fn new(
        out: W,
        terminal: Option<E>,
        clock: &'a C,
        keys: &'a Cell<Option<u64>>,
    ) -> SweepProgress<'a, W, E, C>
        ensures { result.out ≡ out }
    {
        let began = Instant::now(clock).ok();
        SweepProgress {
            out,
            terminal,
            clock,
            began,
            keys,
            lines: 0,
        }
    }

    /// Counts the lines of these bytes, which were taken, and tells how many keys went by, if that is told.
    fn pass(&mut self, taken: &[u8])
        ensures { self.new.out ≡ self.old.out }
    {
        if let (Some(terminal), Some(keys)) = (&mut self.terminal, self.keys.get()) {
            self.lines = self.lines.saturating_add(lines_in(taken));
            let time = passed(&self.began, self.clock);
            tell(terminal, self.lines.saturating_sub(1), keys, time);
        }
    }
}

impl<W: Write, E: Write, C: Clock> Write for SweepProgress<'_, W, E, C> {
    ghost contents = { λ p. W.contents p.out };

    fn write(&mut self, buf: &[u8]) -> io::Result<usize> {
        let count = self.out.write(buf);
        if let Ok(taken) = count {
            self.pass(&buf[..taken]);
        }
        count
    }

    fn flush(&mut self) -> io::Result<()> {
        self.out.flush()
    }
}

impl<W: Sink, E: Write, C: Clock> Sink for SweepProgress<'_, W, E, C> {
    ghost has_failed = { λ p. W.has_failed p.out };

    fn write_once(&mut self, buf: &[u8]) -> io::Result<usize> {
        let count = self.out.write_once(buf);
        if let Ok(taken) = count {
            self.pass(&buf[..taken]);
        }
        count
    }
}

impl<W: FailureReason, E, C> FailureReason for SweepProgress<'_, W, E, C> {
    fn reason(&self) -> Option<io::Error> {
        self.out.reason()
    }
}

/// Returns the lines that end in these bytes.
fn lines_in(bytes: &[u8]) -> u64 {
    bytes.iter().filter(|byte| **byte == b'\n').count() as u64
}

/// Returns the time since the start, where the clock tells it.
fn passed<C: Clock>(began: &Option<Instant>, clock: &C) -> Duration {
    match began {
        Some(began) => began.elapsed(clock).unwrap_or(Duration::ZERO),
        None => Duration::ZERO,
    }
}

/// Writes over the line that was told before. What the terminal does not take is dropped.
fn tell<E: Write>(terminal: &mut E, done: u64, keys: u64, time: Duration) {
    let seconds = time.as_secs();
    let rate = done / seconds.max(1);
    let left = if done == 0 {
        0
    } else {
        u128::from(keys.saturating_sub(done)) * u128::from(seconds) / u128::from(done)
    };
    let ending = if done < keys { "" } else { "\n" };
    let _ = write!(
        terminal,
        "\r{done} of {keys} keys, {rate} a second, {left} s left {ending}"
    );
}

/// Tells on a terminal, once a second, how far an exploration is.
#[derive(Drop)]
pub struct SearchProgress<'a, E, C> {
    /// None if nothing is told.
    terminal: Option<E>,
    clock: &'a C,
    began: Option<Instant>,
    /// The second in which it was told last.
    told: u64,
    /// Where a sweep is told how many keys it has.
    keys: &'a Cell<Option<u64>>,
}

impl<'a, E: Write, C: Clock> SearchProgress<'a, E, C> {
    /// Begins to tell it on the terminal, if there is one. The keys of a sweep are left in `keys`.
    pub fn new(
        terminal: Option<E>,
        clock: &'a C,
        keys: &'a Cell<Option<u64>>,
    ) -> SearchProgress<'a, E, C> {
        let began = Instant::now(clock).ok();
        SearchProgress {
            terminal,
            clock,
            began,
            told: 0,
            keys,
        }
    }
}

impl<E: Write, C: Clock> CommandProgress for SearchProgress<'_, E, C> {
    fn begin_sweep(&mut self, keys: u64) {
        self.keys.set(Some(keys));
    }
}

impl<E: Write, C: Clock> Progress for SearchProgress<'_, E, C> {
    fn show(&mut self, states: u64, transitions: u64) {
        let Some(terminal) = &mut self.terminal else {
            return;
        };
        let seconds = passed(&self.began, self.clock).as_secs();
        if seconds > self.told {
            self.told = seconds;
            let _ = write!(
                terminal,
                "\r{states} states, {transitions} transitions, {seconds} s "
            );
        }
    }

    fn end(&mut self) {
        if self.told > 0 {
            if let Some(terminal) = &mut self.terminal {
                let _ = write!(terminal, "\n");
            }
        }
    }
}
