//! Who is who, as text.
ghost use Rattle.std.specs.Prelude.{◌+◌, Some, length};
ghost use Rattle.exploration.specs.Answers.{all_loaded_text, byzantine_text, correct_text, count_text, liars_text, messages_text, nodes_text, programmed_text, spans_text, text_of_range};

use crate::answer::Tried;
use explored::MailSpan;
use std::fmt;

/// The numbers from the first to the last, after a blank: one or two, or a range.
#[derive(Clone, Copy)]
pub(crate) struct Range {
    pub(crate) first: u32,
    pub(crate) last: u32,
}

impl fmt::Display for Range {
    ghost output = { λ range. Some (text_of_range range.first range.last) };

    fn fmt<W: fmt::Write>(&self, f: &mut fmt::Formatter<W>) -> fmt::Result {
        let Range { first, last } = *self;
        if last == first {
            write!(f, " {first}")
        } else if first.checked_add(1) == Some(last) {
            write!(f, " {first} {last}")
        } else {
            write!(f, " {first}..{last}")
        }
    }
}

/// Numbers of nodes, each after a blank.
#[derive(Clone, Copy)]
struct Nodes<'a>(&'a [u32]);

impl fmt::Display for Nodes<'_> {
    ghost output = { λ nodes. Some (nodes_text nodes.0.now) };

    fn fmt<W: fmt::Write>(&self, f: &mut fmt::Formatter<W>) -> fmt::Result {
        for node in self.0 {
            write!(f, " {node}")?;
        }
        Ok(())
    }
}

/// Spans of numbers, each after a blank.
#[derive(Clone, Copy)]
pub(crate) struct Spans<'a>(pub(crate) &'a [MailSpan]);

impl fmt::Display for Spans<'_> {
    ghost output = { λ spans. Some (spans_text spans.0.now) };

    fn fmt<W: fmt::Write>(&self, f: &mut fmt::Formatter<W>) -> fmt::Result {
        for span in self.0 {
            let range = Range {
                first: span.first,
                last: span.last,
            };
            write!(f, "{range}")?;
        }
        Ok(())
    }
}

/// That all loaded nodes are correct and how their clocks are judged, if no node runs the clock.
#[derive(Clone, Copy)]
struct AllLoaded<'a>(&'a Tried);

impl fmt::Display for AllLoaded<'_> {
    ghost output = { λ all. Some (all_loaded_text all.0.now.has_clock all.0.now.is_strict) };

    fn fmt<W: fmt::Write>(&self, f: &mut fmt::Formatter<W>) -> fmt::Result {
        if self.0.has_clock {
            Ok(())
        } else if self.0.is_strict {
            write!(
                f,
                " (no node runs the clock, so all that are loaded; 0 agrees only with 0)"
            )
        } else {
            write!(f, " (no node runs the clock, so all that are loaded)")
        }
    }
}

/// The correct nodes.
#[derive(Clone, Copy)]
pub(crate) struct Correct<'a>(pub(crate) &'a Tried);

impl fmt::Display for Correct<'_> {
    ghost output = { λ correct. Some (correct_text correct.0.now) };

    fn fmt<W: fmt::Write>(&self, f: &mut fmt::Formatter<W>) -> fmt::Result {
        let nodes = Nodes(&self.0.correct);
        let all = AllLoaded(self.0);
        write!(f, "correct{nodes}{all}")
    }
}

/// The Byzantine nodes that have programs.
#[derive(Clone, Copy)]
struct Programmed<'a>(&'a Tried);

impl fmt::Display for Programmed<'_> {
    ghost output = { λ programmed. Some (programmed_text programmed.0.now.programmed.items) };

    fn fmt<W: fmt::Write>(&self, f: &mut fmt::Formatter<W>) -> fmt::Result {
        let nodes = Nodes(&self.0.programmed);
        if self.0.programmed.len() == 0 {
            Ok(())
        } else {
            write!(f, ", Byzantine{nodes} (as loaded)")
        }
    }
}

/// What each node without a program may send.
#[derive(Clone, Copy)]
struct Sendable<'a>(&'a Tried);

impl fmt::Display for Sendable<'_> {
    ghost output = { λ sendable. Some (messages_text sendable.0.now.any sendable.0.now.mail.items) };

    fn fmt<W: fmt::Write>(&self, f: &mut fmt::Formatter<W>) -> fmt::Result {
        let spans = Spans(&self.0.mail);
        if self.0.any {
            write!(f, " (any message)")
        } else {
            write!(f, " (any message of none{spans})")
        }
    }
}

/// The nodes without a program, and what each may send.
#[derive(Clone, Copy)]
struct Unprogrammed<'a>(&'a Tried);

impl fmt::Display for Unprogrammed<'_> {
    ghost output = { λ none. Some (liars_text none.0.now.liars.items none.0.now.any none.0.now.mail.items) };

    fn fmt<W: fmt::Write>(&self, f: &mut fmt::Formatter<W>) -> fmt::Result {
        let nodes = Nodes(&self.0.liars);
        let sendable = Sendable(self.0);
        if self.0.liars.len() == 0 {
            Ok(())
        } else {
            write!(f, ", Byzantine{nodes}{sendable}")
        }
    }
}

/// How many nodes are Byzantine, if none is, or more than the rule allows for.
#[derive(Clone, Copy)]
struct ByzantineCount {
    count: usize,
    faults: u32,
}

impl fmt::Display for ByzantineCount {
    ghost output = { λ byzantine. Some (count_text byzantine.count byzantine.faults) };

    fn fmt<W: fmt::Write>(&self, f: &mut fmt::Formatter<W>) -> fmt::Result {
        let ByzantineCount { count, faults } = *self;
        if count == 0 {
            write!(f, ", no Byzantine node")
        } else if count as u64 > u64::from(faults) {
            write!(f, ", more Byzantine nodes than faults ({faults})")
        } else {
            Ok(())
        }
    }
}

/// The Byzantine nodes.
#[derive(Clone, Copy)]
pub(crate) struct Byzantine<'a>(pub(crate) &'a Tried);

impl fmt::Display for Byzantine<'_> {
    ghost output = { λ byzantine. Some (byzantine_text byzantine.0.now) };

    fn fmt<W: fmt::Write>(&self, f: &mut fmt::Formatter<W>) -> fmt::Result {
        let programmed = Programmed(self.0);
        let others = Unprogrammed(self.0);
        let count = ByzantineCount {
            count: self.0.programmed.len() + self.0.liars.len(),
            faults: self.0.faults,
        };
        write!(f, "{programmed}{others}{count}")
    }
}
