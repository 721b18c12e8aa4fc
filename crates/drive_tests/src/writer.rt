//! Writes messages to a journal, and reports commits.

use crate::options::WriterOptions;
use crate::problem::Problem;
use mold_devices::{Sink, send};
use mold_digits::{MAX_DIGITS, write_number};
use mold_durable::{DurableJournal, Storage};
use std::alloc::Global;

/// A journal that is written in groups.
#[derive(Drop)]
pub(crate) struct Writer<S: Storage> {
    journal: DurableJournal<S>,
    options: WriterOptions,
    text: Vec<u8>,
}

impl<S: Storage> Writer<S> {
    pub(crate) fn new(
        alloc: Global,
        journal: DurableJournal<S>,
        options: WriterOptions,
    ) -> Writer<S> {
        Writer {
            journal,
            options,
            text: Vec::new(alloc),
        }
    }

    /// Reports the number of committed messages, if the options select it.
    pub(crate) fn report<K: Sink>(&mut self, sink: &mut K) -> Result<(), Problem> {
        if self.options.reports {
            let mut digits = [0; MAX_DIGITS];
            let end = write_number(&mut digits, 0, self.journal.committed());
            self.text.extend_from_slice(&digits[..end])?;
            self.text.extend_from_slice(b"\n")?;
            send(sink, &mut self.text)?;
        }
        Ok(())
    }

    /// Appends the message `repeats` times, and commits whenever `group` messages wait.
    pub(crate) fn append<K: Sink>(&mut self, message: &[u8], sink: &mut K) -> Result<(), Problem> {
        for _ in 0..self.options.repeats {
            if self.journal.append(message).is_err() {
                return Err(Problem::File);
            }
            if self.journal.next() - 1 - self.journal.committed() >= self.options.group {
                self.commit(sink)?;
            }
        }
        Ok(())
    }

    /// Commits what waits, and closes the session if the options select it.
    pub(crate) fn finish<K: Sink>(&mut self, sink: &mut K) -> Result<(), Problem> {
        if !self.options.closes {
            return if self.waits() {
                self.commit(sink)
            } else {
                Ok(())
            };
        }
        match self.journal.close() {
            Ok(()) => self.report(sink),
            Err(_) => Err(Problem::File),
        }
    }

    fn waits(&self) -> bool {
        self.journal.next() - 1 > self.journal.committed()
    }

    fn commit<K: Sink>(&mut self, sink: &mut K) -> Result<(), Problem> {
        match self.journal.commit() {
            Ok(()) => self.report(sink),
            Err(_) => Err(Problem::File),
        }
    }
}
