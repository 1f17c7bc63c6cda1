// Where a gateway logs to. Nothing is said of what standard error takes, or of what a clock tells.
use crate::moment::second_now;
use crate::parent::ParentProcess;
use crate::priority::priority;
use commands::LogLines;
use log::kv::Source;
use log::span::Spans;
use log::{Line, Log, Metadata, Record};
use std::fmt::Display;
use std::os::unix::process::parent_id;
use std::process::Process;
use std::time::Clock;

/// The system, and its log: each record is written to standard error as a line, as `log` shows it,
/// which begins as it is told, but without the time where the clock fails. What can't be written is
/// dropped.
#[derive(Clone, Copy, Drop)]
pub struct SystemLog<R> {
    rt: R,
    process: Process,
    lines: LogLines,
}

impl<R> SystemLog<R> {
    /// That of this process, with lines that begin so.
    pub fn new(rt: R, process: Process, lines: LogLines) -> SystemLog<R> {
        SystemLog { rt, process, lines }
    }

    /// The system that it is.
    pub(crate) fn system(&self) -> &R {
        &self.rt
    }
}

impl<R> ParentProcess for SystemLog<R> {
    fn parent_id(&self) -> u32 {
        parent_id(self.process)
    }
}

impl<R: Eprint + Clock> Log for SystemLog<R> {
    ghost use Rattle.std.specs.Prelude.{Some, true, []};

    ghost enables = { λ _ _ _. Some true };

    ghost target_of = { λ _. Some [] };

    fn enabled(&self, _metadata: &Metadata<'_>) -> bool {
        true
    }

    fn log<D: Display, K: Source, S: Spans>(&self, record: &Record<'_, D, K, S>) {
        let line = Line::new(record);
        let _written = match self.lines {
            LogLines::Plain => self.rt.eprintln(line),
            LogLines::Journal => {
                let priority = priority(record.level());
                self.rt.eprintln(format_args!("{priority}{line}"))
            }
            LogLines::Time => match second_now(&self.rt) {
                Some(time) => self.rt.eprintln(format_args!("{time} {line}")),
                None => self.rt.eprintln(line),
            },
        };
    }

    fn flush(&self) {}

    fn target(&self) -> &str {
        ""
    }
}
