// Reads a schedule line by line.

ghost use Rattle.std.specs.Prelude.{◌≡◌, ◌<◌, length};
ghost use Rattle.step_schedules.specs.Deviations.{deviation_value};
ghost use Rattle.step_schedules.specs.Schedules as spec;
ghost use Rattle.step_schedules.specs.Words.{texts};

use crate::deviation::{Deviation, Place, Site};
use crate::deviation_words::deviation_of;
use crate::schedule::Schedule;
use crate::schedule_error::{Fault, ScheduleError, Stop};
use crate::words::{lines_in, strings_of, words_in};
use std::alloc::Global;

/// The part of a schedule that was read so far.
#[derive(Drop)]
pub(crate) struct Reader {
    /// The options and deviations so far.
    pub(crate) schedule: Schedule,
    /// The place of the last deviation with a place, or 0.0 if no deviation has a place.
    pub(crate) last: Place,
}

impl Reader {
    /// Returns a reader before the first line.
    fn new(alloc: Global) -> Reader
        ensures { spec.schedule_so_far result ≡ spec.no_schedule_read }
    {
        Reader {
            schedule: Schedule {
                options: None,
                deviations: Vec::new(alloc),
            },
            last: Place {
                round: 0,
                access: 0,
            },
        }
    }

    /// Stores the options of a line: the words after its first word, `options`. So there must be at least one word.
    /// Rejects the line if an earlier line has words.
    fn set_options(&mut self, alloc: Global, words: &[&str]) -> Result<(), Stop>
        requires { 0 < length words.now }
        ensures { spec.Becomes result (spec.after_options (texts words.now) (spec.schedule_so_far self.old))
            (spec.schedule_so_far self.new) }
    {
        // Each earlier line with words has set the options or added a deviation.
        if self.schedule.options.is_some() || !self.schedule.deviations.is_empty() {
            return Err(Stop::Fault(Fault::Options));
        }
        let (_, options) = words.split_at(1);
        self.schedule.options = Some(strings_of(alloc, options)?);
        Ok(())
    }

    /// Appends a deviation. Rejects a deviation whose place is before the last place. A deviation without a place may
    /// follow any other. Also fails if memory was refused.
    fn push(&mut self, deviation: Deviation) -> Result<(), Stop>
        ensures { spec.Becomes result (spec.after_deviation (deviation_value deviation) (spec.schedule_so_far self.old))
            (spec.schedule_so_far self.new) }
    {
        if let Site::Place(place) = deviation.site {
            if place.is_before(self.last) {
                return Err(Stop::Fault(Fault::Order));
            }
            self.last = place;
        }
        self.schedule
            .deviations
            .push(deviation)
            .map_err(|_refused| Stop::Memory)
    }

    /// Appends the deviation that the words of a line describe. There must be at least one word. Rejects what
    /// [`deviation_of`] rejects, and then what [`push`](Reader::push) rejects.
    fn read_deviation(&mut self, alloc: Global, words: &[&str]) -> Result<(), Stop>
        requires { 0 < length words.now }
        ensures { spec.Becomes result (spec.after_deviation_in (texts words.now) (spec.schedule_so_far self.old))
            (spec.schedule_so_far self.new) }
    {
        let deviation = deviation_of(alloc, words)?;
        self.push(deviation)
    }

    /// Reads the words of a line: no words, which change nothing; the server's options; or a deviation.
    fn read_words(&mut self, alloc: Global, words: &[&str]) -> Result<(), Stop>
        ensures { spec.Becomes result (spec.after_line_words (texts words.now) (spec.schedule_so_far self.old))
            (spec.schedule_so_far self.new) }
    {
        let Some(first) = words.first() else {
            return Ok(());
        };
        if *first == "options" {
            return self.set_options(alloc, words);
        }
        self.read_deviation(alloc, words)
    }

    /// Reads the words of a line that are before its comment, as [`read_words`](Reader::read_words) does.
    fn read_line(&mut self, alloc: Global, line: &str) -> Result<(), Stop>
        ensures { spec.Becomes result (spec.after_schedule_line line.now (spec.schedule_so_far self.old))
            (spec.schedule_so_far self.new) }
    {
        let words = words_in(alloc, line)?;
        self.read_words(alloc, words.as_slice())
    }

    /// Reads lines, numbered from 1. Stops at the first line that is faulty, or for which memory is refused, and
    /// returns the error of this line.
    fn read_lines(&mut self, alloc: Global, lines: &[&str]) -> Result<(), ScheduleError>
        ensures { spec.AreLinesRead (spec.after_lines (texts lines.now) 1 (spec.schedule_so_far self.old)) result
            (spec.schedule_so_far self.new) }
    {
        let mut number = 0;
        for line in lines {
            number += 1;
            if let Err(stop) = self.read_line(alloc, line) {
                return Err(stop.at(number));
            }
        }
        Ok(())
    }

    /// Reads all lines of a text. Fails at the first faulty line, or if memory was refused.
    pub(crate) fn read(alloc: Global, text: &str) -> Result<Reader, ScheduleError>
        ensures { spec.IsTextRead text.now result }
    {
        let lines = lines_in(alloc, text).map_err(|_refused| ScheduleError::Memory)?;
        let mut reader = Reader::new(alloc);
        reader.read_lines(alloc, lines.as_slice())?;
        Ok(reader)
    }
}
