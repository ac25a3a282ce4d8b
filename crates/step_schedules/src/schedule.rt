// Schedules.

ghost use Rattle.step_schedules.specs.Schedules.{IsRead};

use crate::deviation::Deviation;
use crate::reader::Reader;
use crate::schedule_error::ScheduleError;
use std::alloc::Global;
use std::str;

/// A list of deviations from what an adapter does by default.
#[derive(Drop)]
pub struct Schedule {
    /// The words of the server's options, if the text has them.
    pub options: Option<Vec<String>>,
    /// The deviations, in the order of the text.
    pub deviations: Vec<Deviation>,
}

impl Schedule {
    /// Reads the text of a schedule.
    ///
    /// # Errors
    ///
    /// [`Text`](ScheduleError::Text) if the text isn't UTF-8; [`Line`](ScheduleError::Line) for the first faulty line,
    /// with the first of its [faults](crate::Fault); [`Memory`](ScheduleError::Memory) if memory was refused.
    pub fn parse(alloc: Global, text: &[u8]) -> Result<Schedule, ScheduleError>
        ensures { IsRead text.now result }
    {
        let Ok(text) = str::from_utf8(text) else {
            return Err(ScheduleError::Text);
        };
        let reader = Reader::read(alloc, text)?;
        Ok(reader.schedule)
    }
}
