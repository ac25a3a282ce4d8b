// Writes schedules as texts.

ghost use Rattle.std.specs.Prelude.{◌≡◌, Some, map, string_bytes};
ghost use Rattle.std.specs.Fmt.{WritesOnOk};
ghost use Rattle.step_schedules.specs.Deviations.{deviation_value};
ghost use Rattle.step_schedules.specs.Schedules.{schedule_value};
ghost use Rattle.step_schedules.specs.Texts.{action_text, action_words, before_text, deviation_lines, deviation_text};
ghost use Rattle.step_schedules.specs.Texts.{options_line, schedule_text};

use crate::deviation::{Action, Before, Deviation, Site};
use crate::schedule::Schedule;
use std::fmt;

impl Action {
    /// Returns the words of an action in a line, without the number of a choice.
    fn words(self) -> &'static str
        ensures { result.now ≡ action_words self }
    {
        match self {
            Action::TxTake => "txtake",
            Action::TxPut => "txput",
            Action::RxData => "rxdata",
            Action::RxDone => "rxdone",
            Action::Tx => "tx",
            Action::Rx => "rx",
            Action::Arrive => "arrive",
            Action::HoldEeprom => "hold eeprom",
            Action::HoldPhy => "hold phy",
            Action::EepromTick => "eeprom",
            Action::PhyTick => "phy",
            Action::Choose(_) => "choose",
        }
    }
}

impl fmt::Display for Action {
    ghost output = { λ action. Some (action_text action) };

    fn fmt<W: fmt::Write>(&self, f: &mut fmt::Formatter<W>) -> fmt::Result {
        let words = self.words();
        match *self {
            Action::Choose(number) => write!(f, "{words} {number}"),
            _ => f.write_str(words),
        }
    }
}

impl Before {
    /// Returns the part of a line from `before` to the name.
    fn words(self) -> &'static str
        ensures { result.now ≡ before_text self }
    {
        match self {
            Before::Read => "before read ",
            Before::Write => "before write ",
            Before::Request | Before::Choice => "before ",
        }
    }
}

impl fmt::Display for Deviation {
    ghost output = { λ deviation. Some (deviation_text (deviation_value deviation)) };

    fn fmt<W: fmt::Write>(&self, f: &mut fmt::Formatter<W>) -> fmt::Result {
        let action = self.action;
        let before = self.before.words();
        let name = self.name.as_str();
        match self.site {
            Site::Place(place) => {
                let round = place.round;
                let access = place.access;
                write!(f, "{round}.{access} {action} {before}{name}")
            }
            Site::Number(number) => write!(f, "{action} {before}{name}#{number}"),
        }
    }
}

/// Writes the line of the server's options.
fn write_options<W: fmt::Write>(options: &[String], f: &mut fmt::Formatter<W>) -> fmt::Result
    ensures { WritesOnOk W.write_str_gives f.old result (options_line (map string_bytes options.now)) f.new }
{
    f.write_str("options")?;
    for option in options {
        write!(f, " {option}")?;
    }
    f.write_str("\n")
}

/// Writes the lines of deviations.
fn write_deviations<W: fmt::Write>(
    deviations: &[Deviation],
    f: &mut fmt::Formatter<W>,
) -> fmt::Result
    ensures { WritesOnOk W.write_str_gives f.old result (deviation_lines (map deviation_value deviations.now)) f.new }
{
    for deviation in deviations {
        write!(f, "{deviation}\n")?;
    }
    Ok(())
}

/// The text of a schedule, which [`Schedule::parse`] reads.
impl fmt::Display for Schedule {
    ghost output = { λ schedule. Some (schedule_text (schedule_value schedule)) };

    fn fmt<W: fmt::Write>(&self, f: &mut fmt::Formatter<W>) -> fmt::Result {
        if let Some(options) = &self.options {
            write_options(options.as_slice(), f)?;
        }
        write_deviations(self.deviations.as_slice(), f)
    }
}
