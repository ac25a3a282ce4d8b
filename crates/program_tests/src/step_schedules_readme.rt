//! The code of the README of `step_schedules`, word for word.

use std::test::Fail;
use step_schedules::{Action, Before, Fault, Player, Schedule, ScheduleError};

#[test]
fn the_code_of_the_readme_of_step_schedules(rt: HostRuntime) -> Result<(), Fail> {
    let text =
        b"options --rxa 2\n7.26 rx before read ICR # late\n9.0 tx before settle\neeprom before read EERD#3\n";
    let schedule = Schedule::parse(rt.alloc(), text)?;
    let written = schedule.to_string(rt.alloc())?;
    let lines =
        "options --rxa 2\n7.26 rx before read ICR\n9.0 tx before settle\neeprom before read EERD#3\n";
    assert!(rt; schedule.deviations.len() == 3 && written.as_str() == lines);
    let unsorted = b"4.2 rx before read ICR\n4.1 rx before read RDT\n";
    let error = ScheduleError::Line {
        line: 2,
        fault: Fault::Order,
    };
    assert!(rt; Schedule::parse(rt.alloc(), unsorted).err() == Some(error));
    Ok(())
}

#[test]
fn the_code_of_the_readme_of_step_schedules_where_a_schedule_is_played(
    rt: HostRuntime,
) -> Result<(), Fail> {
    let alloc = rt.alloc();
    let text = b"0.1 hold phy before read ICR\n1.0 tx before settle\nchoose 2 before choose#1\n";
    let name = "ICR".to_string(alloc)?;
    let mut player = Player::playing(alloc, Schedule::parse(alloc, text)?)?;
    let event = player.agenda.coming(Before::Read, b"ICR");
    let held = player.agenda.held(&event);
    player.agenda.count(&event);
    player.recorder.begin(event.place, Before::Read, name);
    player.recorder.note(Action::HoldPhy)?;
    let event = player.agenda.coming(Before::Choice, b"choose");
    assert!(rt; held.phy && player.agenda.chosen(&event) == 2);
    player.agenda.count(&event);
    let unmet = player.agenda.unmet(alloc)?;
    let recorded = player.recorder.recorded(alloc, None)?;
    assert!(rt; unmet.as_str() == "1.0 tx before settle\n");
    assert!(rt; recorded.as_str() == "0.1 hold phy before read ICR\n");
    Ok(())
}
