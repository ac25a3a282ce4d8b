//! The code of READMEs, word for word.

use crate::outlet::Taken;
use adapter::offsets::EERD;
use adapter::{Adapter, Bus, Machine, Outcome, StepKind};
use arrayvec::ArrayVec;
use dma_memory::HostMemory;
use driver::{Config, Handled};
use eeprom::Image;
use mdic_phy::Link;
use scenario::Scenario;
use stations::{LentBus, Outcomes, Stations};
use std::test::Fail;
use wire::{Answer, Event, HostPlan, Lan, Plan, PlanError, Tick};

#[test]
fn the_code_of_the_readme_of_wire(rt: HostRuntime) -> Result<(), Fail> {
    let late = [
        Tick::Step(1, StepKind::RxData),
        Tick::Step(1, StepKind::RxDone),
        Tick::Go,
    ];
    // Hosts 0 and 1 on one wire. Host 1 has a socket for all frames.
    let text = b"host a 02:00:00:00:00:01 w\nhost b 02:00:00:00:00:02 w\nsocket b all\n";
    let plan = Scenario::read(rt.alloc(), text)?.plan;
    let mut lan = Lan::new(rt.alloc(), &plan)?;
    // A frame of host 0 is delivered to host 1, whose adapter finishes the frame just before the handler reads ICR.
    let events = [
        Event::Send {
            host: 0,
            frame: &[0xFF; 60],
            ticks: &[],
        },
        Event::Tick(Tick::Step(0, StepKind::TxTake)),
        Event::Tick(Tick::Step(0, StepKind::TxPut)),
        Event::Tick(Tick::Deliver(1)),
        Event::Interrupt {
            host: 1,
            ticks: &late,
        },
    ];
    let mut replies = Vec::new(rt.alloc());
    lan.run(rt.alloc(), &events, &mut replies)?;
    let handled = Answer::Interrupted(Handled::Handled { taken: 1 });
    assert!(rt; replies.last().is_some_and(|reply| reply.answer == handled));
    // A drain of host 1 returns the frame, in one step.
    let mut taken = Taken::with_room(rt.alloc(), lan.drain_room(1))?;
    assert!(rt; lan.drain(1, &mut taken) == 1 && taken.list.len() == 1);
    Ok(())
}

#[test]
fn the_code_of_the_readme_of_network_plan(rt: HostRuntime) -> Result<(), Fail> {
    let mut plan = Plan {
        hosts: Vec::new(rt.alloc()),
    };
    assert!(rt; plan.check() == Err(PlanError::Hosts)); // no host
    for (name, last) in [("a", 1), ("b", 2)] {
        let host = HostPlan {
            name: name.to_string(rt.alloc())?,
            wire: "w".to_string(rt.alloc())?,
            image: Image::with_address([0x02, 0, 0, 0, 0, last]),
            link: Link::After(3),
            config: Config {
                rx: 8,
                tx: 8,
                buffers: 16,
                rxa: 48,
                promiscuous: false,
                groups: ArrayVec::new(),
                vlans: None,
            },
            sockets: ArrayVec::new(),
        };
        plan.hosts.push(host)?;
    }
    assert!(rt; plan.check().is_ok());
    plan.hosts.pop();
    assert!(rt; plan.check() == Err(PlanError::Ends)); // a wire with one end
    Ok(())
}

#[test]
fn the_code_of_the_readme_of_stations(rt: HostRuntime) -> Result<(), Fail> {
    let mut outcomes = Outcomes::with_room(rt.alloc(), 1)?;
    let memory = HostMemory::new(rt.alloc(), 4096)?;
    let image = Image::with_address([0x02, 0, 0, 0, 0, 0x01]);
    let adapter = Adapter::new(rt.alloc(), &image, Link::Never)?;
    let mut stations = Stations::new(rt.alloc());
    stations.connect(rt.alloc(), Machine::new(adapter, memory), 0)?; // the only host on wire 0
    stations.play(Tick::Deliver(0), 0, &mut outcomes); // after no access
    for one in outcomes.as_slice() {
        assert!(rt; one.outcome == Outcome::Nothing); // no frame waits at its end
    }
    Ok(())
}

#[test]
fn the_code_of_the_readme_of_stations_where_a_bus_is_lent(rt: HostRuntime) -> Result<(), Fail> {
    let mut outcomes = Outcomes::with_room(rt.alloc(), 4)?;
    let memory = HostMemory::new(rt.alloc(), 4096)?;
    let image = Image::with_address([0x02, 0, 0, 0, 0, 0x01]);
    let adapter = Adapter::new(rt.alloc(), &image, Link::Never)?;
    let mut stations = Stations::new(rt.alloc());
    stations.connect(rt.alloc(), Machine::new(adapter, memory), 0)?;
    let ticks = [
        Tick::Go, // none before the first access,
        Tick::Step(0, StepKind::EepromTick), // one before the second,
        Tick::Go,
        Tick::Deliver(0), // and one that is left for the end
    ];
    let mut bus = LentBus {
        stations: &mut stations,
        ticks: &ticks,
        host: 0,
        accesses: 0,
        observer: &mut outcomes,
    };
    bus.write(EERD, 1); // begins a read of word 0
    let word = bus.read(EERD); // the word, and DONE
    bus.finish();
    assert!(rt; word == 0x0002_0010 && bus.accesses == 2);
    assert!(rt; outcomes.as_slice().len() == 2);
    for one in outcomes.as_slice() {
        let ticked = one.accesses == 1 && one.outcome == Outcome::Ticked;
        let late = one.accesses == 2 && one.outcome == Outcome::Nothing; // nothing waits there
        assert!(rt; ticked || late);
    }
    Ok(())
}
