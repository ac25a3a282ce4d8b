// A bus over a reader and a writer.

ghost use Rattle.std.specs.Prelude.{◌≡◌, None, OnOk, false, length};
ghost use Rattle.std.specs.Io.KnownBytes.{Appends};
ghost use Rattle.adapter.specs.BusMembers.{KeepsProperties};
ghost use Rattle.adapter.specs.bus_types.event.Access.TheVariants.{Loads, Reads, Stores, Writes};
ghost use Rattle.drive.specs.QtestState.{Asks, HasAsked};
ghost use Rattle.drive.specs.QtestRequests.{request_of};

use crate::BusFault;
use crate::qtest_answers::Answers;
use crate::qtest_requests::Requests;
use adapter::Bus;
use std::alloc::Global;
use std::io::{BufRead, Write};
use std::marker::Model;

/// A bus to an adapter in another program, which answers requests of QEMU's qtest protocol, one on each line.
///
/// Each access is one request: `readl` or `writel` for a register, `read` or `write` for bytes of memory. Before an
/// answer, lines `IRQ raise ..` and `IRQ lower ..` report the level of the interrupt line, and lines `frame ..`,
/// `arrived ..`, `fault ..` and `#..` are skipped. Any other line is an answer.
///
/// At the first fault, the bus stops: if the access that failed or a later access reads, it reads zeros. No later
/// access writes a request.
#[derive(Drop)]
pub struct QtestBus<R: BufRead, W: Write> {
    requests: Requests<W>,
    answers: Answers<R>,
    /// The number of bytes of memory that a driver may use, from address 0.
    memory: u64,
    /// Why the bus stopped, if it stopped.
    fault: Option<BusFault>,
}

impl<R: BufRead, W: Write> Model for QtestBus<R, W> {
    ghost use Rattle.drive.specs.QtestState.{QtestState};

    ghost Value = { QtestState };

    ghost view = { λ b. record {
      registers = b.requests.registers;
      memory = b.memory;
      asserted = b.answers.asserted;
      fault = b.fault;
      written = W.contents b.requests.output;
    } };
}

impl<R: BufRead, W: Write> QtestBus<R, W> {
    /// Returns a bus to a program. Requests are written to `output`, and answers are read from `input`.
    ///
    /// The registers begin at the address `registers`, and a driver may use `memory` bytes from address 0. The
    /// interrupt line counts as deasserted until an `IRQ` line reports it. Pass an unbuffered writer, because the bus
    /// never flushes the writer.
    pub fn new(alloc: Global, input: R, output: W, registers: u64, memory: u64) -> QtestBus<R, W>
        ensures { result ≡ record {
          registers = registers;
          memory = memory;
          asserted = false;
          fault = None;
          written = W.contents output;
        } }
    {
        QtestBus {
            requests: Requests {
                output,
                registers,
                alloc,
            },
            answers: Answers {
                input,
                line: Vec::new(alloc),
                asserted: false,
            },
            memory,
            fault: None,
        }
    }

    /// Returns whether the interrupt line is asserted, as the last `IRQ` line reported; `false` before the first `IRQ`
    /// line.
    pub fn is_asserted(&self) -> bool
        ensures { result ≡ self.now.asserted }
    {
        self.answers.asserted
    }

    /// Returns why the bus stopped, or `None` if it hasn't stopped.
    pub fn fault(&self) -> Option<BusFault>
        ensures { result ≡ self.now.fault }
    {
        self.fault
    }

    /// Reads a register. If this fails, the bus stops. Returns 0 if the bus has stopped.
    fn read_register(&mut self, offset: u32) -> u32
        ensures { Asks (Reads offset result) self.old self.new }
    {
        if self.fault.is_some() {
            return 0;
        }
        match self.ask_register(offset) {
            Ok(value) => value,
            Err(fault) => {
                self.fault = Some(fault);
                0
            }
        }
    }

    /// Writes the request for the value of a register, and reads the answer. The bus must not have stopped. The request
    /// doesn't contain the register's value, so the clause `asked` states any value: 0.
    fn ask_register(&mut self, offset: u32) -> Result<u32, BusFault>
        requires { self.old.fault ≡ None }
        ensures same { HasAsked self.old self.new }
        ensures asked { OnOk result (Appends self.old.written self.new.written
            (request_of self.old.registers (Reads offset 0))) }
    {
        self.requests.read(offset)?;
        self.answers.value()
    }

    /// Writes a register. If this fails, the bus stops. Does nothing if the bus has stopped.
    fn write_register(&mut self, offset: u32, value: u32)
        ensures { Asks (Writes offset value) self.old self.new }
    {
        if self.fault.is_some() {
            return;
        }
        if let Err(fault) = self.ask_write(offset, value) {
            self.fault = Some(fault);
        }
    }

    /// Writes the request to write a register, and reads the answer. The bus must not have stopped.
    fn ask_write(&mut self, offset: u32, value: u32) -> Result<(), BusFault>
        requires { self.old.fault ≡ None }
        ensures same { HasAsked self.old self.new }
        ensures asked { OnOk result (Appends self.old.written self.new.written
            (request_of self.old.registers (Writes offset value))) }
    {
        self.requests.write(offset, value)?;
        self.answers.done()
    }

    /// Loads bytes of memory. If this fails, the bus stops. Fills `into` with zeros if the bus has stopped.
    fn load_bytes(&mut self, address: u64, into: &mut [u8])
        ensures asks { Asks (Loads address (length into.old)) self.old self.new }
        ensures length { length into.new ≡ length into.old }
    {
        if self.fault.is_some() {
            into.fill(0);
            return;
        }
        if let Err(fault) = self.ask_bytes(address, into) {
            self.fault = Some(fault);
            into.fill(0);
        }
    }

    /// Writes the request for bytes of memory, and reads the answer. The bus must not have stopped. After an error,
    /// `into` may be changed.
    fn ask_bytes(&mut self, address: u64, into: &mut [u8]) -> Result<(), BusFault>
        requires { self.old.fault ≡ None }
        ensures same { HasAsked self.old self.new }
        ensures asked { OnOk result (Appends self.old.written self.new.written
            (request_of self.old.registers (Loads address (length into.old)))) }
        ensures length { length into.new ≡ length into.old }
    {
        self.requests.load(address, into.len())?;
        self.answers.bytes(into)
    }

    /// Stores bytes in memory. If this fails, the bus stops. Does nothing if the bus has stopped.
    fn store_bytes(&mut self, address: u64, bytes: &[u8])
        ensures { Asks (Stores address bytes.now) self.old self.new }
    {
        if self.fault.is_some() {
            return;
        }
        if let Err(fault) = self.ask_store(address, bytes) {
            self.fault = Some(fault);
        }
    }

    /// Writes the request to store bytes in memory, and reads the answer. The bus must not have stopped.
    fn ask_store(&mut self, address: u64, bytes: &[u8]) -> Result<(), BusFault>
        requires { self.old.fault ≡ None }
        ensures same { HasAsked self.old self.new }
        ensures asked { OnOk result (Appends self.old.written self.new.written
            (request_of self.old.registers (Stores address bytes.now))) }
    {
        self.requests.store(address, bytes)?;
        self.answers.done()
    }
}

impl<R: BufRead, W: Write> Bus for QtestBus<R, W> {
    ghost use Rattle.std.specs.Prelude.{[], ⊤};
    ghost use Rattle.adapter.specs.Registers.{new_adapter};
    ghost use Rattle.mdic_phy.specs.declared.phy.Link.TheVariants.{Never};
    ghost use Rattle.drive.specs.QtestLaws.{asks_here, asks_on};
    ghost use Rattle.drive.specs.QtestState.{AsksAll, is_never, memory_size};

    ghost extent = { memory_size };

    // Contracts know nothing about the other program. So the bus is never honest or lively, `world` is an arbitrary
    // world, and `happened` holds for each past.
    ghost honest = { is_never };

    ghost lively = { is_never };

    ghost world = { λ bus. record { memory = []; adapter = new_adapter [] Never } };

    ghost happened = { λ a b past. ⊤ };

    // The connection to the other program counts as lent. Until the bus stops, only requests for accesses are written
    // to this connection.
    ghost lent_stays = { AsksAll };

    ghost composes = { record {
      stays = λ bus. tt;
      joins = λ a b c first later one two. tt;
      lent_stays_here = asks_here;
      lent_stays_on = asks_on;
    } };

    ghost sized = { λ bus honest. absurd honest };

    fn size(&self) -> u64 {
        self.memory
    }

    fn read(&mut self, offset: u32) -> u32
        ensures keeps { KeepsProperties memory_size AsksAll is_never is_never self.old self.new }
        ensures asks { Asks (Reads offset result) self.old self.new }
    {
        self.read_register(offset)
    }

    fn write(&mut self, offset: u32, value: u32)
        ensures keeps { KeepsProperties memory_size AsksAll is_never is_never self.old self.new }
        ensures asks { Asks (Writes offset value) self.old self.new }
    {
        self.write_register(offset, value);
    }

    fn load(&mut self, address: u64, into: &mut [u8])
        ensures keeps { KeepsProperties memory_size AsksAll is_never is_never self.old self.new }
        ensures length { length into.new ≡ length into.old }
        ensures asks { Asks (Loads address (length into.old)) self.old self.new }
    {
        self.load_bytes(address, into);
    }

    fn store(&mut self, address: u64, bytes: &[u8])
        ensures keeps { KeepsProperties memory_size AsksAll is_never is_never self.old self.new }
        ensures asks { Asks (Stores address bytes.now) self.old self.new }
    {
        self.store_bytes(address, bytes);
    }
}
