//! The registers of the receive filter ("13.5.1 Multicast Table Array" to "13.5.4 VLAN Filter Table Array").

ghost use Rattle.std.specs.Prelude.{◌≡◌, ◌<◌, ◌^◌, All, replicate};
ghost use Rattle.rx_filter.specs.Addresses.{IsAddress};
ghost use Rattle.rx_filter.specs.NumberTables.{HasNumbers, numbers_of_groups, table_numbers};
ghost use Rattle.rx_filter.specs.Writing.{with_number};
ghost use Rattle.adapter.specs.Keeping.{Keeps};
ghost use Rattle.bring_up.specs.ConfiguredAdapters.{AreWords};
ghost use Rattle.bring_up.specs.FilterTables.{address_writes, entry_writes, table_writes};
ghost use Rattle.bring_up.specs.SettingSteps.{SetsOnly};

use adapter::Bus;
use adapter::offsets::{ADDRESS_PAIR_BYTES, MTA, RAL, REGISTER_BYTES, VFTA};
use registers::GroupOffset;
use rx_filter::{AddressWords, RECEIVE_ADDRESSES, TABLE_WORDS, TableBit, hash_of};

/// Returns the group table with the bits of these groups. Bits 47:36 of a group's address select the group's bit
/// (RCTL.MO is 00). All other bits are 0.
pub fn group_table(groups: &[[u8; 6]]) -> [u32; TABLE_WORDS]
    ensures { HasNumbers result (numbers_of_groups groups.now) }
{
    let mut table = empty_table();
    for group in groups {
        add_number(&mut table, hash_of(GroupOffset::Bits47To36, group));
    }
    table
}

/// Returns the VLAN table with the bits of these VLANs, whose numbers must be below 4,096. All other bits are 0.
pub fn vlan_table(vlans: &[u16]) -> [u32; TABLE_WORDS]
    requires { All (λ vlan. vlan < table_numbers) vlans.now }
    ensures { HasNumbers result vlans.now }
{
    let mut table = empty_table();
    for vlan in vlans {
        add_number(&mut table, *vlan);
    }
    table
}

/// Returns a table with no bit set.
fn empty_table() -> [u32; TABLE_WORDS]
    ensures { result ≡ replicate TABLE_WORDS 0 }
{
    [0; TABLE_WORDS]
}

/// Sets the bit of a number in a table. The number must be below 4,096.
fn add_number(table: &mut [u32; TABLE_WORDS], number: u16)
    requires { number < table_numbers }
    ensures { table.new ≡ with_number table.old number }
{
    let bit = TableBit::of(number);
    table[usize::from(bit.word)] |= bit.mask;
}

/// Writes the group table, MTA. `words`: each word has 32 bits.
pub fn write_groups<B: Bus>(bus: &mut B, table: &[u32; TABLE_WORDS])
    ensures keeps { Keeps B.Bus bus.old bus.new }
    ensures sets { B.honest bus.old → SetsOnly B.Bus (table_writes MTA table.now) bus.old bus.new }
    ensures words { AreWords table.now }
{
    write_table(bus, MTA, table);
}

/// Writes the VLAN table, VFTA. `words`: each word has 32 bits.
pub fn write_vlans<B: Bus>(bus: &mut B, table: &[u32; TABLE_WORDS])
    ensures keeps { Keeps B.Bus bus.old bus.new }
    ensures sets { B.honest bus.old → SetsOnly B.Bus (table_writes VFTA table.now) bus.old bus.new }
    ensures words { AreWords table.now }
{
    write_table(bus, VFTA, table);
}

/// Writes the receive addresses, RAL and RAH: this address and AV into the first entry, and 0 into the other 15.
/// `address`: the address has six bytes.
pub fn write_addresses<B: Bus>(bus: &mut B, address: &[u8; 6])
    ensures keeps { Keeps B.Bus bus.old bus.new }
    ensures sets { B.honest bus.old → SetsOnly B.Bus (address_writes address.now) bus.old bus.new }
    ensures address { IsAddress address.now }
{
    write_address(bus, 0, AddressWords::of(address));
    for entry in 1..RECEIVE_ADDRESSES as u32 {
        write_address(bus, entry, AddressWords { low: 0, high: 0 });
    }
}

/// Writes RAL and RAH of one entry, from 0 to 15, of the receive addresses.
fn write_address<B: Bus>(bus: &mut B, entry: u32, words: AddressWords)
    requires { entry < RECEIVE_ADDRESSES }
    ensures keeps { Keeps B.Bus bus.old bus.new }
    ensures sets { B.honest bus.old → SetsOnly B.Bus (entry_writes entry words.low words.high) bus.old bus.new }
{
    let low = RAL + ADDRESS_PAIR_BYTES * entry;
    bus.write(low, words.low);
    bus.write(low + REGISTER_BYTES, words.high);
}

/// Writes a table of 128 words to consecutive registers, from the offset `first` on. `first` must be below 65,536, so
/// that no offset overflows. `words`: each word has 32 bits.
fn write_table<B: Bus>(bus: &mut B, first: u32, words: &[u32; TABLE_WORDS])
    requires { first < 2 ^ 16 }
    ensures keeps { Keeps B.Bus bus.old bus.new }
    ensures sets { B.honest bus.old → SetsOnly B.Bus (table_writes first words.now) bus.old bus.new }
    ensures words { AreWords words.now }
{
    let mut offset = first;
    for word in words {
        bus.write(offset, *word);
        offset += REGISTER_BYTES;
    }
}
