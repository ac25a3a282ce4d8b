// The sets that the filter's registers define.

ghost use Rattle.rx_filter.specs.Writing.{NoAddressAtFirst, AddressIsAdded, NoNumberAtFirst, NumberIsAdded};

/// The law of the sets that the filter's registers define: the receive addresses, and the numbers in MTA and VFTA.
/// - `no_address`, `no_number`: registers that are 0 contain no address and no number.
/// - `address`: the two words of an address, written to an entry that isn't valid, add exactly that address.
/// - `number`: setting a bit in MTA or VFTA adds exactly the number of this bit.
///
/// The function does nothing: its contract is the law.
pub fn sets_of_registers()
    ensures no_address { NoAddressAtFirst }
    ensures address { AddressIsAdded }
    ensures no_number { NoNumberAtFirst }
    ensures number { NumberIsAdded }
{}
