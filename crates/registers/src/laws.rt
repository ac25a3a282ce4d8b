// The law of sets of bits.

ghost use Rattle.registers.specs.Bits.{UnionByPlaces, IntersectionByPlaces, DifferenceByPlaces, MeetByPlaces};
ghost use Rattle.registers.specs.Bits.{SubsetByPlaces, EmptyByPlaces, SameByPlaces};

/// The law of sets of bits. In contracts, a register is also a set: the places of its bits that are 1. Union,
/// intersection, difference, `Meet` (a common place) and `IsSubset` are defined by arithmetic on registers.
/// - `union`, `intersection`, `difference`, `meet`, `subset`: the same operations, stated place by place. Difference
///   and `Meet` are stated for registers of 32 bits.
/// - `empty`: the register 0 is the empty set.
/// - `same`: registers with the same places are equal.
///
/// The function does nothing: its contract is the law.
pub fn sets_of_places()
    ensures union { UnionByPlaces }
    ensures intersection { IntersectionByPlaces }
    ensures difference { DifferenceByPlaces }
    ensures meet { MeetByPlaces }
    ensures subset { SubsetByPlaces }
    ensures empty { EmptyByPlaces }
    ensures same { SameByPlaces }
{}
