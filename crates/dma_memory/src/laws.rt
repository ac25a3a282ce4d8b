ghost use Rattle.dma_memory.specs.Layout.{Counts, PlacesAreApart, PlacesLieBelowSize, BeginsAtNextMultiple};
ghost use Rattle.dma_memory.specs.Owners.{CountsArePlaces, OwnersAddUp, MovesKeepOneOwner, OwnedIsNowhereElse};
ghost use Rattle.dma_memory.specs.Owners.{OneOwnerCounts, NoSecondOwnerBounds, MissingLeavesRoom};
ghost use Rattle.dma_memory.specs.Stores.{LieWhereEachLies, StoreKeepsSize, StoredIsLoaded, OthersStay};
ghost use Rattle.dma_memory.specs.Stores.{AdjacentStoresAreOne, StoreOfNoneStays};

/// Laws of memory, for all memories, addresses and bytes. Bytes are in memory exactly if the address of each is below
/// the memory's size. A store inside memory doesn't change the size or other bytes, and a load of its range returns the
/// stored bytes. Inside memory, two stores to adjacent ranges have the same result as one store of the joined bytes. A
/// store of no bytes changes nothing, whatever its address.
///
/// The function does nothing: its contract is the laws.
pub fn stores_are_loaded()
    ensures lies { LieWhereEachLies }
    ensures size { StoreKeepsSize }
    ensures stored { StoredIsLoaded }
    ensures others { OthersStay }
    ensures adjacent { AdjacentStoresAreOne }
    ensures none { StoreOfNoneStays }
{}

/// Laws of layouts. No two of a layout's rings and buffers overlap. Each ends at or before the end of the memory that
/// the layout needs. The buffers begin at the first multiple of 2,048 at or after the end of the rings.
///
/// The function does nothing: its contract is the laws.
pub fn places_are_apart()
    ensures apart { PlacesAreApart }
    ensures below_size { PlacesLieBelowSize }
    ensures next_multiple { (counts : Counts) → BeginsAtNextMultiple counts }
{}

/// Laws of owners. An owner's numbers are a list, and several owners' numbers are their lists, joined. A number has one
/// owner if it occurs once in the joined list.
///
/// - `places`: each number below n occurs once by its count (`HasOneOwner`) exactly if it is at one index
///   (`EachOccursOnce`).
/// - `sums`: the counts of a number in two lists add up to its count in the joined list.
///
/// Suppose that each number below n has one owner, and no other number has an owner:
///
/// - `moves`: this remains true after a number moves to another owner.
/// - `elsewhere`: each owner's numbers are below n, and no other owner has them.
/// - `length`: the joined list has n numbers.
///
/// Suppose that all numbers of a list are below n, and none occurs twice in the list:
///
/// - `most`: the list has at most n numbers.
/// - `room`: the list has fewer than n numbers if a number below n is missing.
///
/// The function does nothing: its contract is the laws.
pub fn numbers_have_one_owner()
    ensures places { CountsArePlaces }
    ensures sums { OwnersAddUp }
    ensures moves { MovesKeepOneOwner }
    ensures elsewhere { OwnedIsNowhereElse }
    ensures length { OneOwnerCounts }
    ensures most { NoSecondOwnerBounds }
    ensures room { MissingLeavesRoom }
{}
