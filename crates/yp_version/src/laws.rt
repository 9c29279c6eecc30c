//! What the order of rows does to them. Each law is the contract of a function that does nothing.

ghost use Rattle.yp_version.specs.inside.Laws.{ListedIsRising, ListedIsPermutation, RisingIsListed, RisingStays};
ghost use Rattle.yp_version.specs.inside.Laws.{ListedKeepsValues, RisingIsDistinct};

/// Listed rows rise.
pub fn listed_is_rising()
    ensures { ListedIsRising }
{}

/// Rows with distinct keys are listed as they are, in another order.
pub fn listed_is_permutation()
    ensures { ListedIsPermutation }
{}

/// Rising rows are the list of each order of them.
pub fn rising_is_listed()
    ensures { RisingIsListed }
{}

/// Rising rows are listed as they stand.
pub fn rising_stays()
    ensures { RisingStays }
{}

/// A key has the same value in rows and in their list.
pub fn listed_keeps_values()
    ensures { ListedKeepsValues }
{}

/// Rising rows have distinct keys.
pub fn rising_is_distinct()
    ensures { RisingIsDistinct }
{}
