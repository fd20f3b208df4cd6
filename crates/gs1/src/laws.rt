//! Laws: facts about element strings. Each function has no body; its contract is the fact.
ghost use Rattle.gs1.specs.Keys.{HaveRightDigits};
ghost use Rattle.gs1.specs.Pieces.{ValuesAreJoined};
ghost use Rattle.gs1.specs.Reader.{HaveOneList, HaveStringsApart};
ghost use Rattle.gs1.specs.Strings.{HaveOneOutcome};
ghost use Rattle.gs1.specs.TableLaws.{RowsAreInOrder, RowsHaveSizes, RowsNameOthers};
ghost use Rattle.gs1.specs.TableLaws.{KeysAreOfRows, QualifiersAreNoKeys};

/// No bytes are read as two lists of elements.
pub fn have_one_list()
    ensures { HaveOneList }
{}

/// No two lists of elements without faults have the same element string.
pub fn have_strings_apart()
    ensures { HaveStringsApart }
{}

/// No element string is both taken and refused, and none is refused by two errors.
pub fn have_one_outcome()
    ensures { HaveOneOutcome }
{}

/// The check digit that a refusal names is right, and no other is.
pub fn have_right_digits()
    ensures { HaveRightDigits }
{}

/// The table allows exactly the values that are joined pieces, one of each component.
pub fn are_joined()
    ensures { ValuesAreJoined }
{}

/// The rows of the table are in order: no identifier begins with another one.
pub fn are_in_order()
    ensures { RowsAreInOrder }
{}

/// The lengths of the identifiers and values of the table are those that a reader of element
/// strings expects, and it says after which FNC1 follows.
pub fn have_sizes()
    ensures { RowsHaveSizes }
{}

/// Each identifier of the table needs and excludes others, and such as there are.
pub fn name_others()
    ensures { RowsNameOthers }
{}

/// The primary keys of links are those of the rows that say so.
pub fn are_keys_of_rows()
    ensures { KeysAreOfRows }
{}

/// No qualifier of a key is a key.
pub fn qualify_no_keys()
    ensures { QualifiersAreNoKeys }
{}
