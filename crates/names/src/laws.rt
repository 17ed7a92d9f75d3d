//! What reading keeps to, and worked cases.
ghost use Rattle.names.specs.Tables.{OwnNumberCounts};
ghost use Rattle.names.specs.Worked.{Worked};

/// Where no binary table exists, a name that may stand reads the element with the source place's
/// own number.
pub fn own_number_counts()
    ensures { OwnNumberCounts }
{}

/// Each worked case holds of the definitions that the contracts are written in.
pub fn worked_expressions_stand()
    ensures { Worked }
{}
