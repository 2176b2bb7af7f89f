// The laws of plan files and paths. These functions do nothing: their contracts are the laws.
ghost use Rattle.std.specs.Prelude.{◌≡◌};
ghost use Rattle.files.specs.declared.plan.TheConstants.{MOST_SHUTTLES, MOST_STOPS, MOST_STOPS_IN_ALL, MOST_TABLES};
ghost use Rattle.files.specs.Bytes.{ReadsExactly};
ghost use Rattle.files.specs.Fields.{RefusesExactly};
ghost use Rattle.files.specs.Laws.{PathsStandInOrder, PathsRise};
ghost use Rattle.files.specs.Worked.{WorkedReadings};

/// What the reading of a file means, taken and refused.
pub(crate) fn readings_stand(bytes: &[u8])
    ensures exact { ReadsExactly bytes.now }
    ensures refused { RefusesExactly bytes.now }
{}

/// The reading of a small file, whole and torn.
pub fn worked_readings_stand()
    ensures { WorkedReadings }
{}

/// How the definitions read a list of paths, and what a path that keeps the rules is.
pub fn paths_stand()
    ensures order { PathsStandInOrder }
    ensures rise { PathsRise }
{}

/// The limits of plan files in numbers: definitions and code name them, and here they stand.
pub fn limits_stand()
    ensures shuttles { MOST_SHUTTLES ≡ 32 }
    ensures stops { MOST_STOPS ≡ 64 }
    ensures stops_in_all { MOST_STOPS_IN_ALL ≡ 512 }
    ensures tables { MOST_TABLES ≡ 64 }
{}
