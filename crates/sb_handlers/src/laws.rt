//! What follows from the definitions alone. The functions do nothing: each clause is a law.
ghost use Rattle.std.specs.Prelude.{◌≡◌, ◌+◌, ◌<◌, ◌≤◌, ◌++◌, ◌∷◌, ℕ, List, [], map, true, None, is_some};
ghost use Rattle.sb_types.specs.Runs.{Stands};
ghost use Rattle.sb_handlers.specs.declared.reported_versions.TheConstants.{LATE_MOST};
ghost use Rattle.sb_handlers.specs.declared.reported_versions.Reading.{Reading};
ghost use Rattle.sb_handlers.specs.declared.reported_versions.Reporter.{Reporter};
ghost use Rattle.sb_handlers.specs.ReportedVersions.{Made, AreOfOneLogEach, Reads, takes, takes_all, fall_in, AreInOrder, AreReadBy};

/// Say each name has one log, whose version never falls. Say also that no connection comes later than `LATE_MOST` after its
/// digest was made. Then no digest is a fall, however the sessions overlap, and also if memory is missing now and then.
pub fn nothing_is_reported_of_one_log()
    ensures { (digests : List Made) (all : List Reporter) (falls : ℕ) → AreOfOneLogEach digests → Reads (map (λ d. d.reading) digests) [] 0 all falls →
        (falls ≡ 0) × ((t : Reporter) → Stands all t → t.fall ≡ None) }
{}

/// Say a node reported a version by a moment, and reported anything more than `LATE_MOST` after that. Say a connection came more
/// than `LATE_MOST` later, and after all that was read of that name. Then a digest there with a lower version is a fall.
pub fn reported_versions_are_found()
    ensures { (t : Reporter) (version moment : ℕ) (between after : List Reading) (again r : Reading) →
        version ≤ t.most → t.newer.at ≤ moment → AreInOrder moment (between ++ again ∷ after) →
        moment + LATE_MOST < again.at → again.at + LATE_MOST < r.since → AreReadBy r.since after → r.version < version →
        is_some (fall_in (takes_all after (takes again (takes_all between t))) r) ≡ true }
{}
