//! Laws: what follows from the definitions alone. Their functions do nothing.
ghost use Rattle.std.specs.Prelude.{◌≡◌, List, filter};
ghost use Rattle.sb_codec.specs.Records.{Row};
ghost use Rattle.sb_listing.specs.Changes.{AreAscending, changes_between, set_rows, gone_rows, is_new, is_gone};

/// Law about two listings that ascend. A row of the later one is reported as set exactly if the earlier one has no such
/// row, with its version and value. A row of the earlier one is reported as gone exactly if the later one has no row of
/// its owner and key. Each is reported once, in its order.
pub fn changes_tell_all()
    ensures set { (earlier later : List Row) → AreAscending earlier → AreAscending later →
        set_rows (changes_between earlier later) ≡ filter (is_new earlier) later }
    ensures gone { (earlier later : List Row) → AreAscending earlier → AreAscending later →
        gone_rows (changes_between earlier later) ≡ filter (is_gone later) earlier }
{}
