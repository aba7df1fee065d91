// What holds of members' cookies.

ghost use Rattle.http_cookies.specs.Laws.{ValuesAreApart};

/// The law that what is printed of a member is read back as that member and no other: no two
/// members have the same value.
pub fn values_are_apart()
    ensures { ValuesAreApart }
{}
