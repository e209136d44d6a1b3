// What scans that follow one another give: each law proved by the function of its name.

ghost use Rattle.maps.specs.Scans.{PagesGiveAll, PagesJoin};

/// Two pages of a map, the second from where the first ended, are one page.
pub fn pages_join()
    ensures { PagesJoin }
{}

/// Pages of a map that didn't change meanwhile, from its first place to its last, together give each of its keys once, with its value.
pub fn pages_give_all()
    ensures { PagesGiveAll }
{}
