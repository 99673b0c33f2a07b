// The numbers of an entry, as 01 gives them.
ghost use Rattle.std.specs.Prelude.{◌≡◌};
ghost use Rattle.wake_log.specs.Entry.{code_of, link_of, displaced_of};

use super::What;

// 01's code of what befell a probe.
pub fn code(what: What) -> u8
    ensures { result ≡ code_of what }
{
    match what {
        What::Opened(_) => 0,
        What::Enough => 1,
        What::Taken(_) => 2,
        What::TakenDisplacing {
            link: _,
            displaced: _,
        } => 3,
        What::Refused(_) => 4,
        What::RefusalLearnt(_) => 5,
        What::NoChange(_) => 6,
        What::AllTried => 7,
        What::Restarted => 8,
    }
}

// The link's place, or ffff.
pub fn link_place(what: What) -> u16
    ensures { result ≡ link_of what }
{
    match what {
        What::Opened(link) => link,
        What::Enough => 65535,
        What::Taken(link) => link,
        What::TakenDisplacing { link, displaced: _ } => link,
        What::Refused(link) => link,
        What::RefusalLearnt(link) => link,
        What::NoChange(link) => link,
        What::AllTried => 65535,
        What::Restarted => 65535,
    }
}

// The displaced probe, or ffff.
pub fn displaced_probe(what: What) -> u16
    ensures { result ≡ displaced_of what }
{
    match what {
        What::Opened(_) => 65535,
        What::Enough => 65535,
        What::Taken(_) => 65535,
        What::TakenDisplacing { link: _, displaced } => displaced,
        What::Refused(_) => 65535,
        What::RefusalLearnt(_) => 65535,
        What::NoChange(_) => 65535,
        What::AllTried => 65535,
        What::Restarted => 65535,
    }
}
