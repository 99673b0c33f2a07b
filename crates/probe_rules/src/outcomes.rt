// The entry of what befell an end.
ghost use Rattle.std.specs.Prelude.{◌≡◌, [], length};
ghost use Rattle.table.specs.Table.{of_slices, other};
ghost use Rattle.probe_rules.specs.Rules.{what_of, entry_of};
ghost use Rattle.probe_rules.specs.Within.{Within};

use super::Outcome;
use table_links::ends::other;

// What the log says of it.
fn what_of(outcome: Outcome, lows: &[u16], highs: &[u16], probe: u16) -> wake_log::What
    requires { (Within 65536 outcome) × (Within (length lows.now) outcome) × (Within (length highs.now) outcome) }
    ensures { result ≡ what_of (of_slices 0 0 0 [] lows.now highs.now []) probe outcome }
{
    match outcome {
        Outcome::Opened(i) => wake_log::What::Opened(i as u16),
        Outcome::Enough => wake_log::What::Enough,
        Outcome::Taken(i) => wake_log::What::Taken(i as u16),
        Outcome::TakenDisplacing { link, displaced } => wake_log::What::TakenDisplacing {
            link: link as u16,
            displaced: other(lows, highs, probe, displaced),
        },
        Outcome::Refused(i) => wake_log::What::Refused(i as u16),
        Outcome::RefusalLearnt(i) => wake_log::What::RefusalLearnt(i as u16),
        Outcome::NoChange(i) => wake_log::What::NoChange(i as u16),
        Outcome::AllTried => wake_log::What::AllTried,
    }
}

pub fn entry_of(outcome: Outcome, lows: &[u16], highs: &[u16], probe: u16) -> wake_log::Entry
    requires { (Within 65536 outcome) × (Within (length lows.now) outcome) × (Within (length highs.now) outcome) }
    ensures { result ≡ entry_of (of_slices 0 0 0 [] lows.now highs.now []) probe outcome }
{
    let what = what_of(outcome, lows, highs, probe);
    wake_log::Entry { probe, what }
}
