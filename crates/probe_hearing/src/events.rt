// A heard event as one number: the link's place, and whether it is an offer or a refusal.
ghost use Rattle.std.specs.Prelude.{◌≡◌};
ghost use Rattle.probe_rules.specs.Within.{EventWithin};
ghost use Rattle.probe_hearing.specs.PackedEvents.{packed_event, unpacked_event};

use probe_rules::Event;

pub fn packed_event(event: Event) -> u16
    requires { EventWithin 2048 event }
    ensures { result ≡ packed_event event }
{
    match event {
        Event::Opening => 0,
        Event::Offer(i) => (2 * i) as u16,
        Event::Refusal(i) => (2 * i + 1) as u16,
    }
}

pub fn unpacked_event(packed: u16) -> Event
    ensures { result ≡ unpacked_event packed }
{
    let link = (packed / 2) as usize;
    if packed % 2 == 0 {
        return Event::Offer(link);
    }
    Event::Refusal(link)
}
