// The steps of an end that is asked. Its public functions call these, within the bounds that they ask.
ghost use Rattle.std.specs.Prelude.{◌≡◌, ◌&&◌, ◌*◌, ◌<◌, length};
ghost use Rattle.bit_maps.specs.BitMap.{bit};
ghost use Rattle.probe.specs.Answers.{kind_of, asked_bit};

use bit_maps::bits::has;

pub fn kind_of(kind: super::Kind) -> u8
    ensures { result ≡ kind_of kind }
{
    match kind {
        super::Kind::Offer => 1,
        super::Kind::Refusal => 2,
    }
}

// Whether the frame may be sent now.
pub fn is_sendable(kind: super::Kind, standing: &[u64], refused: &[u64], link: usize) -> bool
    requires { (link < 64 * length standing.now) × (link < 64 * length refused.now) }
    ensures { result ≡ asked_bit kind standing.now refused.now link }
{
    match kind {
        super::Kind::Offer => has(standing, link),
        super::Kind::Refusal => has(refused, link),
    }
}

// Whether the link is in both maps.
pub fn in_both(one: &[u64], two: &[u64], link: usize) -> bool
    requires { (link < 64 * length one.now) × (link < 64 * length two.now) }
    ensures { result ≡ (bit one.now link && bit two.now link) }
{
    if !has(one, link) {
        return false;
    }
    has(two, link)
}
