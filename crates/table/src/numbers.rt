// Entries of slices as numbers.
ghost use Rattle.std.specs.Prelude.{◌≡◌};

pub fn wide(x: u16) -> usize
    ensures { result ≡ x }
{
    x as usize
}
