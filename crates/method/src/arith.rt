// A number at the width of hours and amounts, where it is known to fit.
ghost use Rattle.std.specs.Prelude.{◌≡◌, ◌<◌};

pub(crate) fn narrow(x: u32) -> u16
    requires { x < 65536 }
    ensures { result ≡ x }
{
    x as u16
}
