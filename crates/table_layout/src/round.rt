// Going round by number: tasks are dispatched in this order.
ghost use Rattle.std.specs.Prelude.{◌≡◌, ◌<◌};
ghost use Rattle.machine.specs.Round.{following};

// The number after i of those below n: past n - 1 comes 0.
pub fn following(n: u32, i: u32) -> u32
    requires { i < n }
    ensures { (result ≡ following n i) × (result < n) }
{
    if i + 1 < n {
        return i + 1;
    }
    0
}
