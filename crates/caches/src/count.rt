ghost use Rattle.std.specs.Prelude.{◌≡◌, ◌+◌, ◌-◌, ◌^◌, ◌<◌};

// One more is counted.
pub fn count_up(count: &mut u32)
    ensures { count.old < 2 ^ 32 - 1 → count.new ≡ count.old + 1 }
{
    *count = count.saturating_add(1);
}
