//! A row of drawn numbers.
ghost use Rattle.std.specs.Prelude.{◌<◌};

/// The next of a row of numbers, below a bound. (A linear congruential generator with the constants of MMIX.)
pub fn drawn(state: &mut u64, bound: u32) -> u32
    requires { 0 < bound }
    ensures { result < bound }
{
    *state = state
        .wrapping_mul(6_364_136_223_846_793_005)
        .wrapping_add(1_442_695_040_888_963_407);
    ((*state >> 32) % u64::from(bound)) as u32
}
