ghost use Rattle.std.specs.Prelude.{◌≡◌, ◌<◌};
ghost use Rattle.workload.specs.Generator.{drawn_in, next_state};

/// The state after one more draw.
pub fn next_state(x: u32) -> u32
    ensures { result ≡ next_state x }
{
    ((1_664_525 * u64::from(x) + 1_013_904_223) % (1 << 32)) as u32
}

/// What a draw of four numbers gives, whose state is this.
pub fn drawn_in(x: u32) -> u8
    ensures drawn { result ≡ drawn_in x }
    ensures small { result < 4 }
{
    ((x / 65_536) % 4) as u8
}
