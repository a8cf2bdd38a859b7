//! How refiners are shared out.
ghost use Rattle.std.specs.Prelude.{◌≡◌, ◌≤◌, ◌+◌, ◌-◌, ◌/◌, nat_lt, if◌then◌else◌};
ghost use Rattle.program_shelf.specs.Shares.{shares as shares_spec};

// How many of the refiners go to a program, counted from 0.
fn share(refiners: u32, programs: u32, program: u32) -> u32
    requires refiners { refiners ≤ 4 }
    requires few { programs ≤ 4 }
    ensures { result ≡ (if nat_lt program programs then (refiners + (programs - 1 - program)) / programs else 0) }
{
    if program < programs {
        (refiners + (programs - 1 - program)) / programs
    } else {
        0
    }
}

/// The number of each program's refiners, of 0 to 4 refiners and 1 to 4 programs: they are shared out in turn, the first to
/// the first program. It is 0 after the last program.
pub fn shares(refiners: u32, programs: u32) -> [u32; 4]
    requires refiners { refiners ≤ 4 }
    requires some { 1 ≤ programs }
    requires few { programs ≤ 4 }
    ensures shares { result ≡ shares_spec refiners programs }
{
    [
        share(refiners, programs, 0),
        share(refiners, programs, 1),
        share(refiners, programs, 2),
        share(refiners, programs, 3),
    ]
}
