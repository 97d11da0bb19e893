//! How large a run may be.

ghost use Rattle.std.specs.Prelude.{◌≡◌, ◌≤◌};
ghost use Rattle.sim_run_options.specs.Limits.{bytes_of, cycles_of, design_of, usual_cycles_of};

use sim_flat_design::Limits as DesignLimits;

/// How large a run may be: how long its text, how many nets, processes, drivers and instances its
/// design has, and how many simulation cycles it takes.
#[derive(Clone, Copy, Debug)]
pub enum Limits {
    /// Those of a run that asks for no others.
    Standard,
    /// Those of `--large`.
    Large,
}

impl Limits {
    /// The most bytes of a text.
    pub fn bytes(self) -> usize
        ensures value { result ≡ bytes_of self }
        ensures bounded { result ≤ 268435456 }
    {
        match self {
            Limits::Standard => 1_048_576,
            Limits::Large => 268_435_456,
        }
    }

    /// The limits of a design.
    pub fn design(self) -> DesignLimits
        ensures { result ≡ design_of self }
    {
        match self {
            Limits::Standard => DesignLimits::standard(),
            Limits::Large => DesignLimits::large(),
        }
    }

    /// The most simulation cycles after the initialization.
    pub fn cycles(self) -> u32
        ensures { result ≡ cycles_of self }
    {
        match self {
            Limits::Standard => 1_000_000,
            Limits::Large => u32::MAX,
        }
    }

    /// The limit of simulation cycles of a command line without `--limit`.
    pub fn usual_cycles(self) -> u32
        ensures { result ≡ usual_cycles_of self }
    {
        match self {
            Limits::Standard => 10_000,
            Limits::Large => u32::MAX,
        }
    }
}
