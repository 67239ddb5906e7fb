ghost use Rattle.std.specs.Prelude.{◌≡◌, ◌≤◌};
ghost use Rattle.sink_history.specs.History.{horizon_in};
ghost use Rattle.scenario_history.specs.Source.{is_ahead_in};

use big_info::Limits;

/// The version of a scenario.
#[derive(Clone, Copy)]
pub(crate) enum Version {
    One,
    Two,
}

/// Where a scenario stands: before its first step, under way in a version, or behind `end`.
#[derive(Clone, Copy)]
pub(crate) enum Stage {
    Unbegun,
    Running(Version),
    Over(Version),
}

impl Version {
    ghost use Rattle.replay_steps.specs.Versions.{number_of};

    /// The version of this number.
    pub(crate) fn of(number: u8) -> Version
        requires least { 1 ≤ number }
        requires greatest { number ≤ 2 }
        ensures { number_of result ≡ number }
    {
        if number == 2 {
            Version::Two
        } else {
            Version::One
        }
    }

    /// Its number.
    pub(crate) fn number(self) -> u8
        ensures { result ≡ number_of self }
    {
        match self {
            Version::One => 1,
            Version::Two => 2,
        }
    }

    /// The greatest horizon of its groups, and whether times may be ahead.
    pub(crate) fn limits(self) -> Limits
        ensures horizon { result.horizon ≡ horizon_in (number_of self) }
        ensures ahead { result.ahead ≡ is_ahead_in (number_of self) }
        ensures least { result.horizon ≤ 31 }
    {
        match self {
            Version::One => Limits::VERSION_1,
            Version::Two => Limits::VERSION_2,
        }
    }
}

impl Stage {
    ghost use Rattle.scenario_history.specs.Steps.{version_at};
    ghost use Rattle.replay_steps.specs.Versions.{number_of, stage_in};

    /// The version of a scenario here; 1 before its first step.
    pub(crate) fn version(self) -> Version
        ensures { number_of result ≡ version_at (stage_in self) }
    {
        match self {
            Stage::Unbegun => Version::One,
            Stage::Running(version) => version,
            Stage::Over(version) => version,
        }
    }
}
