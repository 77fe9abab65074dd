//! The settings of a search, of which some may be left out.

ghost use Rattle.std.specs.Prelude.{◌≡◌};
ghost use Rattle.ih_improve.specs.Given.{usual_hot};

use crate::defaults::Defaults;
use crate::settings::Settings;
use ih_plan::{MAX_HARD, MAX_HEAT, MAX_WORKERS};
use ih_tables::Instance;

/// Settings that are given.
#[derive(Clone, Copy, Debug)]
pub struct Given {
    /// Where the random words of the workers begin.
    pub seed: u64,
    /// How many workers search side by side. Without it the machine decides.
    pub workers: Option<u32>,
    /// The heat of the first attempt. Without it the weights decide.
    pub hot: Option<u32>,
    /// The heat of the last attempt. Without it the weights decide.
    pub cold: Option<u32>,
    /// The weight of a broken hard rule in a score. Without it the weights decide.
    pub hard: Option<u32>,
    /// The first day whose choices may change.
    pub freeze: u32,
    /// How many points each change against the start weighs. Without it the weights decide.
    pub keep: Option<u32>,
}

// The heat of the first attempt by the weights: a search that weighs changes stays cold, and so near the start.
fn usual_hot(keep: u32, usual: &Defaults) -> u32
    ensures { result ≡ usual_hot keep usual.now }
{
    if keep == 0 { usual.hot } else { usual.cold }
}

impl Given {
    ghost use Rattle.std.specs.Prelude.{◌≡◌, ◌≤◌};
    ghost use Rattle.ih_improve.specs.{Given.AreSettingsOf, Given.widest, Settings.IsLawful};

    /// These settings, with the most workers, the widest heats, the greatest weight of a broken rule and none of a change
    /// where none are given.
    pub fn widest(&self) -> Settings
        ensures { result ≡ widest self.now }
    {
        Settings {
            seed: self.seed,
            workers: self.workers.unwrap_or(MAX_WORKERS),
            hot: self.hot.unwrap_or(MAX_HEAT),
            cold: self.cold.unwrap_or(0),
            hard: self.hard.unwrap_or(MAX_HARD),
            freeze: self.freeze,
            keep: self.keep.unwrap_or(0),
        }
    }

    /// The settings of a search. What isn't given comes from the weights of the instance. If one heat is given, the other
    /// lies on the right side of it. A search that weighs changes stays cold where no heat is given. Where no number of
    /// workers is given, there are as many as processors.
    pub fn settings(&self, inst: &Instance, processors: u32) -> Settings
        requires lawful { IsLawful (widest self.now) }
        requires some { 1 ≤ processors }
        requires few { processors ≤ MAX_WORKERS }
        ensures { AreSettingsOf inst.now.draft self.now processors result }
    {
        let usual = Defaults::by_weights(inst);
        let keep = self.keep.unwrap_or(usual.keep);
        let warm = usual_hot(keep, &usual);
        let hot = self
            .hot
            .unwrap_or(warm.max(self.cold.unwrap_or(usual.cold)));
        let cold = self
            .cold
            .unwrap_or(usual.cold.min(self.hot.unwrap_or(usual.hot)));
        Settings {
            seed: self.seed,
            workers: self.workers.unwrap_or(processors),
            hot,
            cold,
            hard: self.hard.unwrap_or(usual.hard),
            freeze: self.freeze,
            keep,
        }
    }
}
