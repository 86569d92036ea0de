//! The mathematics of demand: how much work of a placed job can fall due on an engine within n ticks.
#![tactic(auto)]

ghost use Rattle.std.specs.Prelude.{◌≡◌};
ghost use Rattle.theory.specs.Theorems.{AllGrow, DemandGrows, DemandIsGreatest, DemandIsMet, DemandIsQuick, DemandSettles, GreatestIsOne, SettlesAll, TwiceSettlesAll};

/// Up to how many ticks demand and supply have to be compared: twice a belt cycle settles every number of ticks.
pub fn farthest() -> u32
    ensures value { result ≡ 28800 }
    ensures settles { SettlesAll 14400 result }
    ensures twice { TwiceSettlesAll }
    ensures greatest { DemandIsGreatest }
    ensures one { GreatestIsOne }
    ensures met { DemandIsMet }
    ensures quick { DemandIsQuick }
    ensures grows { DemandGrows }
    ensures together { AllGrow }
    ensures repeats { DemandSettles }
{
    28_800
}
