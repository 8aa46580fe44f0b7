//! Why a derivation isn't valid.
use brisk_basic::RuleFault;
use brisk_derivation::SideFault;

/// The test of a rule that fails first.
#[derive(Clone, Copy, Debug, PartialEq, Eq)]
pub enum Why {
    Rule(RuleFault),
    Side(SideFault),
}
