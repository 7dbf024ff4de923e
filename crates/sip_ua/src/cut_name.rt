//! How names are cut among shards, as an option says.

ghost use Rattle.std.specs.Prelude.{◌≡◌};

use clap::ArgMatches;
use sip_message::{Cut, First, Spread};

/// A way to cut names among shards.
#[derive(Clone, Copy)]
pub(crate) enum CutName {
    Spread,
    First,
}

impl CutName {
    /// The cut that is asked for.
    pub(crate) fn asked(options: &ArgMatches) -> CutName {
        match options.get_str("cut") {
            Some("first") => CutName::First,
            _ => CutName::Spread,
        }
    }
}

impl Cut for CutName {
    ghost use Rattle.sip_ua.specs.CutName.{shard_by, within_by};

    ghost shard_of = { shard_by };

    fn shard(&self, name: &[u8], shards: usize) -> usize {
        match self {
            CutName::Spread => Spread.shard(name, shards),
            CutName::First => First.shard(name, shards),
        }
    }

    ghost within = { within_by };
}
