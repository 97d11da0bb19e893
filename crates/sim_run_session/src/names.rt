//! The names of a run's nets, for a thread that does not have the run.
ghost use Rattle.std.specs.Prelude.{◌≡◌, ◌<◌, ◌^◌, IfErr, IfOk, OnErr, OnOk, flat_map, length, map, string_bytes};
ghost use Rattle.std.specs.Io.KnownBytes.{Appends};
ghost use Rattle.std.specs.List.{All};
ghost use Rattle.sim_standard.specs.Records.{IsNamed};
ghost use Rattle.sim_run_listing.specs.Listing.{lines_of};
ghost use Rattle.sim_run_listing.specs.Writing.{AppendsPart};
ghost use Rattle.sim_run_session.specs.declared.error.RunError.TheVariants as refusal;

use crate::error::RunError;
use sim_flat_design::Net;
use sim_run_listing::{KnownNames, write_records};
use sim_store::Log;
use std::alloc::{AllocError, Global};
use std::io::Write;
use std::marker::Model;

/// The names of nets by number, and a table of the short ones.
pub struct Names {
    full: Vec<String>,
    short: KnownNames,
}

/// Written by hand so that code which drops it needs no proof about its contents.
impl Drop for Names {
    fn drop(self) {
        let Names { full, short } = self;
        drop(full);
        drop(short);
    }
}

impl Model for Names {
    ghost use Rattle.std.specs.Prelude.{ℕ, List, map, string_bytes};
    ghost use Rattle.sim_run_listing.specs.ShortNames.{AreNames};

    ghost Value = { List (List ℕ) };

    ghost view = { λ s. map string_bytes s.full.items };

    ghost invariant = { λ s. AreNames (map string_bytes s.full.items) s.short };
}

/// Full names, one after another.
fn full_names(alloc: Global, nets: &[Net]) -> Result<Vec<String>, AllocError>
    ensures { IfOk result (λ v. map string_bytes v.items ≡ map (λ n. n.name) nets.now) }
{
    let mut names = Vec::with_capacity(alloc, nets.len())?;
    for net in nets {
        let name = net.to_name(alloc)?;
        names.push(name)?;
    }
    Ok(names)
}

impl Names {
    /// Those of these nets.
    pub fn of(alloc: Global, nets: &[Net]) -> Result<Names, AllocError>
        ensures { IfOk result (λ names. names ≡ map (λ n. n.name) nets.now) }
    {
        let full = full_names(alloc, nets)?;
        let short = KnownNames::of(alloc, full.as_slice());
        Ok(Names { full, short })
    }

    /// Writes the lines of a log's records.
    pub fn write<W: Write>(&self, log: &Log, out: &mut W) -> Result<(), RunError>
        requires named { All (IsNamed (length self.now)) log.now.records }
        requires early { log.now.past.delta < 2 ^ 63 }
        ensures ok { OnOk result (Appends (W.contents out.old) (W.contents out.new) (flat_map (lines_of self.now) log.now.records)) }
        ensures part { OnErr result (AppendsPart (W.contents out.old) (W.contents out.new) (flat_map (lines_of self.now) log.now.records)) }
        ensures err { IfErr result (λ e. e ≡ refusal.Write) }
    {
        write_records(self.full.as_slice(), &self.short, log, out)?;
        Ok(())
    }
}
