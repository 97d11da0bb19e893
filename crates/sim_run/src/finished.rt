//! A run that has finished.

ghost use Rattle.std.specs.Prelude.{◌≡◌, map, string_bytes, Err, IfOk, OnOk, OnErr};
ghost use Rattle.std.specs.Io.KnownBytes.{Appends};
ghost use Rattle.sim_run_listing.specs.Listing.{listing};
ghost use Rattle.sim_run_listing.specs.Writing.{AppendsPart};
ghost use Rattle.sim_standard.specs.Behaviour.{behaviour_of};

use sim_flat_design::Net;
use sim_run_session::RunError;
use sim_store::{Record, WaveStore};
use std::alloc::{AllocError, Global};
use std::io::Write;
use std::marker::Model;

/// The names of nets.
fn names_of(alloc: Global, nets: &[Net]) -> Result<Vec<String>, AllocError>
    ensures { IfOk result (λ v. map string_bytes v.items ≡ map (λ n. n.name) nets.now) }
{
    let mut names = Vec::new(alloc);
    for net in nets {
        names.push(net.to_name(alloc)?)?;
    }
    Ok(names)
}

/// The records of a finished run, and the names of its nets.
pub struct Finished {
    names: Vec<String>,
    records: Vec<Record>,
    events: u64,
}

/// Written by hand so that code which drops it needs no proof about its contents.
impl Drop for Finished {
    fn drop(self) {
        let Finished {
            names,
            records,
            events: _,
        } = self;
        drop(names);
        drop(records);
    }
}

impl Model for Finished {
    ghost use Rattle.std.specs.Prelude.{◌≡◌, map, string_bytes};
    ghost use Rattle.sim_standard.specs.Records.{event_count};
    ghost use Rattle.sim_run_listing.specs.Listing.{IsHistory};
    ghost use Rattle.sim_run_session.specs.Run.{History};

    ghost Value = { History };

    ghost view = { λ f. record { names = map string_bytes f.names.items; records = f.records.items } };

    ghost invariant = { λ f. IsHistory (map string_bytes f.names.items) f.records.items × (f.events ≡ event_count f.records.items) };
}

impl Finished {
    ghost use Rattle.std.specs.Prelude.{◌≡◌, ◌+◌, ◌<◌, ◌^◌, map, length, string_bytes, IfOk, IfErr};
    ghost use Rattle.sim_standard.specs.Behaviour.{behaviour_of};
    ghost use Rattle.sim_standard.specs.Records.{event_count};
    ghost use Rattle.sim_run_listing.specs.Listing.{IsHistory};
    ghost use Rattle.sim_run_session.specs.declared.error.RunError.TheVariants as refusal;

    /// The run with these names and records, with this many events after the initialization.
    pub fn new(names: Vec<String>, records: Vec<Record>, events: u64) -> Finished
        requires history { IsHistory (map string_bytes names.items) records.items }
        requires events { events ≡ event_count records.items }
        ensures names { result.names ≡ map string_bytes names.items }
        ensures records { result.records ≡ records.items }
    {
        Finished {
            names,
            records,
            events,
        }
    }

    /// The present history of a store, copied from its log.
    pub fn of(alloc: Global, run: &WaveStore) -> Result<Finished, RunError>
        ensures names { IfOk result (λ f. f.names ≡ (behaviour_of run.now.simulation.design).names) }
        ensures records { IfOk result (λ f. f.records ≡ (behaviour_of run.now.simulation.design).records run.now.simulation.cycles) }
        ensures err { IfErr result (λ e. e ≡ refusal.Memory) }
    {
        let names = names_of(alloc, run.design().nets())?;
        match run.records_since(alloc, 0) {
            Ok(records) => Ok(Finished::new(names, records, run.look().events)),
            // There is a record 0, so memory ran out.
            Err(_refusal) => Err(RunError::Memory),
        }
    }

    /// The records, beginning with the initialization.
    pub fn records(&self) -> &[Record]
        ensures records { result.now ≡ self.now.records }
        ensures named { IsHistory self.now.names result.now }
    {
        self.records.as_slice()
    }

    /// The names of the nets, by number.
    pub fn names(&self) -> &[String]
        ensures { map string_bytes result.now ≡ self.now.names }
    {
        self.names.as_slice()
    }

    /// The number of cycles after the initialization.
    pub fn cycles(&self) -> u64
        ensures { result + 1 ≡ length self.now.records }
    {
        self.records.len() as u64 - 1
    }

    /// The number of events in these cycles.
    pub fn events(&self) -> u64
        ensures { result ≡ event_count self.now.records }
    {
        self.events
    }
}

/// Writes the listing of a run: for each record, in order, a line `TIME DELTA NAME VALUE` for each
/// of its changes, with the time in femtoseconds, and finally `done CYCLES EVENTS`. The lines are
/// written in blocks of 32 KiB; nothing is allocated. `RunError::Write` if a write fails or writes
/// nothing: then a prefix of the listing has been written.
pub fn write_listing<W: Write>(finished: &Finished, out: &mut W) -> Result<(), RunError>
    ensures ok { OnOk result (Appends (W.contents out.old) (W.contents out.new) (listing finished.now.names finished.now.records)) }
    ensures part { OnErr result (AppendsPart (W.contents out.old) (W.contents out.new) (listing finished.now.names finished.now.records)) }
    ensures err { OnErr result (result ≡ Err RunError.Write) }
{
    sim_run_listing::write_listing(finished.names(), finished.records(), finished.events(), out)?;
    Ok(())
}
