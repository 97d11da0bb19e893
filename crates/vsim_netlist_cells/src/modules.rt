//! The simulated module of a netlist.

use crate::document::{Document, Members, Module, WrittenCell, WrittenName, WrittenPort};
use crate::kinds::{Site, put_cell};
use crate::late_inputs::read_inputs_late;
use crate::names::Names;
use crate::reading::Reading;
use std::alloc::{AllocError, Global};
use vsim_netlist_design::{Delays, Draft, Fault, Level, Library, Netlist, Port, Timing, Variable};

/// Whether a module is marked as the top.
fn is_top(module: &Module) -> bool {
    match module.attributes.top.as_str() {
        Some(text) => text.ends_with("1"),
        None => false,
    }
}

/// Whether a module is the requested one: by its name, by its mark, or as the only one.
fn is_wanted(name: &str, module: &Module, top: Option<&str>, is_only: bool) -> bool {
    match top {
        Some(top) => name == top,
        None => is_only || is_top(module),
    }
}

/// The requested module, and its name.
pub(crate) fn wanted<'a>(
    alloc: Global,
    document: &'a Document,
    top: Option<&str>,
) -> Result<(&'a str, &'a Module), Fault> {
    let is_only = document.modules.entries.len() == 1;
    for (name, module) in document.modules.entries.iter() {
        if is_wanted(name.as_str(), module, top, is_only) {
            return Ok((name.as_str(), module));
        }
    }
    match top {
        Some(top) => Err(Fault::of(alloc, &["there is no module ", top])),
        None => Err(Fault::of(alloc, &["no module is marked as the top: --top names it"])),
    }
}

/// Whether a port is an input.
fn is_input(reading: &mut Reading, name: &str, written: &WrittenPort) -> bool {
    match written.direction.as_str() {
        "input" | "inout" => true,
        "output" => false,
        _ => {
            reading.refuse(&["port ", name, " has no direction"]);
            false
        }
    }
}

/// Adds a port.
fn put_port(reading: &mut Reading, ports: &mut Vec<Port>, name: &str, written: &WrittenPort) {
    let is_input = is_input(reading, name, written);
    let bits = reading.bits(written.bits.as_slice());
    let name = reading.text(name);
    let port = Port {
        name,
        is_input,
        bits,
    };
    reading.push(ports, port);
}

/// Adds the ports of a module.
fn put_ports(reading: &mut Reading, ports: &mut Vec<Port>, written: &Members<WrittenPort>) {
    let mut names = Names::new(reading.alloc);
    for (name, written) in written.entries.iter() {
        if names.add(reading, name.as_str()) {
            reading.refuse(&[name.as_str(), " is there twice"]);
        }
        if reading.has_fault() {
            break;
        }
        put_port(reading, ports, name.as_str(), written);
    }
}

/// Puts the place of a cell in the source before its fault, or its name if the place is not known.
fn tell_cell(reading: &mut Reading, name: &str, written: &WrittenCell) {
    let kind = written.kind.as_str();
    match written.attributes.src.as_str() {
        Some(src) => reading.about(&[src, ": cell ", kind]),
        None => reading.about(&["cell ", name, " of type ", kind]),
    }
}

/// The name of a cell, after its place in the source if that is known.
fn origin(reading: &mut Reading, name: &str, written: &WrittenCell) -> String {
    let mut origin = Draft::new(reading.alloc);
    if let Some(src) = written.attributes.src.as_str() {
        origin.push_all(&[src, ": "]);
    }
    origin.push_all(&["cell ", name]);
    reading.whole(origin)
}

/// Adds this origin to each gate and register that has none yet.
fn put_origins(reading: &mut Reading, netlist: &mut Netlist, origin: &str) {
    for _ in netlist.origins.len()..netlist.cells.len() {
        let copy = reading.text(origin);
        reading.push(&mut netlist.origins, copy);
    }
}

/// Notes that a cell has the name of an instance of which a file has delays, if it has.
fn note_instance(site: Site<'_>, netlist: &mut Netlist, name: &str) {
    let Some(delays) = site.delays else {
        return;
    };
    let place = delays.instances.find(name).unwrap_or(usize::MAX);
    if let Some(is_there) = netlist.instances.get_mut(place) {
        *is_there = true;
    }
}

/// Adds a cell whose name is new: the gates and registers that make it up, none if it has no effect
/// in a simulation.
fn put_new_cell(
    site: Site<'_>,
    reading: &mut Reading,
    netlist: &mut Netlist,
    name: &str,
    written: &WrittenCell,
    origin: &str,
) {
    note_instance(site, netlist, name);
    put_cell(site, name, written, reading, netlist);
    tell_cell(reading, name, written);
    put_origins(reading, netlist, origin);
}

/// Adds the cells of a module.
fn put_cells(
    site: Site<'_>,
    reading: &mut Reading,
    netlist: &mut Netlist,
    written: &Members<WrittenCell>,
) {
    let mut names = Names::new(site.alloc);
    for (name, written) in written.entries.iter() {
        let origin = origin(reading, name.as_str(), written);
        if names.add(reading, name.as_str()) {
            reading.refuse(&[origin.as_str(), " is there twice"]);
        }
        if reading.has_fault() {
            break;
        }
        put_new_cell(
            site,
            reading,
            netlist,
            name.as_str(),
            written,
            origin.as_str(),
        );
    }
}

/// Notes the names of ports with a dot. They are escaped names, as a port is in no scope.
fn note_escaped(reading: &mut Reading, names: &mut Names, ports: &Members<WrittenPort>) {
    for (name, _written) in ports.entries.iter() {
        if name.as_str().contains('.') {
            let _ = names.add(reading, name.as_str());
        }
    }
}

/// A name of the source, after a backslash if it is an escaped one with a dot.
fn source_name(reading: &mut Reading, escaped: &Names, name: &str) -> String {
    let mut text = Draft::new(reading.alloc);
    if escaped.has(name) {
        text.push("\\");
    }
    text.push(name);
    reading.whole(text)
}

/// Takes a name: the initial levels of its nets and, if it is from the source, the variable.
fn put_variable(
    reading: &mut Reading,
    variables: &mut Vec<Variable>,
    escaped: &Names,
    name: &str,
    written: &WrittenName,
) {
    let bits = reading.bits(written.bits.as_slice());
    if let Some(levels) = written.attributes.init.as_str() {
        reading.begin_all(bits.as_slice(), levels);
    }
    if written.hide_name != 0 {
        return;
    }
    reading.name_all(bits.as_slice());
    let name = source_name(reading, escaped, name);
    let variable = Variable {
        name,
        bits,
        offset: written.offset,
        is_up: written.upto != 0,
    };
    reading.push(variables, variable);
}

/// Adds the source's names of nets.
pub(crate) fn put_variables(reading: &mut Reading, variables: &mut Vec<Variable>, module: &Module) {
    let mut escaped = Names::new(reading.alloc);
    note_escaped(reading, &mut escaped, &module.ports);
    for (name, written) in module.netnames.entries.iter() {
        if reading.has_fault() {
            break;
        }
        put_variable(reading, variables, &escaped, name.as_str(), written);
    }
}

/// Lets registers read inputs a delta cycle later, if cells have delays of a file.
fn put_late_inputs(reading: &mut Reading, netlist: &mut Netlist) {
    let mut buffers = Vec::new(reading.alloc);
    read_inputs_late(reading, netlist, &mut buffers);
    put_untimed(reading, &mut netlist.timings, buffers.len());
    if netlist.cells.append(&mut buffers).is_err() {
        reading.lack();
    }
    put_origins(reading, netlist, "an input");
}

/// Adds the delays of this number of cells without any.
fn put_untimed(reading: &mut Reading, timings: &mut Vec<Option<Timing>>, count: usize) {
    for _ in 0..count {
        reading.push(timings, None);
    }
}

/// Adds all parts of a module.
fn put_all(site: Site<'_>, reading: &mut Reading, netlist: &mut Netlist, module: &Module) {
    put_ports(reading, &mut netlist.ports, &module.ports);
    if !reading.has_fault() {
        put_cells(site, reading, netlist, &module.cells);
    }
    put_variables(reading, &mut netlist.variables, module);
    if site.delays.is_some() && !reading.has_fault() {
        put_late_inputs(reading, netlist);
    }
}

/// The number of instances of which a file has delays.
fn count_instances(site: Site<'_>) -> usize {
    match site.delays {
        Some(delays) => delays.instances.lists.len(),
        None => 0,
    }
}

/// A netlist without gates.
fn empty_netlist(site: Site<'_>, name: &str) -> Result<Netlist, AllocError> {
    let instances = vec![in site.alloc; false; count_instances(site)]?;
    let name = String::from_str(site.alloc, name)?;
    Ok(Netlist::new(site.alloc, name, site.delays.is_some(), instances))
}

/// Reads the netlist of a module.
fn make_netlist(site: Site<'_>, name: &str, module: &Module) -> Result<Netlist, Fault> {
    let mut netlist = empty_netlist(site, name)?;
    let mut reading = Reading::new(site.alloc);
    put_all(site, &mut reading, &mut netlist, module);
    netlist.nets = reading.finish()?;
    Ok(netlist)
}

/// Reads the netlist of the requested module.
fn wanted_netlist(
    site: Site<'_>,
    document: &Document,
    top: Option<&str>,
) -> Result<Netlist, Fault> {
    let (name, module) = wanted(site.alloc, document, top)?;
    make_netlist(site, name, module)
}

/// The refusal of a text that is not the JSON of a netlist.
fn no_netlist(alloc: Global, fault: serde_json::Error) -> Fault {
    if fault.is_memory() {
        return Fault::Memory;
    }
    let mut text = Draft::of(alloc, "no netlist that Yosys' write_json writes: ");
    text.push_shown(&fault);
    Fault::of_draft(text)
}

/// Refuses a netlist that another program wrote.
fn demand_creator(alloc: Global, creator: &str) -> Result<(), Fault> {
    if !creator.starts_with("Yosys ") {
        return Err(Fault::of(alloc, &["its creator is '", creator, "', not Yosys"]));
    }
    Ok(())
}

/// Reads the JSON.
pub(crate) fn read_document(alloc: Global, text: &str) -> Result<Document, Fault> {
    let document = match serde_json::from_str::<Document>(alloc, text) {
        Ok(document) => document,
        Err(fault) => return Err(no_netlist(alloc, fault)),
    };
    demand_creator(alloc, document.creator.as_str())?;
    Ok(document)
}

/// Reads the netlist of the module with this name, or of the one marked as the top. Its cells are
/// those of Yosys, and those of this library, which may have the delays of a file. Registers and
/// latches begin with this level, unless the netlist says with which, or if there is none as the
/// text begins them.
pub fn read_netlist(
    alloc: Global,
    text: &str,
    top: Option<&str>,
    library: &Library,
    delays: Option<&Delays>,
    initial: Option<Level>,
) -> Result<Netlist, Fault> {
    let document = read_document(alloc, text)?;
    let site = Site {
        alloc,
        library,
        delays,
        initial,
    };
    wanted_netlist(site, &document, top)
}
