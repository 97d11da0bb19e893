//! The bits by which a map names the nets of a netlist.

use std::alloc::{AllocError, Global};
use std::collections::HashMap;
use vsim_netlist_cells::Connections;
use vsim_netlist_design::{Bit, Variable};
use vsim_waves_listing::{MapBit, SourceMap};

/// For each net its bit in a map, if the map names the net.
pub(crate) type Bits = Vec<Option<MapBit>>;

/// Adds the index of a variable of a map.
fn put_place(
    places: &mut HashMap<String, usize>,
    name: &String,
    place: usize,
) -> Result<(), AllocError> {
    let name = name.clone()?;
    places.insert(name, place)?;
    Ok(())
}

/// The indices of the variables of a map by their names.
fn places_of(alloc: Global, map: &SourceMap) -> Result<HashMap<String, usize>, AllocError> {
    let mut places = HashMap::new(alloc);
    for (place, variable) in map.variables.iter().enumerate() {
        put_place(&mut places, &variable.name, place)?;
    }
    Ok(places)
}

/// Notes what a map says of the nets of a variable, whose bits are in the same order.
fn note(bits: &mut Bits, variable: &Variable, mapped: &[MapBit]) {
    for (bit, known) in variable.bits.iter().zip(mapped) {
        if let Bit::Net(net) = bit {
            if let Some(place) = bits.get_mut(*net) {
                *place = Some(*known);
            }
        }
    }
}

/// The bits that a map has of a variable.
fn mapped<'a>(
    map: &'a SourceMap,
    places: &HashMap<String, usize>,
    variable: &Variable,
) -> &'a [MapBit] {
    let Some(place) = places.get(variable.name.as_str()) else {
        return &[];
    };
    match map.variables.get(*place) {
        Some(known) => known.bits.as_slice(),
        None => &[],
    }
}

/// The bit of each net in a map.
pub(crate) fn bits_of(
    alloc: Global,
    connections: &Connections,
    map: &SourceMap,
) -> Result<Bits, AllocError> {
    let places = places_of(alloc, map)?;
    let mut bits = vec![in alloc; None; connections.nets]?;
    for variable in connections.variables.iter() {
        note(&mut bits, variable, mapped(map, &places, variable));
    }
    Ok(bits)
}
