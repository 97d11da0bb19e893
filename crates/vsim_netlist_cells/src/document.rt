//! The parts of a netlist's JSON that are read.

use crate::object::{FromObject, read_object, read_value};
use serde::{Case, Deserialize, Deserializer, Format, Kind, Name, NameKind};
use std::alloc::Global;
use std::default::MadeWith;
use vsim_netlist_design::{Level, push};

/// The name of a member, spelled exactly so.
macro_rules! exact {
    ($name:literal) => {
        Name {
            name: $name,
            kind: NameKind::Field,
            case: Case::AsIs,
            aliases: &[],
            skipped: false,
        }
    };
}

/// The members of an object, in order.
#[derive(Drop)]
pub(crate) struct Members<T> {
    pub(crate) entries: Vec<(String, T)>,
}

/// A member: its name and its value.
fn member<'de, F: Format, T: Deserialize<'de>>(
    alloc: Global,
    from: &mut Deserializer<'de, '_, F>,
) -> Result<(String, T), F::Error> {
    let name = String::deserialize(alloc, from)?;
    let value = T::deserialize(alloc, from)?;
    Ok((name, value))
}

/// Reads a member.
fn read_entry<'de, F: Format, T: Deserialize<'de>>(
    entries: &mut Vec<(String, T)>,
    alloc: Global,
    from: &mut Deserializer<'de, '_, F>,
) -> Result<(), F::Error> {
    let entry = member(alloc, from)?;
    if push(entries, entry).is_err() {
        return Err(from.no_memory());
    }
    Ok(())
}

/// Reads members up to the end of an object.
fn read_entries<'de, F: Format, T: Deserialize<'de>>(
    entries: &mut Vec<(String, T)>,
    alloc: Global,
    from: &mut Deserializer<'de, '_, F>,
) -> Result<(), F::Error> {
    for _ in 0..u64::MAX {
        if !from.next_entry()? {
            break;
        }
        read_entry(entries, alloc, from)?;
    }
    Ok(())
}

impl<'de, T: Deserialize<'de>> Deserialize<'de> for Members<T> {
    fn deserialize<F: Format>(
        alloc: Global,
        from: &mut Deserializer<'de, '_, F>,
    ) -> Result<Members<T>, F::Error> {
        from.begin_map()?;
        let mut entries = Vec::new(alloc);
        read_entries(&mut entries, alloc, from)?;
        Ok(Members { entries })
    }
}

impl<T> MadeWith<Global> for Members<T> {
    fn made_with(alloc: Global) -> Members<T> {
        let entries = Vec::new(alloc);
        Members { entries }
    }
}

/// A bit in the JSON: the number of a net, or a constant.
#[derive(Clone, Copy)]
pub(crate) enum WrittenBit {
    Number(u64),
    Constant(Level),
}

/// Reads a constant.
fn constant(text: &str) -> Option<WrittenBit> {
    match text.as_bytes() {
        [byte] => Some(WrittenBit::Constant(Level::from_byte(*byte)?)),
        _ => None,
    }
}

/// Reads a number as a bit.
fn read_number<'de, F: Format>(
    alloc: Global,
    from: &mut Deserializer<'de, '_, F>,
) -> Result<WrittenBit, F::Error> {
    let number = u64::deserialize(alloc, from)?;
    Ok(WrittenBit::Number(number))
}

/// Reads a constant as a bit.
fn read_constant<'de, F: Format>(
    alloc: Global,
    from: &mut Deserializer<'de, '_, F>,
) -> Result<WrittenBit, F::Error> {
    let text = String::deserialize(alloc, from)?;
    match constant(text.as_str()) {
        Some(bit) => Ok(bit),
        None => Err(from.custom("a bit is a number, 0, 1, x or z")),
    }
}

impl<'de> Deserialize<'de> for WrittenBit {
    fn deserialize<F: Format>(
        alloc: Global,
        from: &mut Deserializer<'de, '_, F>,
    ) -> Result<WrittenBit, F::Error> {
        match from.peek()? {
            Kind::Unsigned => read_number(alloc, from),
            _ => read_constant(alloc, from),
        }
    }
}

/// The text of an attribute; `None` if it is not a text.
#[derive(Drop)]
pub(crate) struct Text(Option<String>);

impl<'de> Deserialize<'de> for Text {
    fn deserialize<F: Format>(
        alloc: Global,
        from: &mut Deserializer<'de, '_, F>,
    ) -> Result<Text, F::Error> {
        if from.peek()? == Kind::Str {
            return Ok(Text(Some(String::deserialize(alloc, from)?)));
        }
        from.skip()?;
        Ok(Text(None))
    }
}

impl Text {
    /// The text, if it is one.
    pub(crate) fn as_str(&self) -> Option<&str> {
        match &self.0 {
            Some(text) => Some(text.as_str()),
            None => None,
        }
    }
}

impl MadeWith<Global> for Text {
    fn made_with(_alloc: Global) -> Text {
        Text(None)
    }
}

/// The attributes and parameters that matter here.
#[derive(Drop)]
pub(crate) struct Attributes {
    pub(crate) src: Text,
    pub(crate) top: Text,
    pub(crate) init: Text,
    pub(crate) table: Text,
}

impl MadeWith<Global> for Attributes {
    fn made_with(alloc: Global) -> Attributes {
        Attributes {
            src: MadeWith::made_with(alloc),
            top: MadeWith::made_with(alloc),
            init: MadeWith::made_with(alloc),
            table: MadeWith::made_with(alloc),
        }
    }
}

impl<'de> FromObject<'de> for Attributes {
    const NAMES: &'static [Name<'static>] = &[
        exact!("src"),
        exact!("top"),
        exact!("init"),
        exact!("LUT"),
    ];

    const REQUIRED: usize = 0;

    fn read_member<F: Format>(
        &mut self,
        member: usize,
        alloc: Global,
        from: &mut Deserializer<'de, '_, F>,
    ) -> Result<(), F::Error> {
        match member {
            0 => read_value(&mut self.src, alloc, from),
            1 => read_value(&mut self.top, alloc, from),
            2 => read_value(&mut self.init, alloc, from),
            3 => read_value(&mut self.table, alloc, from),
            _ => from.skip(),
        }
    }
}

impl<'de> Deserialize<'de> for Attributes {
    fn deserialize<F: Format>(
        alloc: Global,
        from: &mut Deserializer<'de, '_, F>,
    ) -> Result<Attributes, F::Error> {
        read_object(alloc, from)
    }
}

/// A port of a module.
#[derive(Drop)]
pub(crate) struct WrittenPort {
    pub(crate) direction: String,
    pub(crate) bits: Vec<WrittenBit>,
}

impl MadeWith<Global> for WrittenPort {
    fn made_with(alloc: Global) -> WrittenPort {
        WrittenPort {
            direction: MadeWith::made_with(alloc),
            bits: MadeWith::made_with(alloc),
        }
    }
}

impl<'de> FromObject<'de> for WrittenPort {
    const NAMES: &'static [Name<'static>] = &[exact!("direction"), exact!("bits")];

    const REQUIRED: usize = 2;

    fn read_member<F: Format>(
        &mut self,
        member: usize,
        alloc: Global,
        from: &mut Deserializer<'de, '_, F>,
    ) -> Result<(), F::Error> {
        match member {
            0 => read_value(&mut self.direction, alloc, from),
            1 => read_value(&mut self.bits, alloc, from),
            _ => from.skip(),
        }
    }
}

impl<'de> Deserialize<'de> for WrittenPort {
    fn deserialize<F: Format>(
        alloc: Global,
        from: &mut Deserializer<'de, '_, F>,
    ) -> Result<WrittenPort, F::Error> {
        read_object(alloc, from)
    }
}

/// A cell of a module.
#[derive(Drop)]
pub(crate) struct WrittenCell {
    pub(crate) kind: String,
    pub(crate) connections: Members<Vec<WrittenBit>>,
    pub(crate) parameters: Attributes,
    pub(crate) attributes: Attributes,
}

impl MadeWith<Global> for WrittenCell {
    fn made_with(alloc: Global) -> WrittenCell {
        WrittenCell {
            kind: MadeWith::made_with(alloc),
            connections: MadeWith::made_with(alloc),
            parameters: MadeWith::made_with(alloc),
            attributes: MadeWith::made_with(alloc),
        }
    }
}

impl<'de> FromObject<'de> for WrittenCell {
    const NAMES: &'static [Name<'static>] = &[
        exact!("type"),
        exact!("connections"),
        exact!("parameters"),
        exact!("attributes"),
    ];

    const REQUIRED: usize = 2;

    fn read_member<F: Format>(
        &mut self,
        member: usize,
        alloc: Global,
        from: &mut Deserializer<'de, '_, F>,
    ) -> Result<(), F::Error> {
        match member {
            0 => read_value(&mut self.kind, alloc, from),
            1 => read_value(&mut self.connections, alloc, from),
            2 => read_value(&mut self.parameters, alloc, from),
            3 => read_value(&mut self.attributes, alloc, from),
            _ => from.skip(),
        }
    }
}

impl<'de> Deserialize<'de> for WrittenCell {
    fn deserialize<F: Format>(
        alloc: Global,
        from: &mut Deserializer<'de, '_, F>,
    ) -> Result<WrittenCell, F::Error> {
        read_object(alloc, from)
    }
}

/// A name and the bits that it stands for.
#[derive(Drop)]
pub(crate) struct WrittenName {
    pub(crate) bits: Vec<WrittenBit>,
    pub(crate) hide_name: u64,
    pub(crate) offset: i64,
    pub(crate) upto: u64,
    pub(crate) attributes: Attributes,
}

impl MadeWith<Global> for WrittenName {
    fn made_with(alloc: Global) -> WrittenName {
        WrittenName {
            bits: MadeWith::made_with(alloc),
            hide_name: MadeWith::made_with(alloc),
            offset: MadeWith::made_with(alloc),
            upto: MadeWith::made_with(alloc),
            attributes: MadeWith::made_with(alloc),
        }
    }
}

impl<'de> FromObject<'de> for WrittenName {
    const NAMES: &'static [Name<'static>] = &[
        exact!("bits"),
        exact!("hide_name"),
        exact!("offset"),
        exact!("upto"),
        exact!("attributes"),
    ];

    const REQUIRED: usize = 1;

    fn read_member<F: Format>(
        &mut self,
        member: usize,
        alloc: Global,
        from: &mut Deserializer<'de, '_, F>,
    ) -> Result<(), F::Error> {
        match member {
            0 => read_value(&mut self.bits, alloc, from),
            1 => read_value(&mut self.hide_name, alloc, from),
            2 => read_value(&mut self.offset, alloc, from),
            3 => read_value(&mut self.upto, alloc, from),
            4 => read_value(&mut self.attributes, alloc, from),
            _ => from.skip(),
        }
    }
}

impl<'de> Deserialize<'de> for WrittenName {
    fn deserialize<F: Format>(
        alloc: Global,
        from: &mut Deserializer<'de, '_, F>,
    ) -> Result<WrittenName, F::Error> {
        read_object(alloc, from)
    }
}

/// A module.
#[derive(Drop)]
pub(crate) struct Module {
    pub(crate) ports: Members<WrittenPort>,
    pub(crate) cells: Members<WrittenCell>,
    pub(crate) netnames: Members<WrittenName>,
    pub(crate) attributes: Attributes,
}

impl MadeWith<Global> for Module {
    fn made_with(alloc: Global) -> Module {
        Module {
            ports: MadeWith::made_with(alloc),
            cells: MadeWith::made_with(alloc),
            netnames: MadeWith::made_with(alloc),
            attributes: MadeWith::made_with(alloc),
        }
    }
}

impl<'de> FromObject<'de> for Module {
    const NAMES: &'static [Name<'static>] = &[
        exact!("ports"),
        exact!("cells"),
        exact!("netnames"),
        exact!("attributes"),
    ];

    const REQUIRED: usize = 3;

    fn read_member<F: Format>(
        &mut self,
        member: usize,
        alloc: Global,
        from: &mut Deserializer<'de, '_, F>,
    ) -> Result<(), F::Error> {
        match member {
            0 => read_value(&mut self.ports, alloc, from),
            1 => read_value(&mut self.cells, alloc, from),
            2 => read_value(&mut self.netnames, alloc, from),
            3 => read_value(&mut self.attributes, alloc, from),
            _ => from.skip(),
        }
    }
}

impl<'de> Deserialize<'de> for Module {
    fn deserialize<F: Format>(
        alloc: Global,
        from: &mut Deserializer<'de, '_, F>,
    ) -> Result<Module, F::Error> {
        read_object(alloc, from)
    }
}

/// A netlist.
#[derive(Drop)]
pub(crate) struct Document {
    pub(crate) creator: String,
    pub(crate) modules: Members<Module>,
}

impl MadeWith<Global> for Document {
    fn made_with(alloc: Global) -> Document {
        Document {
            creator: MadeWith::made_with(alloc),
            modules: MadeWith::made_with(alloc),
        }
    }
}

impl<'de> FromObject<'de> for Document {
    const NAMES: &'static [Name<'static>] = &[exact!("creator"), exact!("modules")];

    const REQUIRED: usize = 2;

    fn read_member<F: Format>(
        &mut self,
        member: usize,
        alloc: Global,
        from: &mut Deserializer<'de, '_, F>,
    ) -> Result<(), F::Error> {
        match member {
            0 => read_value(&mut self.creator, alloc, from),
            1 => read_value(&mut self.modules, alloc, from),
            _ => from.skip(),
        }
    }
}

impl<'de> Deserialize<'de> for Document {
    fn deserialize<F: Format>(
        alloc: Global,
        from: &mut Deserializer<'de, '_, F>,
    ) -> Result<Document, F::Error> {
        read_object(alloc, from)
    }
}
