//! Reading an object whose members have names that are known.

use serde::{Deserialize, Deserializer, Format, Name};
use std::alloc::Global;
use std::default::MadeWith;

/// A value that is read from an object: first it has no member, then one after another is put into
/// it.
pub(crate) trait FromObject<'de>: MadeWith<Global> + Drop {
    /// The names of the members.
    const NAMES: &'static [Name<'static>];

    /// The number of members that have to be there. They come first.
    const REQUIRED: usize;

    /// Reads a member, given its place among the names, or a larger number for another member.
    fn read_member<F: Format>(
        &mut self,
        member: usize,
        alloc: Global,
        from: &mut Deserializer<'de, '_, F>,
    ) -> Result<(), F::Error>;
}

/// Reads a value into its place.
pub(crate) fn read_value<'de, T: Deserialize<'de>, F: Format>(
    place: &mut T,
    alloc: Global,
    from: &mut Deserializer<'de, '_, F>,
) -> Result<(), F::Error> {
    *place = T::deserialize(alloc, from)?;
    Ok(())
}

/// The name of a member.
fn name_of<'a>(names: &[Name<'a>], member: usize) -> &'a str {
    match names.get(member) {
        Some(name) => name.name,
        None => "",
    }
}

/// The bit of a member among those that have been read; 0 for a name that is not known.
fn bit_of(member: usize) -> u64 {
    if member < 64 { 1u64 << member } else { 0 }
}

/// Reads a member. One that is known and does not have to be there may be `null`.
fn read_one<'de, T: FromObject<'de>, F: Format>(
    object: &mut T,
    member: usize,
    alloc: Global,
    from: &mut Deserializer<'de, '_, F>,
) -> Result<(), F::Error> {
    let is_optional = T::REQUIRED <= member && member < T::NAMES.len();
    if is_optional && from.take_none()? {
        return Ok(());
    }
    object.read_member(member, alloc, from)
}

/// Refuses an object that lacks a member.
fn demand_all<'de, T: FromObject<'de>, F: Format>(
    seen: u64,
    from: &mut Deserializer<'de, '_, F>,
) -> Result<(), F::Error> {
    for member in 0..T::REQUIRED {
        if seen & bit_of(member) == 0 {
            return Err(from.missing(name_of(T::NAMES, member)));
        }
    }
    Ok(())
}

/// Refuses a member that has been read.
fn demand_new<'de, T: FromObject<'de>, F: Format>(
    seen: u64,
    member: usize,
    from: &mut Deserializer<'de, '_, F>,
) -> Result<(), F::Error> {
    if seen & bit_of(member) != 0 {
        return Err(from.duplicate(name_of(T::NAMES, member)));
    }
    Ok(())
}

/// Reads the members of an object, each of which may be there once.
fn read_members<'de, T: FromObject<'de>, F: Format>(
    object: &mut T,
    alloc: Global,
    from: &mut Deserializer<'de, '_, F>,
) -> Result<(), F::Error> {
    let mut seen = 0u64;
    for _ in 0..u64::MAX {
        let Some(member) = from.next_key(T::NAMES)? else {
            break;
        };
        demand_new::<T, F>(seen, member, from)?;
        seen |= bit_of(member);
        read_one(object, member, alloc, from)?;
    }
    demand_all::<T, F>(seen, from)
}

/// Reads an object.
pub(crate) fn read_object<'de, T: FromObject<'de>, F: Format>(
    alloc: Global,
    from: &mut Deserializer<'de, '_, F>,
) -> Result<T, F::Error> {
    from.begin_map()?;
    let mut object = T::made_with(alloc);
    read_members(&mut object, alloc, from)?;
    Ok(object)
}
