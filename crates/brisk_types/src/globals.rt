//! The indexes of what is known everywhere in a program.
ghost use Rattle.std.specs.Prelude.{◌≡◌, ◌||◌, ◌&&◌, option_map, IfOk, OnOk};
ghost use Rattle.std.specs.Option.{is_some};
ghost use Rattle.brisk_syntax.specs.Declarations as declared;
ghost use Rattle.brisk_syntax.specs.Typing as typing;
ghost use Rattle.brisk_values.specs.Names.{Name as Text, same_name};
ghost use Rattle.brisk_types.specs.Declarations as spec;
ghost use Rattle.brisk_types.specs.Indexes.{found, key, same_key, same_tag, tag_key};
ghost use Rattle.brisk_types.specs.Names.{global_meaning};

use crate::index::{Index, Key, TagKey};
use crate::names::Globals;
use brisk_syntax::{Channels, Enums, Kinds, Names, Roles};
use brisk_values::{Name, NoMemory};
use std::alloc::Global;

fn enum_index(alloc: Global, enums: &Enums) -> Result<Index<Key, ()>, NoMemory>
    ensures { IfOk result (λ index. (e : Text) → is_some (found same_key index (key e)) ≡ spec.is_enum_of enums.now e) }
{
    let mut index = Index::new(alloc);
    for e in &enums.items {
        index.add(&Key { name: e.name }, ())?;
    }
    Ok(index)
}

fn add_tags(index: &mut Index<TagKey, ()>, of: Name, tags: &Names) -> Result<(), NoMemory>
    ensures { OnOk result ((e t : Text) → is_some (found same_tag index.new (tag_key e t)) ≡ (is_some (found same_tag index.old (tag_key e t)) || (same_name e of && typing.is_among tags.now t))) }
{
    for tag in &tags.items {
        let key = TagKey {
            of: Key { name: of },
            tag: Key { name: *tag },
        };
        index.add(&key, ())?;
    }
    Ok(())
}

fn tag_index(alloc: Global, enums: &Enums) -> Result<Index<TagKey, ()>, NoMemory>
    ensures { IfOk result (λ index. (e t : Text) → is_some (found same_tag index (tag_key e t)) ≡ declared.is_tag enums.now e t) }
{
    let mut index = Index::new(alloc);
    for e in &enums.items {
        add_tags(&mut index, e.name, &e.tags)?;
    }
    Ok(index)
}

fn channel_index<'a>(
    alloc: Global,
    channels: &'a Channels,
) -> Result<Index<Key, &'a Kinds>, NoMemory>
    ensures { IfOk result (λ index. (c : Text) → option_map (λ k. k.now) (found same_key index (key c)) ≡ declared.kinds_on channels.now c) }
{
    let mut index = Index::new(alloc);
    for channel in &channels.items {
        index.add(&Key { name: channel.name }, &channel.kinds)?;
    }
    Ok(index)
}

fn set_index(alloc: Global, roles: &Roles) -> Result<Index<Key, ()>, NoMemory>
    ensures { IfOk result (λ index. (n : Text) → is_some (found same_key index (key n)) ≡ typing.is_set roles.now n) }
{
    let mut index = Index::new(alloc);
    for role in &roles.items {
        if role.many {
            index.add(&Key { name: role.name }, ())?;
        }
    }
    Ok(index)
}

fn single_index(alloc: Global, roles: &Roles) -> Result<Index<Key, ()>, NoMemory>
    ensures { IfOk result (λ index. (n : Text) → is_some (found same_key index (key n)) ≡ typing.is_single roles.now n) }
{
    let mut index = Index::new(alloc);
    for role in &roles.items {
        if !role.many {
            index.add(&Key { name: role.name }, ())?;
        }
    }
    Ok(index)
}

/// The indexes of a program that declares these, with that of its places.
pub fn globals<'a>(
    alloc: Global,
    enums: &Enums,
    channels: &'a Channels,
    roles: &Roles,
    places: Index<Key, u32>,
) -> Result<Globals<'a>, NoMemory>
    requires { (n : Text) → found same_key places (key n) ≡ spec.place_of (spec.placed (spec.program_of enums.now channels.now roles.now)) n }
    ensures { IfOk result (λ globals. global_meaning globals ≡ spec.meaning (spec.program_of enums.now channels.now roles.now)) }
{
    let known = enum_index(alloc, enums)?;
    let tags = tag_index(alloc, enums)?;
    let by_name = channel_index(alloc, channels)?;
    let sets = set_index(alloc, roles)?;
    let singles = single_index(alloc, roles)?;
    Ok(Globals {
        enums: known,
        tags,
        channels: by_name,
        sets,
        singles,
        places,
    })
}
