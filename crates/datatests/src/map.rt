//! The map of nutmap, and a version of it.
use crate::entries::{push_entries, push_marked, push_pieces};
use crate::kept::{Held, Kept};
use crate::row::{Row, natural32, parted};
use crate::shown::{push_number, push_yes};
use nutmap::{Map, Meter, laws};
use std::alloc::AllocError;
use std::rc::Rc;

/// The answer to a row of maps, if it is one.
pub fn push_answer(
    answer: &mut String,
    kept: &mut Kept,
    row: &Row<'_>,
) -> Result<bool, AllocError> {
    match row.kind {
        "map" => fill(kept, natural32(row.text))?,
        "map_set" => push_set(answer, kept, row.text)?,
        "map_change" => push_change_in_place(answer, kept, row.text)?,
        "map_remove" => push_value(answer, removed(kept, natural32(row.text))?)?,
        "map_get" => push_value(
            answer,
            kept.map.get(&natural32(row.text)).map(|held| held.number),
        )?,
        "map_made" => push_number(answer, kept.meter.made())?,
        "map_entries" => push_entries(answer, &kept.map)?,
        "map_marked" => push_marked(answer, &kept.map)?,
        "map_pieces" => push_pieces(answer, &kept.map)?,
        _ => return push_of_versions(answer, kept, row),
    }
    Ok(true)
}

/// The answer to a row of versions, if it is one.
fn push_of_versions(
    answer: &mut String,
    kept: &mut Kept,
    row: &Row<'_>,
) -> Result<bool, AllocError> {
    match row.kind {
        "map_share" => kept.map_version = kept.map.share()?,
        "map_version" => push_entries(answer, &kept.map_version)?,
        "map_apart" => set_apart(kept)?,
        "map_outlived" => push_outlived(answer, kept, natural32(row.text))?,
        "map_laws" => call_laws(),
        _ => return Ok(false),
    }
    Ok(true)
}

/// A map of the keys from 0 up to a number, each with itself as its value.
fn fill(kept: &mut Kept, len: u32) -> Result<(), AllocError> {
    kept.map = Map::new(kept.alloc);
    kept.meter = Meter::new();
    for key in 0..len {
        let _ = kept.map.insert(key, Held::of(key), &mut kept.meter)?;
    }
    Ok(())
}

/// Gives a key the value after the bar. The answer is what value it had.
fn push_set(answer: &mut String, kept: &mut Kept, text: &[u8]) -> Result<(), AllocError> {
    let (key, value) = parted(text);
    let (key, value) = (natural32(key), natural32(value));
    push_value(
        answer,
        changed(&mut kept.map, key, Some(value), &mut kept.meter)?,
    )
}

/// Changes a key's value to the one after the bar, in its place. The answer is whether it did.
fn push_change_in_place(
    answer: &mut String,
    kept: &mut Kept,
    text: &[u8],
) -> Result<(), AllocError> {
    let (key, value) = parted(text);
    let (key, value) = (natural32(key), natural32(value));
    let is_changed = kept
        .map
        .change_in_place(&key, |held| held.number = value, &mut kept.meter);
    push_yes(answer, is_changed)
}

fn removed(kept: &mut Kept, key: u32) -> Result<Option<u32>, AllocError> {
    changed(&mut kept.map, key, None, &mut kept.meter)
}

/// Gives the key this value, or takes it out where there is none. Answers what value it had.
fn changed(
    map: &mut Map<u32, Held>,
    key: u32,
    value: Option<u32>,
    meter: &mut Meter,
) -> Result<Option<u32>, AllocError> {
    let before = match value {
        Some(value) => map.insert(key, Held::of(value), meter)?,
        None => map.remove(&key, meter)?,
    };
    match before {
        Some(held) => Ok(Some(held.number)),
        None => Ok(None),
    }
}

fn push_value(answer: &mut String, value: Option<u32>) -> Result<(), AllocError> {
    match value {
        Some(value) => push_number(answer, u64::from(value)),
        None => answer.push_str("none"),
    }
}

/// The value of the key, which outlives the map.
fn push_outlived(answer: &mut String, kept: &mut Kept, key: u32) -> Result<(), AllocError> {
    let value = taken_out(&kept.map, key)?;
    kept.map = Map::new(kept.alloc);
    push_value(answer, value.map(|held| held.number))
}

/// What a version of the map had at the key that was taken out of it.
fn taken_out(map: &Map<u32, Held>, key: u32) -> Result<Option<Rc<Held>>, AllocError> {
    map.share()?.remove(&key, &mut Meter::new())
}

/// The version that the law of versions gives, of a map into which 5 comes and out of which 1 is
/// taken.
fn set_apart(kept: &mut Kept) -> Result<(), AllocError> {
    kept.map_version = laws::versions_are_apart(
        &mut kept.map,
        5,
        Held::of(50),
        &1,
        &mut kept.meter,
    )?;
    Ok(())
}

fn call_laws() {
    laws::insert_changes_one_key::<u32, Held>();
    laws::remove_changes_one_key::<u32, Held>();
    laws::changes_keep_keys_rising::<u32, Held>();
    laws::changes_count_one_entry::<u32, Held>();
    laws::after_is_next::<u32, Held>();
    laws::after_walks_the_entries::<u32, Held>();
    laws::marked_after_walks_the_marked_entries::<u32, Held>();
    laws::digits_are_fewest();
    laws::most_nodes_by_size();
}
