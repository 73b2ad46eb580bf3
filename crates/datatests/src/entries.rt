//! The entries of a map.
use crate::kept::Held;
use crate::shown::push_number;
use arrayvec::ArrayVec;
use nutmap::Map;
use std::alloc::AllocError;

/// How many entries are shown at most.
const SHOWN: usize = 12;

/// How many entries the map has, and the first of them, as a walk comes from each to the next. A
/// cross follows one that a look-up doesn't find.
pub fn push_entries(answer: &mut String, map: &Map<u32, Held>) -> Result<(), AllocError> {
    push_number(answer, map.len() as u64)?;
    answer.push_str(" entries:")?;
    let mut last = None;
    for _ in 0..SHOWN {
        last = push_next(answer, map, last)?;
    }
    Ok(())
}

/// Shows the entry above a key, if there is one, and answers the last key then.
fn push_next(
    answer: &mut String,
    map: &Map<u32, Held>,
    last: Option<u32>,
) -> Result<Option<u32>, AllocError> {
    match map.after(last.as_ref()) {
        Some((key, value)) => {
            push_entry(answer, *key, value.number, map.get(key) == Some(value))?;
            Ok(Some(*key))
        }
        None => Ok(last),
    }
}

fn push_entry(answer: &mut String, key: u32, value: u32, is_found: bool) -> Result<(), AllocError> {
    answer.push(' ')?;
    push_number(answer, u64::from(key))?;
    answer.push('=')?;
    push_number(answer, u64::from(value))?;
    answer.push_str(if is_found { "" } else { "+" })
}

/// The keys of the first marked entries.
pub fn push_marked(answer: &mut String, map: &Map<u32, Held>) -> Result<(), AllocError> {
    let mut last = None;
    for _ in 0..SHOWN {
        if let Some((key, _)) = map.marked_after(last.as_ref()) {
            push_number(answer, u64::from(*key))?;
            answer.push(' ')?;
            last = Some(*key);
        }
    }
    Ok(())
}

/// The keys, as pieces of three entries come, as many pieces as the map has entries.
pub fn push_pieces(answer: &mut String, map: &Map<u32, Held>) -> Result<(), AllocError> {
    let mut last = None;
    for _ in 0..map.len() {
        last = push_piece(answer, map, last)?;
    }
    Ok(())
}

fn push_piece(
    answer: &mut String,
    map: &Map<u32, Held>,
    above: Option<u32>,
) -> Result<Option<u32>, AllocError> {
    let mut last = above;
    let mut piece: ArrayVec<Option<(&u32, &Held)>, 3> = ArrayVec::new();
    map.collect_after(above.as_ref(), &mut piece);
    for entry in piece.as_slice() {
        if let Some((key, _)) = entry {
            push_number(answer, u64::from(**key))?;
            answer.push(' ')?;
            last = Some(**key);
        }
    }
    answer.push_str("| ")?;
    Ok(last)
}
