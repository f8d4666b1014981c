//! Rows of name keys: two names, and values under names.

use crate::spelling::text_of;
use std::alloc::{AllocError, Global};
use std::collections::HashMap;
use std::hash::{DefaultHasher, Hash, Hasher};
use wit_syntax::NameKey;

fn hash_of(name: &str) -> u64 {
    let mut state = DefaultHasher::new();
    NameKey::of(name).hash(&mut state);
    state.finish()
}

/// How the keys of two names are alike.
fn likeness(a: &str, b: &str) -> &'static str {
    let equal = NameKey::of(a) == NameKey::of(b);
    let different = NameKey::of(a) != NameKey::of(b);
    if equal == different {
        "! both equal and different, or neither"
    } else if different {
        "different"
    } else if hash_of(a) == hash_of(b) {
        "equal"
    } else {
        "! equal, but not hashed alike"
    }
}

/// The answer to a row `NAME ~ NAME`.
pub fn compare(alloc: Global, row: &str) -> Result<Option<String>, AllocError> {
    let Some((first, second)) = row.split_once(" ~ ") else {
        return Ok(None);
    };
    let (Some(a), Some(b)) = (text_of(alloc, first)?, text_of(alloc, second)?) else {
        return Ok(None);
    };
    Ok(Some(String::from_str(alloc, likeness(&a, &b))?))
}

/// Values under names, of which those with one key are one.
#[derive(Drop)]
pub struct Found<'a> {
    values: HashMap<NameKey<'a>, u32>,
}

impl<'a> Found<'a> {
    /// No values.
    pub fn new(alloc: Global) -> Found<'a> {
        Found {
            values: HashMap::new(alloc),
        }
    }

    /// The answer to a row.
    pub fn answer(&mut self, alloc: Global, row: &'a str) -> Result<Option<String>, AllocError> {
        let Some(step) = step_of(row) else {
            return Ok(None);
        };
        let answer = match self.value(step)? {
            Some(number) => format!(in alloc; "{number}"),
            None => String::from_str(alloc, "none"),
        };
        Ok(Some(answer?))
    }

    /// What stands under a name, or stood there before a step.
    fn value(&mut self, step: Step<'a>) -> Result<Option<u32>, AllocError> {
        match step {
            Step::Insert(name, number) => Ok(self.values.insert(NameKey::of(name), number)?),
            Step::Get(name) => Ok(self.get(&NameKey::of(name))),
            Step::GetByClone(name) => Ok(self.get(&NameKey::of(name).clone()?)),
        }
    }

    fn get(&self, key: &NameKey<'a>) -> Option<u32> {
        self.values.get(key).copied()
    }
}

/// What a row does with values under names.
#[derive(Clone, Copy)]
enum Step<'a> {
    /// `insert NAME NUMBER`
    Insert(&'a str, u32),
    /// `get NAME`
    Get(&'a str),
    /// `get-by-clone NAME`: by a clone of the name's key.
    GetByClone(&'a str),
}

/// What a row does.
fn step_of(row: &str) -> Option<Step<'_>> {
    let (verb, words) = row.split_once(' ')?;
    match verb {
        "insert" => {
            let (name, digits) = words.split_once(' ')?;
            Some(Step::Insert(name, digits.parse().ok()?))
        }
        "get" => Some(Step::Get(words)),
        "get-by-clone" => Some(Step::GetByClone(words)),
        _ => None,
    }
}
