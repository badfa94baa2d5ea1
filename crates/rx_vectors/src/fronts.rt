//! The fronts of a row's page, each of which is a page that ends too early.
use crate::rows::RowError;
use serde_json::Value;
use std::alloc::Global;

/// For each length of a proper front, from 0 on, where the token begins that isn't whole there. A row tells these as
/// pairs of a place and how often it comes.
pub(crate) fn tokens_of(alloc: Global, value: &Value) -> Result<Vec<u64>, RowError> {
    let Some(list) = value.as_array() else {
        return Err(RowError::Form);
    };
    let mut tokens = Vec::new(alloc);
    match push_all(&mut tokens, list.as_slice()) {
        Ok(()) => Ok(tokens),
        Err(error) => {
            drop(tokens);
            Err(error)
        }
    }
}

fn push_all(tokens: &mut Vec<u64>, list: &[Value]) -> Result<(), RowError> {
    for value in list {
        match value.as_array() {
            Some(pair) => push_pair(tokens, pair.as_slice())?,
            None => return Err(RowError::Form),
        }
    }
    Ok(())
}

/// A token's place, so many times.
fn push_pair(tokens: &mut Vec<u64>, pair: &[Value]) -> Result<(), RowError> {
    let [token, count] = pair else {
        return Err(RowError::Form);
    };
    let (Some(token), Some(count)) = (token.as_u64(), count.as_u64()) else {
        return Err(RowError::Form);
    };
    for _ in 0..count {
        let Ok(()) = tokens.push(token) else {
            return Err(RowError::NoMemory);
        };
    }
    Ok(())
}
