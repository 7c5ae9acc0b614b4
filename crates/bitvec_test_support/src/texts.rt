//! What values print.
use std::alloc::Global;
use std::fmt;

/// Whether a value prints so by `{}`.
pub fn prints<V: fmt::Display>(alloc: Global, value: &V, text: &str) -> bool {
    match format!(in alloc; "{value}") {
        Ok(printed) => printed.as_str() == text,
        Err(_) => false,
    }
}

/// Whether a value prints so by `{:?}`.
pub fn shows<V: fmt::Debug>(alloc: Global, value: &V, text: &str) -> bool {
    match format!(in alloc; "{value:?}") {
        Ok(shown) => shown.as_str() == text,
        Err(_) => false,
    }
}
