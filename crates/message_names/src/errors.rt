//! Errors that are handed on.

/// The value of a call; an error of it returns from the function. It is `?` with no conversion of
/// the error, which spares the proof of each function that has many.
macro_rules! tri {
    ($called:expr) => {
        match $called {
            Ok(it) => it,
            Err(error) => return Err(error),
        }
    };
}

pub(crate) use tri;
