//! Makes calls that allocate, and shows their results. Each group of calls is made twice. Where an allocation of a call
//! failed the first time, the result of its second time is shown: so standard output has the same text, whichever
//! allocation fails. The calls whose allocation failed are named on standard error.
use arrow2_types::{Error, Result};
use std::cmp::PartialEq;
use std::fmt;
use std::io::{Eprint, Print};

/// The name of a call, and its result.
pub(crate) type Row<T> = (&'static str, Result<T>);

/// Returns the input of a call. Where its allocation fails, the error becomes `Overflow`, which no call here
/// returns.
pub(crate) fn input<T: Drop>(made: Result<T>) -> Result<T> {
    made.or(Err(Error::Overflow))
}

/// Returns whether an allocation of the call failed. If one did, prints the name of the call to standard error.
pub(crate) fn ran_out<R: Eprint, T>(rt: &R, call: &str, made: &Result<T>) -> bool {
    let ran_out = matches!(made, Err(Error::OutOfMemory));
    if ran_out {
        let _ = eprintln!(rt; "{call}");
    }
    ran_out
}

/// Shows the name of a call and a value.
pub(crate) fn show<R: Print, T: fmt::Debug>(rt: &R, call: &str, value: &T) {
    let _ = println!(rt; "{call}: {value:?}");
}

/// Shows the results of calls. Where an allocation of a call failed, shows the result of its second time.
pub(crate) fn show_results<R: Print + Eprint, T: fmt::Debug>(
    rt: &R,
    rows: &[Row<T>],
    again: &[Row<T>],
) {
    for ((call, one), (_, other)) in rows.iter().zip(again) {
        let ran_out = ran_out(rt, call, one) || matches!(one, Err(Error::Overflow));
        show(rt, call, if ran_out { other } else { one });
    }
}

/// Changes of a value.
pub(crate) trait Change<T> {
    /// Changes the value, and returns the name and the result of the call that did.
    fn change(&self, value: &mut T) -> Row<()>;
}

/// Shows a copy of the value after a change. If an allocation failed, tests that the copy still equals the value, and
/// makes the change again.
pub(crate) fn show_change<
    R: Print + Eprint,
    T: Clone + Drop + PartialEq + fmt::Debug,
    C: Change<T>,
>(rt: &R, before: &T, change: &C) -> Result<()> {
    let mut value = copy(before)?;
    let (call, made) = change.change(&mut value);
    if ran_out(rt, call, &made) {
        compare(rt, &value, before);
        let (_, again) = change.change(&mut value);
        show(rt, call, &again);
    } else {
        show(rt, call, &made);
    }
    show(rt, call, &value);
    Ok(())
}

/// Returns a copy of the value, whose allocation may fail once.
fn copy<T: Clone + Drop>(value: &T) -> Result<T> {
    match value.clone() {
        Ok(copy) => Ok(copy),
        Err(_) => value.clone().map_err(Error::from),
    }
}

/// Shows the value if it differs from what it was before.
fn compare<R: Print, T: fmt::Debug + PartialEq>(rt: &R, value: &T, before: &T) {
    if *value != *before {
        show(rt, "changed though it failed", value);
    }
}
