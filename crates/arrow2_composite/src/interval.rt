//! Intervals: spans of time in calendar and clock units.
ghost use Rattle.std.specs.Prelude.{◌≡◌, ◌≢◌, ◌++◌, ◌^◌, ◌<◌, ◌+◌, ℕ, ℤ, List, [], ◌∷◌, Some, codes, length, pos, neg_ℤ, reverse, slice_index, take, drop};
ghost use Rattle.std.specs.Fmt.{signed_decimal};
ghost use Rattle.arrow2_model.specs.Digits.{digits, integer_from};
ghost use Rattle.arrow2_model.proofs.Digits.{digits_of_pair, digits_of_pair_high, digits_of_triple, digits_of_triple_high};
ghost use Rattle.arrow2_types.specs.declared.primitive.PrimitiveType.TheVariants.{DaysMs, MonthDayNano};

use arrow2_types::{NativeType, PrimitiveType, array_of, join};
use std::fmt;
use std::ops::Neg;

/// Days and milliseconds.
#[allow(non_camel_case_types)]
#[derive(Debug, Clone, Copy, Default, PartialEq, Eq, Hash)]
pub struct days_ms(pub i32, pub i32);

impl days_ms {
    /// Returns the interval of `days` days and `milliseconds` milliseconds.
    pub fn new(days: i32, milliseconds: i32) -> days_ms
        ensures { result ≡ record { 0 = days; 1 = milliseconds } }
    {
        days_ms(days, milliseconds)
    }

    /// Returns the number of days.
    pub fn days(&self) -> i32
        ensures { result ≡ self.now.0 }
    {
        let days_ms(days, _) = *self;
        days
    }

    /// Returns the number of milliseconds.
    pub fn milliseconds(&self) -> i32
        ensures { result ≡ self.now.1 }
    {
        let days_ms(_, milliseconds) = *self;
        milliseconds
    }
}

/// Prints the interval in the form `1d -1ms`.
impl fmt::Display for days_ms {
    ghost output = { λ x. Some (signed_decimal x.0
        ++ (codes "d " ++ (signed_decimal x.1 ++ codes "ms"))) };

    fn fmt<W: fmt::Write>(&self, f: &mut fmt::Formatter<W>) -> fmt::Result {
        write!(f, "{}d {}ms", self.days(), self.milliseconds())
    }
}

/// Returns the interval with each part negated. Requires that neither part is `i32::MIN`, where arrow2's negation
/// overflows.
impl Neg for days_ms {
    type Output = days_ms;

    ghost can_neg = { λ x. (x.0 ≢ neg_ℤ (pos (2 ^ 31))) × (x.1 ≢ neg_ℤ (pos (2 ^ 31))) };

    ghost neg_gives = { λ x r. (r.0 ≡ neg_ℤ x.0) × (r.1 ≡ neg_ℤ x.1) };

    fn neg(self) -> days_ms {
        days_ms(-self.0, -self.1)
    }
}

#[tactic(auto, using(arrow2_model::proofs::Digits::joined))]
impl NativeType for days_ms {
    ghost PRIMITIVE = { DaysMs };

    ghost SIZE = { 8 };

    ghost le_digits = { λ x. digits 4 x.0 ++ digits 4 x.1 };

    ghost be_digits = { λ x. reverse (digits 4 x.0) ++ reverse (digits 4 x.1) };

    ghost of_le = { λ bytes. record {
      0 = integer_from 4 (take 4 bytes);
      1 = integer_from 4 (take 4 (drop 4 bytes));
    } };

    ghost of_be = { λ bytes. record {
      0 = integer_from 4 (reverse (take 4 bytes));
      1 = integer_from 4 (reverse (take 4 (drop 4 bytes)));
    } };

    ghost le_law = { digits_of_pair };

    ghost be_law = { digits_of_pair_high };

    const PRIMITIVE: PrimitiveType = PrimitiveType::DaysMs;

    const SIZE: usize = 8;

    type Bytes = [u8; 8];

    fn to_le_bytes(&self) -> [u8; 8] {
        let days = NativeType::to_le_bytes(&self.0);
        let milliseconds = NativeType::to_le_bytes(&self.1);
        join(&days, &milliseconds)
    }

    fn to_be_bytes(&self) -> [u8; 8] {
        let days = NativeType::to_be_bytes(&self.0);
        let milliseconds = NativeType::to_be_bytes(&self.1);
        join(&days, &milliseconds)
    }

    fn from_le_bytes(bytes: [u8; 8]) -> days_ms {
        <days_ms as NativeType>::from_le_slice(&bytes)
    }

    fn from_be_bytes(bytes: [u8; 8]) -> days_ms {
        <days_ms as NativeType>::from_be_slice(&bytes)
    }

    fn bytes_of_slice(bytes: &[u8]) -> [u8; 8] {
        array_of(bytes)
    }

    fn from_le_slice(bytes: &[u8]) -> days_ms {
        let days = <i32 as NativeType>::from_le_slice(&bytes[..4]);
        let milliseconds = <i32 as NativeType>::from_le_slice(&bytes[4..8]);
        days_ms::new(days, milliseconds)
    }

    fn from_be_slice(bytes: &[u8]) -> days_ms {
        let days = <i32 as NativeType>::from_be_slice(&bytes[..4]);
        let milliseconds = <i32 as NativeType>::from_be_slice(&bytes[4..8]);
        days_ms::new(days, milliseconds)
    }
}

/// Months, days and nanoseconds.
#[allow(non_camel_case_types)]
#[derive(Debug, Clone, Copy, Default, PartialEq, Eq, Hash)]
pub struct months_days_ns(pub i32, pub i32, pub i64);

impl months_days_ns {
    /// Returns the interval of `months` months, `days` days and `nanoseconds` nanoseconds.
    pub fn new(months: i32, days: i32, nanoseconds: i64) -> months_days_ns
        ensures { result ≡ record { 0 = months; 1 = days; 2 = nanoseconds } }
    {
        months_days_ns(months, days, nanoseconds)
    }

    /// Returns the number of months.
    pub fn months(&self) -> i32
        ensures { result ≡ self.now.0 }
    {
        let months_days_ns(months, _, _) = *self;
        months
    }

    /// Returns the number of days.
    pub fn days(&self) -> i32
        ensures { result ≡ self.now.1 }
    {
        let months_days_ns(_, days, _) = *self;
        days
    }

    /// Returns the number of nanoseconds.
    pub fn ns(&self) -> i64
        ensures { result ≡ self.now.2 }
    {
        let months_days_ns(_, _, ns) = *self;
        ns
    }
}

/// Prints the interval in the form `1m 2d 3ns`.
impl fmt::Display for months_days_ns {
    ghost output = { λ x. Some (signed_decimal x.0
        ++ (codes "m " ++ (signed_decimal x.1
        ++ (codes "d " ++ (signed_decimal x.2 ++ codes "ns"))))) };

    fn fmt<W: fmt::Write>(&self, f: &mut fmt::Formatter<W>) -> fmt::Result {
        write!(f, "{}m {}d {}ns", self.months(), self.days(), self.ns())
    }
}

/// Returns the interval with each part negated. Requires that no part is the least number of its type, where arrow2's
/// negation overflows.
impl Neg for months_days_ns {
    type Output = months_days_ns;

    ghost can_neg = { λ x. (x.0 ≢ neg_ℤ (pos (2 ^ 31))) × (x.1 ≢ neg_ℤ (pos (2 ^ 31)))
        × (x.2 ≢ neg_ℤ (pos (2 ^ 63))) };

    ghost neg_gives = { λ x r. (r.0 ≡ neg_ℤ x.0) × (r.1 ≡ neg_ℤ x.1) × (r.2 ≡ neg_ℤ x.2) };

    fn neg(self) -> months_days_ns {
        months_days_ns(-self.0, -self.1, -self.2)
    }
}

#[tactic(auto, using(arrow2_model::proofs::Digits::joined))]
impl NativeType for months_days_ns {
    ghost PRIMITIVE = { MonthDayNano };

    ghost SIZE = { 16 };

    ghost le_digits = { λ x. digits 4 x.0 ++ (digits 4 x.1 ++ digits 8 x.2) };

    ghost be_digits = { λ x. reverse (digits 4 x.0)
        ++ (reverse (digits 4 x.1) ++ reverse (digits 8 x.2)) };

    ghost of_le = { λ bytes. record {
      0 = integer_from 4 (take 4 bytes);
      1 = integer_from 4 (take 4 (drop 4 bytes));
      2 = integer_from 8 (take 8 (drop 8 bytes));
    } };

    ghost of_be = { λ bytes. record {
      0 = integer_from 4 (reverse (take 4 bytes));
      1 = integer_from 4 (reverse (take 4 (drop 4 bytes)));
      2 = integer_from 8 (reverse (take 8 (drop 8 bytes)));
    } };

    ghost le_law = { digits_of_triple };

    ghost be_law = { digits_of_triple_high };

    const PRIMITIVE: PrimitiveType = PrimitiveType::MonthDayNano;

    const SIZE: usize = 16;

    type Bytes = [u8; 16];

    fn to_le_bytes(&self) -> [u8; 16] {
        let months = NativeType::to_le_bytes(&self.0);
        let days = NativeType::to_le_bytes(&self.1);
        let ns = NativeType::to_le_bytes(&self.2);
        let rest: [u8; 12] = join(&days, &ns);
        join(&months, &rest)
    }

    fn to_be_bytes(&self) -> [u8; 16] {
        let months = NativeType::to_be_bytes(&self.0);
        let days = NativeType::to_be_bytes(&self.1);
        let ns = NativeType::to_be_bytes(&self.2);
        let rest: [u8; 12] = join(&days, &ns);
        join(&months, &rest)
    }

    fn from_le_bytes(bytes: [u8; 16]) -> months_days_ns {
        <months_days_ns as NativeType>::from_le_slice(&bytes)
    }

    fn from_be_bytes(bytes: [u8; 16]) -> months_days_ns {
        <months_days_ns as NativeType>::from_be_slice(&bytes)
    }

    fn bytes_of_slice(bytes: &[u8]) -> [u8; 16] {
        array_of(bytes)
    }

    fn from_le_slice(bytes: &[u8]) -> months_days_ns {
        let months = <i32 as NativeType>::from_le_slice(&bytes[..4]);
        let days = <i32 as NativeType>::from_le_slice(&bytes[4..8]);
        let ns = <i64 as NativeType>::from_le_slice(&bytes[8..16]);
        months_days_ns(months, days, ns)
    }

    fn from_be_slice(bytes: &[u8]) -> months_days_ns {
        let months = <i32 as NativeType>::from_be_slice(&bytes[..4]);
        let days = <i32 as NativeType>::from_be_slice(&bytes[4..8]);
        let ns = <i64 as NativeType>::from_be_slice(&bytes[8..16]);
        months_days_ns(months, days, ns)
    }
}
