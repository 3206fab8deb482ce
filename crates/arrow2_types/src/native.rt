//! The values of buffers, and their bytes.
ghost use Rattle.std.specs.Prelude.{◌≡◌, ◌<◌, ℕ, List, length, pos, reverse, slice_index};
ghost use Rattle.arrow2_model.specs.Digits.{digits, natural_from, integer_from};
ghost use Rattle.arrow2_model.proofs.Digits.{digits_of_read, digits_of_read_high, digits_of_integer, digits_of_integer_high};
ghost use Rattle.arrow2_types.specs.declared.primitive.PrimitiveType.{PrimitiveType};
ghost use Rattle.arrow2_types.specs.declared.primitive.PrimitiveType.TheVariants.{Int8, Int16, Int32, Int64, Int128, UInt8, UInt16, UInt32, UInt64};

use crate::arrays::array_of;
use crate::primitive::PrimitiveType;
use std::convert::AsSlice;
use std::fmt::Debug;

/// A type of values that the layer's buffers hold. Each value has `SIZE` bytes.
///
/// Differs from arrow2: `Bytes` can be read as a slice, and `bytes_of_slice` makes it from a slice. `SIZE`,
/// `from_le_slice` and `from_be_slice` are added for generic code.
pub trait NativeType: Copy + Debug + PartialEq + Default {
    // The name of the type.
    ghost PRIMITIVE: { PrimitiveType };

    // The number of bytes of a value.
    ghost SIZE: { ℕ };

    // The bytes of a value, in little-endian and in big-endian order.
    ghost le_digits: { Self → List ℕ };

    ghost be_digits: { Self → List ℕ };

    // The value that bytes have, in little-endian and in big-endian order.
    ghost of_le: { List ℕ → Self };

    ghost of_be: { List ℕ → Self };

    /// The name of the type.
    const PRIMITIVE: PrimitiveType;

    /// The number of bytes of a value.
    const SIZE: usize;

    /// The bytes of a value: an array of `SIZE` bytes. Contracts state the size of the results of `to_le_bytes` and
    /// `to_be_bytes`.
    type Bytes: AsSlice<u8> + Copy;

    /// Returns the bytes of the value in little-endian order.
    fn to_le_bytes(&self) -> Self::Bytes
        ensures digits { Self.Bytes.items result ≡ le_digits self.now }
        ensures size { length (Self.Bytes.items result) ≡ SIZE }
        ensures read_back { of_le (Self.Bytes.items result) ≡ self.now };

    /// Returns the bytes of the value in big-endian order.
    fn to_be_bytes(&self) -> Self::Bytes
        ensures digits { Self.Bytes.items result ≡ be_digits self.now }
        ensures size { length (Self.Bytes.items result) ≡ SIZE }
        ensures read_back { of_be (Self.Bytes.items result) ≡ self.now };

    /// Returns the value with these bytes in little-endian order.
    fn from_le_bytes(bytes: Self::Bytes) -> Self
        ensures { result ≡ of_le (Self.Bytes.items bytes) };

    /// Returns the value with these bytes in big-endian order.
    fn from_be_bytes(bytes: Self::Bytes) -> Self
        ensures { result ≡ of_be (Self.Bytes.items bytes) };

    /// Returns these bytes as an array, which generic code can pass to `from_le_bytes`. Requires exactly `SIZE` bytes.
    fn bytes_of_slice(bytes: &[u8]) -> Self::Bytes
        requires { length bytes.now ≡ SIZE }
        ensures { Self.Bytes.items result ≡ bytes.now };

    /// Returns the value with these bytes in little-endian order. Requires exactly `SIZE` bytes.
    fn from_le_slice(bytes: &[u8]) -> Self
        requires { length bytes.now ≡ SIZE }
        ensures { result ≡ of_le bytes.now }
    {
        Self::from_le_bytes(Self::bytes_of_slice(bytes))
    }

    /// Returns the value with these bytes in big-endian order. Requires exactly `SIZE` bytes.
    fn from_be_slice(bytes: &[u8]) -> Self
        requires { length bytes.now ≡ SIZE }
        ensures { result ≡ of_be bytes.now }
    {
        Self::from_be_bytes(Self::bytes_of_slice(bytes))
    }

    // A value that was read has the bytes that it was read from.
    ghost le_law: { (bytes : List ℕ) → length bytes ≡ SIZE → ((k : ℕ) → slice_index bytes k < 256)
        → le_digits (of_le bytes) ≡ bytes };

    ghost be_law: { (bytes : List ℕ) → length bytes ≡ SIZE → ((k : ℕ) → slice_index bytes k < 256)
        → be_digits (of_be bytes) ≡ bytes };
}

#[tactic(auto, using(arrow2_model::proofs::Digits::u8_bytes))]
impl NativeType for u8 {
    ghost PRIMITIVE = { UInt8 };

    ghost SIZE = { 1 };

    ghost le_digits = { λ x. digits 1 (pos x) };

    ghost be_digits = { λ x. reverse (digits 1 (pos x)) };

    ghost of_le = { natural_from 1 };

    ghost of_be = { λ bytes. natural_from 1 (reverse bytes) };

    ghost le_law = { digits_of_read 1 };

    ghost be_law = { digits_of_read_high 1 };

    const PRIMITIVE: PrimitiveType = PrimitiveType::UInt8;

    const SIZE: usize = 1;

    type Bytes = [u8; 1];

    fn to_le_bytes(&self) -> [u8; 1] {
        u8::to_le_bytes(*self)
    }

    fn to_be_bytes(&self) -> [u8; 1] {
        u8::to_be_bytes(*self)
    }

    fn from_le_bytes(bytes: [u8; 1]) -> u8 {
        u8::from_le_bytes(bytes)
    }

    fn from_be_bytes(bytes: [u8; 1]) -> u8 {
        u8::from_be_bytes(bytes)
    }

    fn bytes_of_slice(bytes: &[u8]) -> [u8; 1] {
        array_of(bytes)
    }
}

#[tactic(auto, using(arrow2_model::proofs::Digits::unsigned_bytes))]
impl NativeType for u16 {
    ghost PRIMITIVE = { UInt16 };

    ghost SIZE = { 2 };

    ghost le_digits = { λ x. digits 2 (pos x) };

    ghost be_digits = { λ x. reverse (digits 2 (pos x)) };

    ghost of_le = { natural_from 2 };

    ghost of_be = { λ bytes. natural_from 2 (reverse bytes) };

    ghost le_law = { digits_of_read 2 };

    ghost be_law = { digits_of_read_high 2 };

    const PRIMITIVE: PrimitiveType = PrimitiveType::UInt16;

    const SIZE: usize = 2;

    type Bytes = [u8; 2];

    fn to_le_bytes(&self) -> [u8; 2] {
        u16::to_le_bytes(*self)
    }

    fn to_be_bytes(&self) -> [u8; 2] {
        u16::to_be_bytes(*self)
    }

    fn from_le_bytes(bytes: [u8; 2]) -> u16 {
        u16::from_le_bytes(bytes)
    }

    fn from_be_bytes(bytes: [u8; 2]) -> u16 {
        u16::from_be_bytes(bytes)
    }

    fn bytes_of_slice(bytes: &[u8]) -> [u8; 2] {
        array_of(bytes)
    }
}

#[tactic(auto, using(arrow2_model::proofs::Digits::unsigned_bytes))]
impl NativeType for u32 {
    ghost PRIMITIVE = { UInt32 };

    ghost SIZE = { 4 };

    ghost le_digits = { λ x. digits 4 (pos x) };

    ghost be_digits = { λ x. reverse (digits 4 (pos x)) };

    ghost of_le = { natural_from 4 };

    ghost of_be = { λ bytes. natural_from 4 (reverse bytes) };

    ghost le_law = { digits_of_read 4 };

    ghost be_law = { digits_of_read_high 4 };

    const PRIMITIVE: PrimitiveType = PrimitiveType::UInt32;

    const SIZE: usize = 4;

    type Bytes = [u8; 4];

    fn to_le_bytes(&self) -> [u8; 4] {
        u32::to_le_bytes(*self)
    }

    fn to_be_bytes(&self) -> [u8; 4] {
        u32::to_be_bytes(*self)
    }

    fn from_le_bytes(bytes: [u8; 4]) -> u32 {
        u32::from_le_bytes(bytes)
    }

    fn from_be_bytes(bytes: [u8; 4]) -> u32 {
        u32::from_be_bytes(bytes)
    }

    fn bytes_of_slice(bytes: &[u8]) -> [u8; 4] {
        array_of(bytes)
    }
}

#[tactic(auto, using(arrow2_model::proofs::Digits::unsigned_bytes))]
impl NativeType for u64 {
    ghost PRIMITIVE = { UInt64 };

    ghost SIZE = { 8 };

    ghost le_digits = { λ x. digits 8 (pos x) };

    ghost be_digits = { λ x. reverse (digits 8 (pos x)) };

    ghost of_le = { natural_from 8 };

    ghost of_be = { λ bytes. natural_from 8 (reverse bytes) };

    ghost le_law = { digits_of_read 8 };

    ghost be_law = { digits_of_read_high 8 };

    const PRIMITIVE: PrimitiveType = PrimitiveType::UInt64;

    const SIZE: usize = 8;

    type Bytes = [u8; 8];

    fn to_le_bytes(&self) -> [u8; 8] {
        u64::to_le_bytes(*self)
    }

    fn to_be_bytes(&self) -> [u8; 8] {
        u64::to_be_bytes(*self)
    }

    fn from_le_bytes(bytes: [u8; 8]) -> u64 {
        u64::from_le_bytes(bytes)
    }

    fn from_be_bytes(bytes: [u8; 8]) -> u64 {
        u64::from_be_bytes(bytes)
    }

    fn bytes_of_slice(bytes: &[u8]) -> [u8; 8] {
        array_of(bytes)
    }
}

#[tactic(auto, using(arrow2_model::proofs::Digits::i8_bytes))]
impl NativeType for i8 {
    ghost PRIMITIVE = { Int8 };

    ghost SIZE = { 1 };

    ghost le_digits = { digits 1 };

    ghost be_digits = { λ x. reverse (digits 1 x) };

    ghost of_le = { integer_from 1 };

    ghost of_be = { λ bytes. integer_from 1 (reverse bytes) };

    ghost le_law = { digits_of_integer 1 };

    ghost be_law = { digits_of_integer_high 1 };

    const PRIMITIVE: PrimitiveType = PrimitiveType::Int8;

    const SIZE: usize = 1;

    type Bytes = [u8; 1];

    fn to_le_bytes(&self) -> [u8; 1] {
        i8::to_le_bytes(*self)
    }

    fn to_be_bytes(&self) -> [u8; 1] {
        i8::to_be_bytes(*self)
    }

    fn from_le_bytes(bytes: [u8; 1]) -> i8 {
        i8::from_le_bytes(bytes)
    }

    fn from_be_bytes(bytes: [u8; 1]) -> i8 {
        i8::from_be_bytes(bytes)
    }

    fn bytes_of_slice(bytes: &[u8]) -> [u8; 1] {
        array_of(bytes)
    }
}

#[tactic(auto, using(arrow2_model::proofs::Digits::i16_bytes))]
impl NativeType for i16 {
    ghost PRIMITIVE = { Int16 };

    ghost SIZE = { 2 };

    ghost le_digits = { digits 2 };

    ghost be_digits = { λ x. reverse (digits 2 x) };

    ghost of_le = { integer_from 2 };

    ghost of_be = { λ bytes. integer_from 2 (reverse bytes) };

    ghost le_law = { digits_of_integer 2 };

    ghost be_law = { digits_of_integer_high 2 };

    const PRIMITIVE: PrimitiveType = PrimitiveType::Int16;

    const SIZE: usize = 2;

    type Bytes = [u8; 2];

    fn to_le_bytes(&self) -> [u8; 2] {
        i16::to_le_bytes(*self)
    }

    fn to_be_bytes(&self) -> [u8; 2] {
        i16::to_be_bytes(*self)
    }

    fn from_le_bytes(bytes: [u8; 2]) -> i16 {
        i16::from_le_bytes(bytes)
    }

    fn from_be_bytes(bytes: [u8; 2]) -> i16 {
        i16::from_be_bytes(bytes)
    }

    fn bytes_of_slice(bytes: &[u8]) -> [u8; 2] {
        array_of(bytes)
    }
}

#[tactic(auto, using(arrow2_model::proofs::Digits::i32_bytes))]
impl NativeType for i32 {
    ghost PRIMITIVE = { Int32 };

    ghost SIZE = { 4 };

    ghost le_digits = { digits 4 };

    ghost be_digits = { λ x. reverse (digits 4 x) };

    ghost of_le = { integer_from 4 };

    ghost of_be = { λ bytes. integer_from 4 (reverse bytes) };

    ghost le_law = { digits_of_integer 4 };

    ghost be_law = { digits_of_integer_high 4 };

    const PRIMITIVE: PrimitiveType = PrimitiveType::Int32;

    const SIZE: usize = 4;

    type Bytes = [u8; 4];

    fn to_le_bytes(&self) -> [u8; 4] {
        i32::to_le_bytes(*self)
    }

    fn to_be_bytes(&self) -> [u8; 4] {
        i32::to_be_bytes(*self)
    }

    fn from_le_bytes(bytes: [u8; 4]) -> i32 {
        i32::from_le_bytes(bytes)
    }

    fn from_be_bytes(bytes: [u8; 4]) -> i32 {
        i32::from_be_bytes(bytes)
    }

    fn bytes_of_slice(bytes: &[u8]) -> [u8; 4] {
        array_of(bytes)
    }
}

#[tactic(auto, using(arrow2_model::proofs::Digits::i64_bytes))]
impl NativeType for i64 {
    ghost PRIMITIVE = { Int64 };

    ghost SIZE = { 8 };

    ghost le_digits = { digits 8 };

    ghost be_digits = { λ x. reverse (digits 8 x) };

    ghost of_le = { integer_from 8 };

    ghost of_be = { λ bytes. integer_from 8 (reverse bytes) };

    ghost le_law = { digits_of_integer 8 };

    ghost be_law = { digits_of_integer_high 8 };

    const PRIMITIVE: PrimitiveType = PrimitiveType::Int64;

    const SIZE: usize = 8;

    type Bytes = [u8; 8];

    fn to_le_bytes(&self) -> [u8; 8] {
        i64::to_le_bytes(*self)
    }

    fn to_be_bytes(&self) -> [u8; 8] {
        i64::to_be_bytes(*self)
    }

    fn from_le_bytes(bytes: [u8; 8]) -> i64 {
        i64::from_le_bytes(bytes)
    }

    fn from_be_bytes(bytes: [u8; 8]) -> i64 {
        i64::from_be_bytes(bytes)
    }

    fn bytes_of_slice(bytes: &[u8]) -> [u8; 8] {
        array_of(bytes)
    }
}

#[tactic(auto, using(arrow2_model::proofs::Digits::i128_bytes))]
impl NativeType for i128 {
    ghost PRIMITIVE = { Int128 };

    ghost SIZE = { 16 };

    ghost le_digits = { digits 16 };

    ghost be_digits = { λ x. reverse (digits 16 x) };

    ghost of_le = { integer_from 16 };

    ghost of_be = { λ bytes. integer_from 16 (reverse bytes) };

    ghost le_law = { digits_of_integer 16 };

    ghost be_law = { digits_of_integer_high 16 };

    const PRIMITIVE: PrimitiveType = PrimitiveType::Int128;

    const SIZE: usize = 16;

    type Bytes = [u8; 16];

    fn to_le_bytes(&self) -> [u8; 16] {
        i128::to_le_bytes(*self)
    }

    fn to_be_bytes(&self) -> [u8; 16] {
        i128::to_be_bytes(*self)
    }

    fn from_le_bytes(bytes: [u8; 16]) -> i128 {
        i128::from_le_bytes(bytes)
    }

    fn from_be_bytes(bytes: [u8; 16]) -> i128 {
        i128::from_be_bytes(bytes)
    }

    fn bytes_of_slice(bytes: &[u8]) -> [u8; 16] {
        array_of(bytes)
    }
}
